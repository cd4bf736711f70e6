//! The state of all workers, and what is read of it.
ghost use Rattle.std.specs.Prelude.{◌≡◌, ℕ, ◌<◌, ◌≤◌, length, slice_index_or, IfOk, MatchBool};
ghost use Rattle.req_table.specs.Keys.{wave_at};
ghost use Rattle.wave_core.specs.MachineView.{MachineView, IsConsistent, state_of, list_of, by_place, done_of};
ghost use Rattle.req_table.specs.Settled.{level_of_rows};
ghost use Rattle.req_table.specs.Tables.{row_at};
ghost use Rattle.wave_core.specs.Step.{IsStart};

mod lanes;
mod levels;

use crate::Records;
use crate::lists::{ItemList, RecordList, append, count_items, count_levels, count_records};
use crate::queues::{ItemQueue, KeyQueue};
use crate::start::{distribute_roots, tables};
use dd_store::Store;
use req_table::{Item, Key, Record, Table};
use std::alloc::{AllocError, Global};
use std::marker::Model;

/// The state of all workers: what each has sent, taken and recorded, what is due from it and what waits on its lane,
/// its level, and how many requests were kept. A list of pairs of workers has the pair (s, k) at s * workers + k; a
/// list by worker and level has (k, v) at k * levels + v.
#[derive(Drop)]
pub struct Machine {
    workers: u32,
    levels: u16,
    sent: Vec<ItemList>,
    ends_sent: Vec<u16>,
    due: Vec<KeyQueue>,
    waiting: Vec<ItemQueue>,
    taken: Vec<ItemList>,
    ends_taken: Vec<u64>,
    tables: Vec<Table>,
    rows: Vec<RecordList>,
    at: Vec<u16>,
    kept: u128,
}

impl Model for Machine {
    ghost use Rattle.wave_core.specs.MachineView.{MachineView, IsConsistent};

    ghost Value = { MachineView };

    ghost view = { λ m. record {
      workers = m.workers;
      levels = m.levels;
      sent = m.sent.items;
      ends_sent = m.ends_sent.items;
      due = m.due.items;
      waiting = m.waiting.items;
      taken = m.taken.items;
      ends_taken = m.ends_taken.items;
      tables = m.tables.items;
      rows = m.rows.items;
      at = m.at.items;
      kept = m.kept;
    } };

    ghost invariant = { λ m. IsConsistent (record {
      workers = m.workers;
      levels = m.levels;
      sent = m.sent.items;
      ends_sent = m.ends_sent.items;
      due = m.due.items;
      waiting = m.waiting.items;
      taken = m.taken.items;
      ends_taken = m.ends_taken.items;
      tables = m.tables.items;
      rows = m.rows.items;
      at = m.at.items;
      kept = m.kept;
    }) };
}

impl Machine {
    /// Returns the state before any event, for these roots. Fails if memory is refused.
    pub fn new(
        alloc: Global,
        store: &Store,
        workers: u32,
        roots: &[Key],
    ) -> Result<Machine, AllocError>
        requires some { 0 < workers }
        requires few { workers ≤ 16 }
        ensures { IfOk result (λ m. (m.workers ≡ workers) × (m.levels ≡ store.now.levels)
            × IsStart (wave_at store.now store.now.levels workers) roots.now (state_of m)) }
    {
        let levels = store.levels();
        let wide = workers as usize;
        let pairs = wide * wide;
        let places = wide * levels as usize;
        Ok(Machine {
            workers,
            levels,
            sent: ItemList::many(alloc, pairs)?,
            ends_sent: vec![in alloc; 0; pairs]?,
            due: distribute_roots(alloc, workers, roots)?,
            waiting: ItemQueue::many(alloc, wide)?,
            taken: ItemList::many(alloc, wide)?,
            ends_taken: vec![in alloc; 0; pairs]?,
            tables: tables(alloc, places)?,
            rows: RecordList::many(alloc, places)?,
            at: vec![in alloc; 0; wide]?,
            kept: 0,
        })
    }

    /// Whether every worker is past the last level.
    pub fn is_finished(&self) -> bool
        ensures { MatchBool result ((k : ℕ) → k < self.now.workers → slice_index_or self.now.at k 0 ≡ self.now.levels)
            ((k : ℕ) × (k < self.now.workers) × ¬ (slice_index_or self.now.at k 0 ≡ self.now.levels)) }
    {
        for worker in 0..self.workers {
            if self.at[worker as usize] != self.levels {
                return false;
            }
        }
        true
    }

    /// Returns the number of workers.
    pub fn workers(&self) -> u32
        ensures count { result ≡ self.now.workers }
        ensures kept { IsConsistent self.now }
    {
        self.workers
    }

    /// Returns the records of a level, worker by worker.
    fn level_records(&self, alloc: Global, level: u16) -> Result<Vec<Record>, AllocError>
        requires { level < self.now.levels }
        ensures { IfOk result (λ records. records.items ≡ level_of_rows self.now.workers (by_place self.now.levels self.now.rows) level) }
    {
        let mut records = Vec::new(alloc);
        for worker in 0..self.workers {
            let place = worker as usize * self.levels as usize + level as usize;
            append(&mut records, self.rows[place].as_slice())?;
        }
        Ok(records)
    }

    /// Returns the records of all levels.
    pub fn records_by_level(&self, alloc: Global) -> Result<Records, AllocError>
        ensures levels { IfOk result (λ r. length r ≡ self.now.levels) }
        ensures rows { IfOk result (λ r. (v : ℕ) → v < self.now.levels
            → row_at r v ≡ level_of_rows self.now.workers (by_place self.now.levels self.now.rows) v) }
    {
        let mut rows = Vec::new(alloc);
        for level in 0..self.levels {
            rows.push(self.level_records(alloc, level)?)?;
        }
        Ok(Records::of(rows))
    }

    /// Returns how many events were done. Each has sent an item, taken one, made a record or passed a level; an event
    /// that kept a request has both sent and taken it, and counts once.
    pub fn events_done(&self) -> u128
        ensures { result ≡ done_of self.now }
    {
        let lanes = count_items(&self.sent) + count_items(&self.taken);
        let noted = lanes + count_records(&self.rows) + count_levels(&self.at);
        noted - self.kept
    }

    /// Returns what `by` has sent to `to`.
    pub fn sent(&self, by: u32, to: u32) -> &[Item]
        requires by { by < self.now.workers }
        requires to { to < self.now.workers }
        ensures { result.now ≡ by_place self.now.workers self.now.sent by to }
    {
        self.sent[(by * self.workers + to) as usize].as_slice()
    }

    /// Returns the records of `by` at a level.
    pub fn records(&self, by: u32, level: u16) -> &[Record]
        requires by { by < self.now.workers }
        requires level { level < self.now.levels }
        ensures { result.now ≡ by_place self.now.levels self.now.rows by level }
    {
        let place = by as usize * self.levels as usize + level as usize;
        self.rows[place].as_slice()
    }

    /// Returns what `by` has taken.
    pub fn taken(&self, by: u32) -> &[Item]
        requires { by < self.now.workers }
        ensures { result.now ≡ list_of self.now.taken by }
    {
        self.taken[by as usize].as_slice()
    }
}
