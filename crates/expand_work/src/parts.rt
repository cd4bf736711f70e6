//! All requests that the roots of a wave ask for, by worker, as the workers have recorded them.
//! Nothing is copied together.
ghost use Rattle.std.specs.Prelude.{◌≡◌, ◌≢◌, ◌<◌, ◌≤◌, ◌-◌, ◌%◌, ◌^◌, true, length, map, slice_index_or, All, IfOk, IfErr, IfSome, OnOk, OnErr, Err, []};
ghost use Rattle.req_table.specs.Keys.{IsKey};
ghost use Rattle.req_table.specs.Settled.{key_of};
ghost use Rattle.expand_work.specs.declared.part.Part.{Part as PartValue};
ghost use Rattle.expand_work.specs.WavePorts.{row_of};
ghost use Rattle.expand_work.specs.Bounds.{AreFew};
ghost use Rattle.expand_work.specs.WaveParts.{AreParts, AreSettled, HaveExpanded, count_in, noted_of};
ghost use Rattle.expand_work.specs.OwnerRows.{row_by_owner, AreRowsByOwner};
ghost use Rattle.expand_work.specs.MemoryPool.{rows_in, without_rows};

use crate::team::{WaveInput, run_workers};
use crate::{Crew, MemoryPool, Monitor, Part, WaveFault, WorkerMemory};
use dd_store::Store;
use lane_queue::{Lanes, Port};
use req_table::{Key, Row, Rows, Table};
use std::alloc::{AllocError, Global};
use std::marker::Model;
use std::snapshot::Snapshot;
use std::sync::Wait;
use std::thread::Threads;

/// Of each worker, which requests it was asked for, and at which places it has put what each worker asked of it. The
/// children of the requests are elsewhere, in rows.
#[derive(Drop)]
pub struct WorkerNotes {
    spaces: Vec<WorkerMemory>,
    store: Snapshot<Store>,
}

impl Model for WorkerNotes {
    ghost use Rattle.std.specs.Prelude.{map};
    ghost use Rattle.expand_work.specs.WaveParts.{PartsView};
    ghost use Rattle.expand_work.specs.MemoryPool.{records_in, noted_in};

    ghost Value = { PartsView };

    ghost view = { λ n. record { rows = map (records_in n.store.value) n.spaces.items; noted = map noted_in n.spaces.items } };
}

impl WorkerNotes {
    /// Returns the places at which a worker has put the requests that a sender asked of it, in the order in which they
    /// were sent.
    pub fn noted(&self, worker: u32, sender: u32) -> &[u32]
        requires worker { worker < length self.now.noted }
        requires sender { sender < length (slice_index_or self.now.noted worker []) }
        ensures { result.now ≡ noted_of self.now.noted worker sender }
    {
        self.spaces[worker as usize].noted.list(sender)
    }

    /// Returns the keys of a worker's requests of a level, by place. They are there only if each table has stayed with
    /// its level (`MemoryPool::keeping`).
    pub fn keys(&self, worker: u32, level: u16) -> Option<&Table>
        requires worker { worker < length self.now.rows }
        requires level { level < length (slice_index_or self.now.rows worker []) }
        ensures { IfSome result (λ keys. keys.now ≡ map key_of (row_of self.now.rows worker level)) }
    {
        self.spaces[worker as usize].tables.keys(level)
    }

    /// Returns the memory of the workers, with the rows that belong to it, for the next wave.
    pub fn give_back(self, rows: Vec<Rows>, spaces: &mut MemoryPool)
        ensures { spaces.new ≡ spaces.old }
    {
        let mut used = self.spaces;
        for (space, rows) in used.iter_mut().zip(rows) {
            space.rows = rows;
        }
        spaces.refill(used);
    }
}

/// What the workers of a wave have recorded: by worker the rows of children, and the rest.
#[derive(Drop)]
pub struct Parts {
    rows: Vec<Rows>,
    notes: WorkerNotes,
}

impl Model for Parts {
    ghost use Rattle.std.specs.Prelude.{map};
    ghost use Rattle.expand_work.specs.WaveParts.{PartsView};
    ghost use Rattle.expand_work.specs.OwnerRows.{AreRowsByOwner};

    ghost Value = { PartsView };

    ghost view = { λ p. p.notes };

    ghost invariant = { λ p. AreRowsByOwner p.notes.rows p.rows.items };
}

impl Parts {
    /// Returns the children, low and high, of a worker's requests of a level, by place. A child that is a request has
    /// its owner in place of its place.
    pub fn children(&self, worker: u32, level: u16) -> &Row
        requires worker { worker < length self.now.rows }
        requires level { level < length (slice_index_or self.now.rows worker []) }
        ensures { result.now ≡ row_by_owner (length self.now.rows) (row_of self.now.rows worker level) }
    {
        self.rows[worker as usize].row(level)
    }

    /// Returns what the workers were asked for and have noted.
    pub fn notes(&self) -> &WorkerNotes
        ensures { result.now ≡ self.now }
    {
        &self.notes
    }

    /// Returns the number of all requests, modulo 2^64, which also says whether the wave was large.
    pub fn count(&self) -> u64
        ensures { result ≡ count_in self.now.rows % 2 ^ 64 }
    {
        let mut total: u64 = 0;
        for rows in &self.rows {
            total = total.wrapping_add(rows.count());
        }
        total
    }

    /// Whether there are at most `most` requests. The greatest number is no bound.
    pub(crate) fn are_few(&self, most: usize) -> bool
        ensures { result ≡ true → most < 2 ^ 64 - 1 → count_in self.now.rows ≤ most }
    {
        let mut total: u64 = 0;
        for rows in &self.rows {
            total = total.saturating_add(rows.total());
        }
        most == usize::MAX || total <= most as u64
    }

    /// Returns the rows of all workers, in which a child that is a request has its owner in place of its place, and the
    /// rest.
    pub fn open(self) -> (Vec<Rows>, WorkerNotes)
        ensures rows { AreRowsByOwner self.rows result.0.items }
        ensures notes { result.1 ≡ self }
    {
        (self.rows, self.notes)
    }
}

/// Divides the parts into their ports, their rows, and the rest of their memory, each by worker.
fn split_parts(
    alloc: Global,
    parts: Vec<Part>,
) -> Result<(Vec<Port>, Vec<Rows>, Vec<WorkerMemory>), AllocError>
    ensures ports { IfOk result (λ r. r.0.items ≡ map (λ (p : PartValue). p.port) parts.items) }
    ensures rows { IfOk result (λ r. r.1.items ≡ map (λ (p : PartValue). rows_in p.space) parts.items) }
    ensures spaces { IfOk result (λ r. r.2.items ≡ map (λ (p : PartValue). without_rows p.space) parts.items) }
{
    let mut ports = Vec::new(alloc);
    let mut rows = Vec::new(alloc);
    let mut spaces = Vec::new(alloc);
    for part in parts {
        let Part { port, space } = part;
        let (children, rest) = space.split(alloc);
        ports.push(port)?;
        rows.push(children)?;
        spaces.push(rest)?;
    }
    Ok((ports, rows, spaces))
}

/// Does the way down of a wave by workers. Returns all requests that the roots ask for, directly or through children,
/// each recorded once by its owner, and the ports, which no longer have lanes but show contracts what was sent and
/// taken. The levels are those of Ochi, Yasuoka and Yajima (1993), the workers after van Dijk (2016).
///
/// The caller's thread does the part of the last of the 1 to 16 workers, and each other worker has a thread of its own.
/// Root i is sent by worker i modulo their number. The n-th request that one worker has asked of another is the n-th
/// place that the other has noted. The workers use the memory of an earlier wave in `spaces` as far as there is any,
/// and give it back after a failure; `spaces` counts what was expanded.
///
/// `most` is the most requests that the workers may expand together, or the greatest number for no bound.
///
/// Fails with Stopped if the run has stopped, as the monitor says; with NoWorker if a thread could not be started or
/// there are more requests than `most` (then all threads stop, and no more than `most` are expanded); and with
/// OutOfMemory if memory was refused and every thread was started. All threads have ended before the call returns.
pub fn expand_parts<R: Threads + Wait + Sync, G: Monitor>(
    crew: &Crew<'_, R, G>,
    store: &Store,
    roots: &[Key],
    most: usize,
    spaces: &mut MemoryPool,
) -> Result<(Parts, Vec<Port>), WaveFault>
    requires roots { All (IsKey store.now) roots.now }
    ensures parts { IfOk result (λ r. AreParts store.now crew.now.workers.count roots.now r.0) }
    ensures settled { IfOk result (λ r. AreSettled store.now crew.now.workers.count roots.now r.0 r.1.items) }
    ensures expanded { OnOk result (HaveExpanded store.now crew.now.workers.count roots.now spaces.old spaces.new) }
    ensures refused { OnErr result (spaces.new ≡ spaces.old) }
    ensures few { most < 2 ^ 64 - 1 → OnOk result (AreFew store.now crew.now.workers.count roots.now most) }
    ensures fault { IfErr result (λ f. f ≢ WaveFault.Full) }
    ensures never_too_many_requests { IfErr result (λ f. f ≢ WaveFault.TooManyRequests) }
    ensures stopped { result ≡ Err WaveFault.Stopped → (G.bound crew.now.monitor.now).stops ≡ true }
{
    let _ = store.levels(); // For the proof.
    let alloc = crew.alloc;
    let workers = crew.workers.count();
    let (lanes, ports) = Lanes::new(alloc, store, workers)?;
    let wave = WaveInput {
        alloc,
        lanes: &lanes,
        store,
        roots,
        most: most as u64,
    };
    let used = spaces.take_all(alloc);
    let parts = run_workers(crew.rt, wave, ports, used, crew.monitor)?;
    let (ports, rows, filled) = split_parts(alloc, parts)?;
    let settled = lanes.settle(crew.rt, ports)?;
    let notes = WorkerNotes {
        spaces: filled,
        store: Snapshot::of(store),
    };
    let parts = Parts { rows, notes };
    if !parts.are_few(most) {
        return Err(WaveFault::NoWorker);
    }
    spaces.add(parts.count());
    Ok((parts, settled.ports))
}
