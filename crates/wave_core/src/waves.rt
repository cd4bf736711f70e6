//! A core: the workers of one wave on one thread.
ghost use Rattle.std.specs.Prelude.{◌≡◌, ℕ, ◌+◌, ◌<◌, ◌≤◌, List, ◌++◌, All, AllPairs, length, IfOk, IfErr, OnOk, OnErr, MatchBool};
ghost use Rattle.std.specs.Prelude.{IsTrue};
ghost use Rattle.req_table.specs.Keys.{IsKey};
ghost use Rattle.req_table.specs.declared.Item.{Item as ItemValue};
ghost use Rattle.req_table.specs.declared.Record.{Record as RecordValue};
ghost use Rattle.req_table.specs.Lanes.{sent_by, IsFair, IsClosed, LaneLaw};
ghost use Rattle.req_table.specs.Settled.{IsClosure, IsSplit, level_of_rows};
ghost use Rattle.req_table.specs.Tables.{row_at};
ghost use Rattle.wave_core.specs.Cores.{CoreView, core_wave, core_state, events_done, IsSettledCore, IsNew, IsSameWave, IsRefusal};
ghost use Rattle.wave_core.specs.Cores.{IsStopped, TakesOpen};
ghost use Rattle.wave_core.specs.Step.{IsStep, IsRun, IsAllowed, IsFinished};

mod driving;

use crate::machine::Machine;
use crate::{CoreFault, Event, Records};
use dd_store::Store;
use req_table::{Item, Key, Record};
use std::alloc::{AllocError, Global};
use std::marker::Model;

/// The workers of one wave: the store and the roots of the wave, and what each worker has sent, taken and recorded, and
/// what is due from it.
#[derive(Drop)]
pub struct Core<'a> {
    alloc: Global,
    store: &'a Store,
    roots: &'a [Key],
    machine: Machine,
}

impl<'a> Model for Core<'a> {
    ghost use Rattle.wave_core.specs.Cores.{CoreView, IsSoundCore};

    ghost Value = { CoreView };

    ghost view = { λ c. record { store = c.store.now; roots = c.roots.now; machine = c.machine } };

    ghost invariant = { λ c. IsSoundCore (record { store = c.store.now; roots = c.roots.now; machine = c.machine }) };
}

impl<'a> Core<'a> {
    /// Returns the workers before any event: root i is due from worker i modulo their number, to the root's owner.
    /// Fails if memory is refused.
    pub fn new(
        alloc: Global,
        store: &'a Store,
        workers: u32,
        roots: &'a [Key],
    ) -> Result<Core<'a>, AllocError>
        requires some { 0 < workers }
        requires few { workers ≤ 16 }
        requires roots { All (IsKey store.now) roots.now }
        ensures new { IfOk result (λ c. IsNew store.now workers roots.now c) }
        ensures counts { IfOk result (λ c. events_done c ≡ 0) }
    {
        let _ = store.levels(); // For the proof.
        let machine = Machine::new(alloc, store, workers, roots)?;
        Ok(Core {
            alloc,
            store,
            roots,
            machine,
        })
    }

    /// Does an event, and returns true; or returns false, and changes nothing, if the event is not allowed.
    fn try_event(&mut self, event: Event) -> Result<bool, AllocError>
        ensures same { IsSameWave self.old self.new }
        ensures ok { IfOk result (λ b. MatchBool b (IsStep (core_wave self.old) (core_state self.old) event (core_state self.new))
            ((self.new ≡ self.old) × ¬ IsAllowed (core_wave self.old) (core_state self.old) event)) }
        ensures counts { IfOk result (λ b. MatchBool b (events_done self.new ≡ events_done self.old + 1)
            (events_done self.new ≡ events_done self.old)) }
        ensures err { OnErr result (self.new ≡ self.old) }
    {
        let _ = self.machine.workers(); // For the proof.
        match event {
            Event::Send { by, to } => self.machine.send(self.store, by, to),
            Event::End { by, to } => self.machine.end(self.store, by, to),
            Event::Take { by } => self.machine.take(self.store, by),
            Event::Expand { by } => self.machine.expand(self.store, by),
            Event::Advance { by } => Ok(self.machine.advance(self.store, by)),
            Event::Keep { by } => self.machine.keep(self.store, by),
        }
    }

    /// Returns the number of events that this core has done.
    fn events_done(&self) -> u128
        ensures { result ≡ events_done self.now }
    {
        self.machine.events_done()
    }

    /// Does an event. If it is not allowed, the fault has the number of events that this core has done.
    pub fn step(&mut self, event: Event) -> Result<(), CoreFault>
        ensures same { IsSameWave self.old self.new }
        ensures ok { OnOk result (IsStep (core_wave self.old) (core_state self.old) event (core_state self.new)) }
        ensures open { OnOk result (TakesOpen self.old event) }
        ensures counts { OnOk result (events_done self.new ≡ events_done self.old + 1) }
        ensures refused { IfErr result (λ fault. IsRefusal self.old event fault) }
        ensures unchanged { OnErr result (self.new ≡ self.old) }
    {
        let _ = &self.machine; // For the proof.
        if !self.allows(event) {
            let place = self.events_done();
            return Err(CoreFault::NotAllowed { place });
        }
        match self.try_event(event) {
            Ok(true) => Ok(()),
            Ok(false) => unreachable!(),
            Err(_) => Err(CoreFault::OutOfMemory),
        }
    }

    /// Does events one after the other, up to the first that fails. Returns how many they are.
    pub fn run(&mut self, events: &[Event]) -> Result<usize, CoreFault>
        ensures same { IsSameWave self.old self.new }
        ensures count { IfOk result (λ n. n ≡ length events.now) }
        ensures counts { OnOk result (events_done self.new ≡ events_done self.old + length events.now) }
        ensures ok { OnOk result (IsRun (core_wave self.old) (core_state self.old) events.now (core_state self.new)) }
        ensures refused { IfErr result (λ fault. IsStopped self.old events.now self.new fault) }
    {
        for event in events {
            self.step(*event)?;
        }
        Ok(events.len())
    }

    /// Whether every worker is past the last level. The core is then settled for its roots.
    pub fn finished(&self) -> bool
        ensures value { MatchBool result (IsFinished (core_wave self.now) (core_state self.now))
            (¬ IsFinished (core_wave self.now) (core_state self.now)) }
        ensures settled { IsTrue result → IsSettledCore self.now }
    {
        self.machine.is_finished()
    }

    /// Whether an event is allowed, so that some state follows by it.
    fn allows(&self, event: Event) -> bool
        ensures { MatchBool result (IsAllowed (core_wave self.now) (core_state self.now) event)
            (¬ IsAllowed (core_wave self.now) (core_state self.now) event) }
    {
        match event {
            Event::Send { by, to } => self.machine.can_send(self.store, by, to),
            Event::End { by, to } => self.machine.can_end(self.store, by, to),
            Event::Take { by } => self.machine.can_take(self.store, by),
            Event::Expand { by } => self.machine.can_expand(self.store, by),
            Event::Advance { by } => self.machine.can_advance(self.store, by),
            Event::Keep { by } => self.machine.can_keep(self.store, by),
        }
    }

    /// Returns what a worker has sent to another, in order.
    pub fn sent(&self, by: u32, to: u32) -> &[Item]
        requires by { by < self.now.machine.workers }
        requires to { to < self.now.machine.workers }
        ensures value { result.now ≡ (core_state self.now).sent by to }
        ensures fair { IsFair (core_wave self.now).scope result.now }
    {
        self.machine.sent(by, to)
    }

    /// Returns what a worker has taken from its lane, in order.
    pub fn taken(&self, by: u32) -> &[Item]
        requires { by < self.now.machine.workers }
        ensures value { result.now ≡ (core_state self.now).taken by }
        ensures lane { LaneLaw (core_wave self.now).scope (λ s. (core_state self.now).sent s by) result.now
            ((core_state self.now).waiting by) }
        ensures prefix { (s : ℕ) → s < self.now.machine.workers
            → (rest : List ItemValue) × ((core_state self.now).sent s by ≡ sent_by s result.now ++ rest) }
    {
        self.machine.taken(by)
    }

    /// Returns what a worker has recorded at a level, in order. A key has one level and one owner, so it has no second
    /// record.
    pub fn records(&self, by: u32, level: u16) -> &[Record]
        requires by { by < self.now.machine.workers }
        requires level { level < self.now.store.levels }
        ensures value { result.now ≡ (core_state self.now).rows by level }
        ensures split { All (IsSplit (core_wave self.now)) result.now }
        ensures placed { All (λ r. (level ≡ (core_wave self.now).level r.key) × ((core_wave self.now).owner r.key ≡ by)) result.now }
        ensures once { AllPairs (λ (a b : RecordValue). ¬ (a.key ≡ b.key)) result.now }
    {
        self.machine.records(by, level)
    }

    /// Whether a level is closed for a worker: it has taken an End of the level from every worker.
    pub fn closed(&self, by: u32, level: u16) -> bool
        requires { by < self.now.machine.workers }
        ensures { MatchBool result (IsClosed (core_wave self.now).scope level ((core_state self.now).taken by))
            (¬ IsClosed (core_wave self.now).scope level ((core_state self.now).taken by)) }
    {
        self.machine.is_closed(self.store, by, level)
    }

    /// Returns the records of all workers by level. If the core is finished, they are exactly those of the reached
    /// requests.
    pub fn into_records(self) -> Result<Records, AllocError>
        ensures levels { IfOk result (λ r. length r ≡ self.entry.store.levels) }
        ensures rows { IfOk result (λ r. (v : ℕ) → v < self.entry.store.levels
            → row_at r v ≡ level_of_rows self.entry.machine.workers (core_state self.entry).rows v) }
        ensures closure { IsFinished (core_wave self.entry) (core_state self.entry)
            → IfOk result (λ r. IsClosure (core_wave self.entry) self.entry.roots (row_at r)) }
    {
        self.machine.records_by_level(self.alloc)
    }
}
