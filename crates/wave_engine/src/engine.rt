//! The engine: what lasts from wave to wave. Its counts are of the waves that were done; those of
//! the workspace in it are of all waves, also of those that have failed.
ghost use Rattle.std.specs.Prelude.{◌≡◌, ◌≢◌, ◌<◌, ◌≤◌, ◌+◌, ◌-◌, ◌^◌, [], true, Err, All, IfOk, OnOk, OnErr};
ghost use Rattle.dd_store.specs.Nodes.{Nodes, count_of};
ghost use Rattle.req_table.specs.ComputedTables.{IsRight};
ghost use Rattle.wave_engine.specs.CacheProbe.{unknown, IsKeptWave};
ghost use Rattle.reduce_up.specs.Waves.{IsEntry, AnswersWave, requests_of};
ghost use Rattle.expand_work.specs.Bounds.{most_of};
ghost use Rattle.expand_work.specs.WaveParts.{HaveExpanded};
ghost use Rattle.wave_engine.specs.Bounds.{AreMoreThan, AreAtMost, ArePast};
ghost use Rattle.wave_engine.specs.EngineView.{AnswersByHeld, AreDivided, CountsAll};

use crate::cache_probe::CacheProbe;
use crate::workspace::Workspace;
use dd_store::{Ref, Store};
use expand_work::{Crew, Monitor, WaveFault};
use req_table::{ComputedTable, Op};
use std::alloc::{AllocError, Global};
use std::marker::Model;
use std::sync::Wait;
use std::thread::Threads;

/// The most answers that an engine's computed table holds; a full table forgets first the answer
/// that was kept longest ago. What such a table spares is in docs/decisions/waves-and-workers.md.
/// Which waves are refused by `Engine::wave_counting_all` does not depend on this number, only time
/// and memory do.
const CAPACITY: usize = 65_536;

/// Does waves one after the other, each with a computed table that the caller hands in. An `Engine`
/// is a runner with a table and counts of its own; the function `wave` uses a runner for a single
/// wave. Any number of tables may be used in turn, since the memory that lasts from wave to wave
/// has no answers in it.
#[derive(Drop)]
pub(crate) struct Runner<'a, R, G> {
    workspace: Workspace<'a, R, G>,
    cache_probe: CacheProbe,
}

impl<'a, R: Threads + Wait + Sync, G: Monitor> Runner<'a, R, G> {
    /// Returns a runner that has done no wave, which takes no memory yet.
    pub(crate) fn new(crew: &'a Crew<'a, R, G>) -> Self
        ensures monitor { result.workspace.crew.now.monitor.now ≡ crew.entry.now.monitor.now }
    {
        Runner {
            workspace: Workspace::new(crew),
            cache_probe: CacheProbe::new(crew.alloc),
        }
    }

    /// Returns the diagram of each operation: from the computed table, and for the others by a wave of at most `most`
    /// requests. The greatest number is no bound.
    pub(crate) fn wave(
        &mut self,
        store: &mut Store,
        computed: &mut ComputedTable,
        entries: &[(Op, Ref, Ref)],
        most: usize,
    ) -> Result<Vec<Ref>, WaveFault>
        requires operands { All (IsEntry store.old) entries.now }
        requires right { IsRight store.old computed.old }
        ensures wave { AnswersWave store.old entries.now (unknown computed.old entries.now) result store.new }
        ensures bounded { result ≡ Err WaveFault.TooManyRequests → most < 2 ^ 64 - 1 }
        ensures past { result ≡ Err WaveFault.TooManyRequests → AreMoreThan most store.old (unknown computed.old entries.now) }
        ensures unreduced { result ≡ Err WaveFault.TooManyRequests → store.new ≡ store.old }
        ensures within_bound { most < 2 ^ 64 - 1 → OnOk result (AreAtMost most store.old (unknown computed.old entries.now)) }
        ensures bounded_needs_no_worker { most < 2 ^ 64 - 1 → result ≢ Err WaveFault.NoWorker }
        ensures stopped { result ≡ Err WaveFault.Stopped → (G.bound self.old.workspace.crew.now.monitor.now).stops ≡ true }
        ensures expanded { OnOk result (HaveExpanded store.old 1 (requests_of (unknown computed.old entries.now))
            (self.old.workspace.down.splits + self.old.workspace.wave_memory) (self.new.workspace.down.splits + self.new.workspace.wave_memory)) }
        ensures divided { OnOk result (AreDivided store.old (requests_of (unknown computed.old entries.now))
            self.old.workspace.up.reductions self.new.workspace.up.reductions self.old.workspace.wave_memory self.new.workspace.wave_memory) }
        ensures memory { count_of store.old ≤ store.old.limit → result ≡ Err WaveFault.OutOfMemory → count_of store.new ≤ store.new.limit }
        ensures monitor { self.new.workspace.crew.now.monitor ≡ self.old.workspace.crew.now.monitor }
        ensures kept { IfOk result (λ answers. IsKeptWave computed.old entries.now answers.items computed.new) }
        ensures refused { OnErr result (computed.new ≡ computed.old) }
        ensures right { IsRight store.new computed.new }
    {
        let _ = store.levels(); // For the proof.
        let alloc = self.workspace.alloc();
        let Ok(_) = self.cache_probe.probe(computed, entries) else {
            return Err(WaveFault::OutOfMemory);
        };
        let found = self
            .workspace
            .wave(store, self.cache_probe.requests(), most)?;
        match self
            .cache_probe
            .complete_answers(alloc, computed, found.as_slice())
        {
            Ok(answers) => Ok(answers),
            Err(_) => Err(WaveFault::OutOfMemory),
        }
    }
}

/// Returns what is left of a bound after `since` requests, or the greatest number if there is no
/// bound. Nothing is left if there were more than the bound, which `CountsAll` excludes for an
/// engine.
fn left_of(most: usize, since: usize) -> usize
    ensures unbounded { most ≡ 2 ^ 64 - 1 → result ≡ 2 ^ 64 - 1 }
    ensures left { most < 2 ^ 64 - 1 → since ≤ most → result + since ≡ most }
{
    if most == usize::MAX {
        most
    } else {
        most.saturating_sub(since)
    }
}

/// Does waves one after the other over one store. It keeps the memory that they take, and a
/// computed table with the answers of earlier waves, 65,536 at most. It counts the requests of the
/// waves that were done: how many were expanded, how many of them by workers, and how many the
/// caller's thread has reduced. The store is not the engine's: each wave is handed it, and before a
/// wave over another store the engine has to forget.
#[derive(Drop)]
pub struct Engine<'a, R, G: Monitor> {
    runner: Runner<'a, R, G>,
    computed: ComputedTable,
    expanded: u64,
    by_workers: u64,
    reduced: u64,
    /// How many requests `wave_counting_all` has expanded since the computed table was last empty;
    /// `wave` does not add to it. It is compared with bounds, so it does not wrap as the three
    /// counts above do.
    since: usize,
}

impl<'a, R, G: Monitor> Model for Engine<'a, R, G> {
    ghost use Rattle.wave_engine.specs.EngineView.{EngineView};

    ghost Value = { EngineView };

    ghost view = { λ e. record {
      held = e.computed;
      bound = G.bound e.runner.workspace.crew.now.monitor.now;
      expanded = e.expanded;
      by_workers = e.by_workers;
      reduced = e.reduced;
      since = e.since;
    } };
}

impl<'a, R: Threads + Wait + Sync, G: Monitor> Engine<'a, R, G> {
    /// Returns an engine that has done no wave. Fails if memory is refused.
    pub fn new(crew: &'a Crew<'a, R, G>) -> Result<Self, AllocError>
        ensures empty { IfOk result (λ e. e.held.pairs ≡ []) }
        ensures capacity { IfOk result (λ e. e.held.capacity ≡ 65536) }
        ensures right { IfOk result (λ e. (S : Nodes) → IsRight S e.held) }
        ensures bound { IfOk result (λ e. e.bound ≡ G.bound crew.entry.now.monitor.now) }
        ensures none { IfOk result (λ e. e.expanded ≡ 0) }
        ensures none_by_workers { IfOk result (λ e. e.by_workers ≡ 0) }
        ensures none_reduced { IfOk result (λ e. e.reduced ≡ 0) }
        ensures counts_all { IfOk result (λ e. (S : Nodes) → CountsAll S e) }
    {
        let computed = ComputedTable::new(crew.alloc, CAPACITY)?;
        Ok(Engine {
            runner: Runner::new(crew),
            computed,
            expanded: 0,
            by_workers: 0,
            reduced: 0,
            since: 0,
        })
    }

    /// Empties the computed table. A wave over another store needs that, since references are names in one store.
    /// Fails, and forgets nothing, if memory is refused.
    pub fn forget(&mut self) -> Result<(), AllocError>
        ensures empty { OnOk result (self.new.held.pairs ≡ []) }
        ensures capacity { OnOk result (self.new.held.capacity ≡ 65536) }
        ensures right { OnOk result ((S : Nodes) → IsRight S self.new.held) }
        ensures bound { self.new.bound ≡ self.old.bound }
        ensures expanded { self.new.expanded ≡ self.old.expanded }
        ensures by_workers { self.new.by_workers ≡ self.old.by_workers }
        ensures reduced { self.new.reduced ≡ self.old.reduced }
        ensures since { OnOk result (self.new.since ≡ 0) }
        ensures counts_all { OnOk result ((S : Nodes) → CountsAll S self.new) }
        ensures refused { OnErr result (self.new ≡ self.old) }
    {
        self.computed = ComputedTable::new(self.alloc(), CAPACITY)?;
        self.since = 0;
        Ok(())
    }

    /// The allocator of the engine's memory.
    pub fn alloc(&self) -> Global {
        self.runner.workspace.alloc()
    }

    /// Returns how many requests were expanded in the waves that were done, modulo 2^64.
    /// `wave_judge` gives a window up by this number, if its waves together have too many.
    pub fn expanded(&self) -> u64
        ensures { result ≡ self.now.expanded }
    {
        self.expanded
    }

    /// Returns how many of these requests the workers have expanded, modulo 2^64: none if no worker was called in.
    pub fn by_workers(&self) -> u64
        ensures { result ≡ self.now.by_workers }
    {
        self.by_workers
    }

    /// Returns how many of these requests the caller's thread has reduced, modulo 2^64: all if no worker was called in.
    pub fn reduced(&self) -> u64
        ensures { result ≡ self.now.reduced }
    {
        self.reduced
    }

    /// Returns the most requests that the monitor allows a wave, or the greatest number if it sets no bound.
    fn most_requests(&self) -> usize
        ensures { result ≡ most_of self.now.bound.requests }
    {
        self.runner.workspace.crew.monitor.most_requests()
    }

    /// Returns the diagram of each operation, as `wave` does, by a wave of at most `most` requests.
    fn wave_within(
        &mut self,
        store: &mut Store,
        entries: &[(Op, Ref, Ref)],
        most: usize,
    ) -> Result<Vec<Ref>, WaveFault>
        requires operands { All (IsEntry store.old) entries.now }
        requires right { IsRight store.old self.old.held }
        ensures wave { AnswersWave store.old entries.now (unknown self.old.held entries.now) result store.new }
        ensures bounded { result ≡ Err WaveFault.TooManyRequests → most < 2 ^ 64 - 1 }
        ensures past { result ≡ Err WaveFault.TooManyRequests → AreMoreThan most store.old (unknown self.old.held entries.now) }
        ensures unreduced { result ≡ Err WaveFault.TooManyRequests → store.new ≡ store.old }
        ensures within_bound { most < 2 ^ 64 - 1 → OnOk result (AreAtMost most store.old (unknown self.old.held entries.now)) }
        ensures bounded_needs_no_worker { most < 2 ^ 64 - 1 → result ≢ Err WaveFault.NoWorker }
        ensures stopped { result ≡ Err WaveFault.Stopped → self.old.bound.stops ≡ true }
        ensures expanded { OnOk result (HaveExpanded store.old 1
            (requests_of (unknown self.old.held entries.now)) self.old.expanded self.new.expanded) }
        ensures divided { OnOk result (AreDivided store.old (requests_of (unknown self.old.held entries.now))
            self.old.reduced self.new.reduced self.old.by_workers self.new.by_workers) }
        ensures memory { count_of store.old ≤ store.old.limit → result ≡ Err WaveFault.OutOfMemory → count_of store.new ≤ store.new.limit }
        ensures kept { IfOk result (λ answers. IsKeptWave self.old.held entries.now answers.items self.new.held) }
        ensures refused { OnErr result (self.new ≡ self.old) }
        ensures right { IsRight store.new self.new.held }
        ensures bound { self.new.bound ≡ self.old.bound }
        ensures since { self.new.since ≡ self.old.since }
    {
        // The workspace's counts also have what failed waves have expanded. So the engine, which counts only the waves
        // that were done, adds how much they grow in this one.
        let before = self.runner.workspace.expanded();
        let shared = self.runner.workspace.by_workers();
        let made = self.runner.workspace.reduced();
        match self.runner.wave(store, &mut self.computed, entries, most) {
            Ok(answers) => {
                let more = self.runner.workspace.expanded().wrapping_sub(before);
                self.expanded = self.expanded.wrapping_add(more);
                let by_workers = self.runner.workspace.by_workers().wrapping_sub(shared);
                self.by_workers = self.by_workers.wrapping_add(by_workers);
                let by_caller = self.runner.workspace.reduced().wrapping_sub(made);
                self.reduced = self.reduced.wrapping_add(by_caller);
                Ok(answers)
            }
            Err(fault) => Err(fault),
        }
    }

    /// Returns the diagram of each operation on its two operands, in order.
    ///
    /// An operation that has a terminal case, or whose answer is held from an earlier wave, is answered at once. The
    /// requests of all others together are expanded by the caller's thread, down to the first level with more of them
    /// than the monitor lets the caller have, and from there on by the workers, in threads. They are reduced from the
    /// last level up.
    ///
    /// Fails with TooManyRequests if there are more requests than the monitor allows; then none was reduced. This does
    /// not depend on the workers, since with a bound the caller's thread does again what they have not done. It does
    /// depend on what is held; with `wave_counting_all` it does not. Fails with NoWorker only without a bound, if a
    /// worker's thread could not be started; entries that are all answered at once start none. Fails with Stopped if
    /// the run has stopped before all requests were expanded, with Full if the store is past its limit, or at it and
    /// lacks a node, and with OutOfMemory.
    ///
    /// This is for callers who set no bound, or who forget before each piece of work. Otherwise
    /// which waves are refused would depend on what was asked for before, and `wave_counting_all`
    /// is the call to make.
    pub fn wave(
        &mut self,
        store: &mut Store,
        entries: &[(Op, Ref, Ref)],
    ) -> Result<Vec<Ref>, WaveFault>
        requires operands { All (IsEntry store.old) entries.now }
        requires right { IsRight store.old self.old.held }
        ensures wave { AnswersWave store.old entries.now (unknown self.old.held entries.now) result store.new }
        ensures past { result ≡ Err WaveFault.TooManyRequests → ArePast self.old.bound.requests store.old (unknown self.old.held entries.now) }
        ensures within_bound { most_of self.old.bound.requests < 2 ^ 64 - 1
            → OnOk result (AreAtMost (most_of self.old.bound.requests) store.old (unknown self.old.held entries.now)) }
        ensures bounded_needs_no_worker { most_of self.old.bound.requests < 2 ^ 64 - 1 → result ≢ Err WaveFault.NoWorker }
        ensures stopped { result ≡ Err WaveFault.Stopped → self.old.bound.stops ≡ true }
        ensures expanded { OnOk result (HaveExpanded store.old 1
            (requests_of (unknown self.old.held entries.now)) self.old.expanded self.new.expanded) }
        ensures divided { OnOk result (AreDivided store.old (requests_of (unknown self.old.held entries.now))
            self.old.reduced self.new.reduced self.old.by_workers self.new.by_workers) }
        ensures memory { count_of store.old ≤ store.old.limit → result ≡ Err WaveFault.OutOfMemory → count_of store.new ≤ store.new.limit }
        ensures kept { IfOk result (λ answers. IsKeptWave self.old.held entries.now answers.items self.new.held) }
        ensures refused { OnErr result (self.new ≡ self.old) }
        ensures right { IsRight store.new self.new.held }
        ensures bound { self.new.bound ≡ self.old.bound }
    {
        let most = self.most_requests();
        self.wave_within(store, entries, most)
    }

    /// Returns how many requests `wave_counting_all` has expanded since the computed table was last empty.
    fn since(&self) -> usize
        ensures { result ≡ self.now.since }
    {
        self.since
    }

    /// Adds to the number of requests since the computed table was last empty. A sum of more than 64 bits is the
    /// greatest number, after which nothing is left of any bound.
    fn add_since(&mut self, more: usize)
        ensures sum { self.old.since + more < 2 ^ 64 → self.new.since ≡ self.old.since + more }
        ensures held { self.new.held ≡ self.old.held }
        ensures bound { self.new.bound ≡ self.old.bound }
    {
        self.since = self.since.saturating_add(more);
    }

    /// Returns the diagram of each operation, as `wave` does, by a wave of at most `most` requests, which are what is
    /// left of the bound after those since the computed table was last empty.
    fn wave_since(
        &mut self,
        store: &mut Store,
        entries: &[(Op, Ref, Ref)],
        most: usize,
    ) -> Result<Vec<Ref>, WaveFault>
        requires operands { All (IsEntry store.old) entries.now }
        requires right { IsRight store.old self.old.held }
        requires counts_all { CountsAll store.old self.old }
        requires most { most_of self.old.bound.requests < 2 ^ 64 - 1 → most + self.old.since ≡ most_of self.old.bound.requests }
        ensures wave { AnswersByHeld store.old entries.now result store.new self.old.held self.new.held }
        ensures bounded { result ≡ Err WaveFault.TooManyRequests → most < 2 ^ 64 - 1 }
        ensures past { result ≡ Err WaveFault.TooManyRequests → AreMoreThan most store.old entries.now }
        ensures unreduced { result ≡ Err WaveFault.TooManyRequests → store.new ≡ store.old }
        ensures within_bound { most_of self.old.bound.requests < 2 ^ 64 - 1 → OnOk result (AreAtMost (most_of self.old.bound.requests) store.old entries.now) }
        ensures bounded_needs_no_worker { most_of self.old.bound.requests < 2 ^ 64 - 1 → result ≢ Err WaveFault.NoWorker }
        ensures stopped { result ≡ Err WaveFault.Stopped → self.old.bound.stops ≡ true }
        ensures memory { count_of store.old ≤ store.old.limit → result ≡ Err WaveFault.OutOfMemory → count_of store.new ≤ store.new.limit }
        ensures right { IsRight store.new self.new.held }
        ensures refused { OnErr result (self.new ≡ self.old) }
        ensures counts_all { OnOk result (CountsAll store.new self.new) }
        ensures bound { self.new.bound ≡ self.old.bound }
    {
        let _ = store.levels(); // For the proof.
        let before = self.expanded();
        match self.wave_within(store, entries, most) {
            Ok(answers) => {
                // The counts may have wrapped; their difference is the number of requests of this
                // wave.
                let more = self.expanded().wrapping_sub(before);
                self.add_since(more as usize);
                Ok(answers)
            }
            Err(refused) => Err(refused),
        }
    }

    /// The same after the computed table was emptied, so that the whole bound is left: `most` is
    /// the monitor's bound. If memory for an empty table is refused, the engine holds what it held,
    /// and the fault is OutOfMemory.
    fn wave_anew(
        &mut self,
        store: &mut Store,
        entries: &[(Op, Ref, Ref)],
        most: usize,
    ) -> Result<Vec<Ref>, WaveFault>
        requires operands { All (IsEntry store.old) entries.now }
        requires most { most ≡ most_of self.old.bound.requests }
        ensures wave { AnswersByHeld store.old entries.now result store.new self.old.held self.new.held }
        ensures bounded { result ≡ Err WaveFault.TooManyRequests → most < 2 ^ 64 - 1 }
        ensures past { result ≡ Err WaveFault.TooManyRequests → AreMoreThan most store.old entries.now }
        ensures within_bound { most_of self.old.bound.requests < 2 ^ 64 - 1 → OnOk result (AreAtMost (most_of self.old.bound.requests) store.old entries.now) }
        ensures bounded_needs_no_worker { most_of self.old.bound.requests < 2 ^ 64 - 1 → result ≢ Err WaveFault.NoWorker }
        ensures stopped { result ≡ Err WaveFault.Stopped → self.old.bound.stops ≡ true }
        ensures memory { count_of store.old ≤ store.old.limit → result ≡ Err WaveFault.OutOfMemory → count_of store.new ≤ store.new.limit }
        ensures right { OnOk result (IsRight store.new self.new.held) }
        ensures counts_all { OnOk result (CountsAll store.new self.new) }
        ensures bound { self.new.bound ≡ self.old.bound }
    {
        let _ = store.levels(); // For the proof.
        match self.forget() {
            Ok(()) => self.wave_since(store, entries, most),
            Err(_) => Err(WaveFault::OutOfMemory),
        }
    }

    /// Returns the diagram of each operation, as `wave` does, but the monitor's bound counts the requests of all
    /// entries, also of those whose answers are held. So whether TooManyRequests is the result depends only on the
    /// functions of the operands, not on what was asked for before or is still held.
    ///
    /// All that is held was reached from requests that were counted since the table was last empty.
    /// So if these and the new requests are within the bound, all that the entries reach is. If
    /// they would be more, this does not yet show that the entries reach too many, since requests
    /// that these entries do not reach were counted too. So the table is emptied, and the wave is
    /// done without it. (If it was empty before, the same wave is refused twice.)
    ///
    /// That all of them are counted (`counts_all`) is known of a new engine, after `forget`, and after a wave of this
    /// kind that was done. If there is a bound, it is not known after `wave`.
    pub fn wave_counting_all(
        &mut self,
        store: &mut Store,
        entries: &[(Op, Ref, Ref)],
    ) -> Result<Vec<Ref>, WaveFault>
        requires operands { All (IsEntry store.old) entries.now }
        requires right { IsRight store.old self.old.held }
        requires counts_all { CountsAll store.old self.old }
        ensures wave { AnswersByHeld store.old entries.now result store.new self.old.held self.new.held }
        ensures past { result ≡ Err WaveFault.TooManyRequests → ArePast self.old.bound.requests store.old entries.now }
        ensures within_bound { most_of self.old.bound.requests < 2 ^ 64 - 1 → OnOk result (AreAtMost (most_of self.old.bound.requests) store.old entries.now) }
        ensures bounded_needs_no_worker { most_of self.old.bound.requests < 2 ^ 64 - 1 → result ≢ Err WaveFault.NoWorker }
        ensures stopped { result ≡ Err WaveFault.Stopped → self.old.bound.stops ≡ true }
        ensures memory { count_of store.old ≤ store.old.limit → result ≡ Err WaveFault.OutOfMemory → count_of store.new ≤ store.new.limit }
        ensures right { OnOk result (IsRight store.new self.new.held) }
        ensures counts_all { OnOk result (CountsAll store.new self.new) }
        ensures bound { self.new.bound ≡ self.old.bound }
    {
        let most = self.most_requests();
        let left = left_of(most, self.since());
        match self.wave_since(store, entries, left) {
            Err(WaveFault::TooManyRequests) => self.wave_anew(store, entries, most),
            result => result,
        }
    }
}
