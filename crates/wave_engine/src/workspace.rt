//! Waves without a computed table, and the memory that lasts from wave to wave.
ghost use Rattle.std.specs.Prelude.{◌≡◌, ◌≢◌, ◌<◌, ◌≤◌, ◌+◌, ◌-◌, ◌%◌, ◌^◌, true, length, Err, All, IfOk, IfErr, OnOk};
ghost use Rattle.dd_store.specs.Nodes.{count_of};
ghost use Rattle.reduce_up.specs.Waves.{IsEntry, AnswersWave, requests_of};
ghost use Rattle.expand_work.specs.WaveParts.{HaveExpanded};
ghost use Rattle.wave_engine.specs.Bounds.{AreMoreThan, AreAtMost};
ghost use Rattle.wave_engine.specs.ExpansionPhase.{IsExpandedTo, IsExpandedWithin};
ghost use Rattle.wave_engine.specs.EngineView.{AreDivided};

use crate::down::{Limits, expand, place_roots};
use crate::front::{Frontier, hand_over};
use crate::sizes::WaveSizes;
use dd_store::{Ref, Store};
use expand_work::{Crew, Monitor, Splits, WaveFault};
use reduce_up::{ReductionPhase, WaveMemory, reduce, root_answers};
use req_table::{Op, PackedChild, Rows, Waiting};
use std::alloc::Global;
use std::slice;
use std::sync::Wait;
use std::thread::Threads;

/// The most requests of a row that keeps its memory for the next wave. A longer one gives it back
/// when its level is reduced, 8 KB or more, which the store may need; to ask for a smaller one
/// again takes longer than it is worth.
const MOST_KEPT: usize = 1 << 10;

/// The state of the way down, whose memory lasts from wave to wave. That of the way up is
/// `reduce_up::ReductionPhase`.
#[derive(Drop)]
pub(crate) struct ExpansionPhase {
    /// The requests that wait, by level.
    pub(crate) requests: Waiting,
    /// The children of the requests that were expanded, by level.
    pub(crate) rows: Rows,
    /// What each entry comes to: its answer, or its request by place.
    pub(crate) roots: Vec<PackedChild>,
    /// The count of all requests that the caller's thread has ever split. If a wave is done again,
    /// it is set back first.
    pub(crate) splits: Splits,
}

/// Places the entries' requests and expands them, down to the first level with more requests than
/// its limit. What an earlier wave has left is dropped first: one that has failed may have left
/// requests that wait. Fails as `expand` does.
fn place_and_expand<G: Monitor>(
    store: &Store,
    entries: &[(Op, Ref, Ref)],
    down: &mut ExpansionPhase,
    up: &mut ReductionPhase,
    limits: Limits,
    monitor: &G,
) -> Result<u16, WaveFault>
    requires operands { All (IsEntry store.now) entries.now }
    ensures down { IfOk result (λ v. IsExpandedTo store.now entries.now v down.new.requests down.new.rows down.new.roots.items
        down.old.splits down.new.splits) }
    ensures few { limits.wave < 2 ^ 64 - 1 → IfOk result (λ v. IsExpandedWithin limits.wave store.now entries.now v down.new.requests
        down.new.rows down.new.roots.items down.old.splits down.new.splits) }
    ensures answers { OnOk result (length up.new.answers.items ≡ store.now.levels) }
    ensures counted { up.new.reductions ≡ up.old.reductions }
    ensures unlimited_level_reaches_the_end { limits.level ≡ 2 ^ 64 - 1 → IfOk result (λ v. v ≡ store.now.levels) }
    ensures never_full { IfErr result (λ e. e ≢ WaveFault.Full) }
    ensures never_no_worker { IfErr result (λ e. e ≢ WaveFault.NoWorker) }
    ensures bounded { result ≡ Err WaveFault.TooManyRequests → limits.wave < 2 ^ 64 - 1 }
    ensures past { result ≡ Err WaveFault.TooManyRequests → AreMoreThan limits.wave store.now entries.now }
    ensures within_bound { limits.wave < 2 ^ 64 - 1 → IfOk result (λ v. v ≡ store.now.levels
        → AreAtMost limits.wave store.now entries.now) }
    ensures stopped { result ≡ Err WaveFault.Stopped → (G.bound monitor.now).stops ≡ true }
{
    let levels = store.levels();
    let alloc = *down.roots.allocator();
    down.requests.restart(alloc, levels)?;
    down.rows.restart(alloc, levels)?;
    // A list of diagrams for each level: those of the levels that are handed over come from the workers, and those of
    // the others from `reduce`.
    up.fit(levels)?;
    down.roots.clear();
    place_roots(store, entries, &mut down.requests, &mut down.roots)?;
    expand(store, entries, down, limits, monitor)
}

/// Does waves one after the other. It keeps the memory that they take, and their sizes, by which it is decided when
/// workers are called in. No answer depends on an earlier wave.
#[derive(Drop)]
pub(crate) struct Workspace<'a, R, G> {
    pub(crate) crew: &'a Crew<'a, R, G>,
    pub(crate) down: ExpansionPhase,
    pub(crate) up: ReductionPhase,
    /// The memory of the workers, for both ways, with the count of all requests that they have
    /// expanded.
    pub(crate) wave_memory: WaveMemory,
    /// The sizes of the waves that have reached their reduction.
    sizes: WaveSizes,
}

impl<'a, R: Threads + Wait + Sync, G: Monitor> Workspace<'a, R, G> {
    /// Returns a workspace that has done no wave, which takes no memory yet.
    pub(crate) fn new(crew: &'a Crew<'a, R, G>) -> Self
        ensures monitor { result.crew.now.monitor.now ≡ crew.entry.now.monitor.now }
    {
        let alloc = crew.alloc;
        Workspace {
            crew,
            down: ExpansionPhase {
                requests: Waiting::new(alloc),
                rows: Rows::new(alloc, MOST_KEPT),
                roots: Vec::new(alloc),
                splits: Splits::new(),
            },
            up: ReductionPhase::new(alloc),
            wave_memory: WaveMemory::new(alloc),
            sizes: WaveSizes::new(),
        }
    }

    /// The allocator of its memory.
    pub(crate) fn alloc(&self) -> Global {
        self.crew.alloc
    }

    /// Returns how many requests were expanded in all its waves, by the caller's thread and by workers, modulo 2^64.
    pub(crate) fn expanded(&self) -> u64
        ensures { result ≡ (self.now.down.splits + self.now.wave_memory) % 2 ^ 64 }
    {
        self.wave_memory
            .expanded()
            .wrapping_add(self.down.splits.count() as u64)
    }

    /// Returns how many requests the workers have expanded in all its waves, modulo 2^64.
    pub(crate) fn by_workers(&self) -> u64
        ensures { result ≡ self.now.wave_memory % 2 ^ 64 }
    {
        self.wave_memory.expanded()
    }

    /// Returns how many requests the caller's thread has reduced in all its waves, modulo 2^64.
    pub(crate) fn reduced(&self) -> u64
        ensures { result ≡ self.now.up.reductions % 2 ^ 64 }
    {
        self.up.reductions.count()
    }

    /// Does one wave within limits: the caller's thread expands the requests above the first level
    /// that is too wide for it, and the workers those from there on. Fails with NoWorker if the
    /// workers have not done their part; then the store and all counts are as before, except for
    /// the count of requests that the caller's thread has split. (This is an attempt at one wave.
    /// What a search for an order calls an attempt is a whole comparison.)
    fn attempt(
        &mut self,
        store: &mut Store,
        entries: &[(Op, Ref, Ref)],
        limits: Limits,
    ) -> Result<Vec<Ref>, WaveFault>
        requires operands { All (IsEntry store.old) entries.now }
        ensures wave { AnswersWave store.old entries.now entries.now result store.new }
        ensures bounded { result ≡ Err WaveFault.TooManyRequests → limits.wave < 2 ^ 64 - 1 }
        ensures past { result ≡ Err WaveFault.TooManyRequests → AreMoreThan limits.wave store.old entries.now }
        ensures within_bound { limits.wave < 2 ^ 64 - 1 → OnOk result (AreAtMost limits.wave store.old entries.now) }
        ensures unlimited_level_needs_no_worker { limits.level ≡ 2 ^ 64 - 1 → result ≢ Err WaveFault.NoWorker }
        ensures stopped { result ≡ Err WaveFault.Stopped → (G.bound self.old.crew.now.monitor.now).stops ≡ true }
        ensures untouched { result ≡ Err WaveFault.NoWorker → store.new ≡ store.old }
        ensures unreduced { result ≡ Err WaveFault.TooManyRequests → store.new ≡ store.old }
        ensures wave_memory { result ≡ Err WaveFault.NoWorker → self.new.wave_memory ≡ self.old.wave_memory }
        ensures up { result ≡ Err WaveFault.NoWorker → self.new.up.reductions ≡ self.old.up.reductions }
        ensures expanded { OnOk result (HaveExpanded store.old 1 (requests_of entries.now) (self.old.down.splits + self.old.wave_memory)
            (self.new.down.splits + self.new.wave_memory)) }
        ensures divided { OnOk result (AreDivided store.old (requests_of entries.now) self.old.up.reductions self.new.up.reductions
            self.old.wave_memory self.new.wave_memory) }
        ensures memory { count_of store.old ≤ store.old.limit → result ≡ Err WaveFault.OutOfMemory → count_of store.new ≤ store.new.limit }
        ensures monitor { self.new.crew.now.monitor ≡ self.old.crew.now.monitor }
    {
        let _ = store.levels(); // For the proof.
        let alloc = self.crew.alloc;
        let before = self.down.splits.count();
        let monitor = self.crew.monitor;
        let from = place_and_expand(
            store,
            entries,
            &mut self.down,
            &mut self.up,
            limits,
            monitor,
        )?;
        let by_caller = self.down.splits.count().wrapping_sub(before);
        monitor.at_requests(by_caller);
        let most = limits.left(by_caller);
        let frontier = Frontier {
            requests: &self.down.requests,
            from,
            most,
        };
        let shared = hand_over(
            self.crew,
            &mut self.wave_memory,
            store,
            entries,
            &frontier,
            &mut self.up.answers,
        )?;
        // Only here, after the way down: a wave that was refused or stopped there was not counted
        // to its end, and one that is done again is noted once.
        self.sizes = self.sizes.then(by_caller.saturating_add(shared));
        // From the last level before `from` up; the diagrams of the workers' levels are in
        // `up.answers` already. The levels of the caller's thread are a single part; after a wave
        // by workers there is one for each worker.
        let parts = slice::from_mut(&mut self.down.rows);
        reduce(self.crew, store, parts, &mut self.up, from)?;
        let answers = self.up.answers.as_slice();
        match root_answers(alloc, self.down.roots.as_slice(), answers) {
            Ok(answers) => Ok(answers),
            Err(_) => Err(WaveFault::OutOfMemory),
        }
    }

    /// Returns the diagram of each operation, by at most `most` requests, or any number of them if `most` is the
    /// greatest number.
    ///
    /// The requests of all operations together are expanded by the caller's thread, down to the first level with more
    /// of them than the monitor lets the caller have, and from there on by the workers, in threads. They are reduced
    /// from the last level up.
    ///
    /// If there is a bound and the workers have not done their part, because a thread could not be started or because
    /// they found more requests than were left of the bound, the caller's thread does the whole wave again by itself.
    /// So TooManyRequests always comes from the caller's own count: there are more requests than the bound, and none
    /// was reduced. It fails with Stopped if the run has stopped before all requests were expanded; such a wave is not
    /// done again.
    ///
    /// Without a bound, it fails with NoWorker if a worker's thread could not be started; entries that all have
    /// terminal cases start none. Such a wave is not done again either. Each attempt of a search for an order has a
    /// bound, so this does not change which attempts are given up; and the caller may ask for one worker, which needs
    /// no thread.
    pub(crate) fn wave(
        &mut self,
        store: &mut Store,
        entries: &[(Op, Ref, Ref)],
        most: usize,
    ) -> Result<Vec<Ref>, WaveFault>
        requires operands { All (IsEntry store.old) entries.now }
        ensures wave { AnswersWave store.old entries.now entries.now result store.new }
        ensures bounded { result ≡ Err WaveFault.TooManyRequests → most < 2 ^ 64 - 1 }
        ensures past { result ≡ Err WaveFault.TooManyRequests → AreMoreThan most store.old entries.now }
        ensures unreduced { result ≡ Err WaveFault.TooManyRequests → store.new ≡ store.old }
        ensures within_bound { most < 2 ^ 64 - 1 → OnOk result (AreAtMost most store.old entries.now) }
        ensures bounded_needs_no_worker { most < 2 ^ 64 - 1 → result ≢ Err WaveFault.NoWorker }
        ensures stopped { result ≡ Err WaveFault.Stopped → (G.bound self.old.crew.now.monitor.now).stops ≡ true }
        ensures expanded { OnOk result (HaveExpanded store.old 1 (requests_of entries.now) (self.old.down.splits + self.old.wave_memory)
            (self.new.down.splits + self.new.wave_memory)) }
        ensures divided { OnOk result (AreDivided store.old (requests_of entries.now) self.old.up.reductions self.new.up.reductions
            self.old.wave_memory self.new.wave_memory) }
        ensures memory { count_of store.old ≤ store.old.limit → result ≡ Err WaveFault.OutOfMemory → count_of store.new ≤ store.new.limit }
        ensures monitor { self.new.crew.now.monitor ≡ self.old.crew.now.monitor }
    {
        let levels = store.levels();
        let limits = Limits {
            level: self
                .crew
                .caller_level_limit(self.sizes.expected_over(levels)),
            wave: most,
        };
        let before = self.down.splits.count();
        let result = self.attempt(store, entries, limits);
        if most == usize::MAX || !matches!(result, Err(WaveFault::NoWorker)) {
            return result;
        }
        // What the first attempt has split is split again, and is to be counted once.
        self.down.splits.reset_to(before);
        let caller_limits = Limits {
            level: usize::MAX,
            wave: most,
        };
        self.attempt(store, entries, caller_limits)
    }
}
