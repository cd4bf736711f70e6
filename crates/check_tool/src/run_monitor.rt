//! The monitor of a run: it prints progress, stops the run at its deadline, and notes the pairs that stay undecided.
ghost use Rattle.std.specs.Prelude.{◌≡◌, None, is_some};

use crate::progress::{MemoryMeter, Progress, millis_of};
use crate::undecided::RunNotes;
use dd_store::Watch;
use expand_work::{AttemptEnd, MergeRound, Monitor, NoMonitor};
use std::rt::Clock;
use std::sync::Wait;
use std::sync::atomic::{AtomicBool, Ordering};
use text_device::Sink;

/// The time at which a run stops, and whether it was reached.
#[derive(Drop)]
struct Deadline<'a, H> {
    rt: &'a H,
    /// The time in milliseconds of the clock. There is none if the clock could not be read; the run is then not
    /// stopped.
    end: Option<u64>,
    has_passed: AtomicBool,
}

impl<'a, H: Clock> Deadline<'a, H> {
    /// Returns the deadline that is this many seconds from now.
    fn after(rt: &'a H, seconds: u64) -> Self {
        let end = match millis_of(rt) {
            Some(now) => Some(now.saturating_add(seconds.saturating_mul(1_000))),
            None => None,
        };
        Deadline {
            rt,
            end,
            has_passed: AtomicBool::new(false),
        }
    }

    /// Returns whether the deadline has passed. Once it has, the result stays true, as `Monitor::has_stopped` requires.
    fn passes(&self) -> bool {
        if self.has_passed() {
            return true;
        }
        let passes = match (self.end, millis_of(self.rt)) {
            (Some(end), Some(now)) => end <= now,
            _ => false,
        };
        if passes {
            self.has_passed.store(true, Ordering::SeqCst);
        }
        passes
    }

    /// Returns whether `passes` has returned true, without a look at the clock.
    fn has_passed(&self) -> bool {
        self.has_passed.load(Ordering::SeqCst)
    }
}

/// The monitor of a run. Printing progress and stopping are both optional. One type serves all cases, so that the code
/// of the waves is generated for one monitor only.
#[derive(Drop)]
pub struct RunMonitor<'a, 'e, H, E> {
    rt: &'a H,
    notes: &'a RunNotes,
    deadline: Option<Deadline<'a, H>>,
    progress: Option<Progress<'a, 'e, H, E>>,
}

/// Returns the deadline of a run that stops `seconds` from now, if they are given.
fn deadline_of<'a, H: Clock>(rt: &'a H, seconds: Option<u64>) -> Option<Deadline<'a, H>>
    ensures { is_some result ≡ is_some seconds }
{
    match seconds {
        Some(seconds) => Some(Deadline::after(rt, seconds)),
        None => None,
    }
}

impl<'a, 'e, H: Clock + MemoryMeter + Wait, E: Sink> RunMonitor<'a, 'e, H, E> {
    /// Returns the monitor of a run that stops `seconds` from now, if they are given, and prints this progress, if
    /// there is one.
    pub fn new(
        rt: &'a H,
        notes: &'a RunNotes,
        seconds: Option<u64>,
        progress: Option<Progress<'a, 'e, H, E>>,
    ) -> RunMonitor<'a, 'e, H, E>
        ensures { is_some result.deadline ≡ is_some seconds }
    {
        RunMonitor {
            rt,
            notes,
            deadline: deadline_of(rt, seconds),
            progress,
        }
    }

    /// Erases the line of progress from the terminal, if there is one, and releases the device.
    pub fn end(self) {
        let RunMonitor { progress, .. } = self;
        if let Some(progress) = progress {
            progress.end();
        }
    }
}

impl<H: Clock + MemoryMeter + Wait + Sync, E: Sink + Send> Watch for RunMonitor<'_, '_, H, E> {
    fn at_shard(&self, _shard: u8, _level: u16) {}
}

impl<H: Clock + MemoryMeter + Wait + Sync, E: Sink + Send> Monitor for RunMonitor<'_, '_, H, E> {
    ghost bound = { λ m. record { requests = None; stops = is_some m.deadline } };

    fn at_level(&self, _worker: u32, _level: u16) {}

    fn caller_level_limit(&self, workers: u32, expected: usize) -> usize {
        NoMonitor.caller_level_limit(workers, expected)
    }

    fn most_requests(&self) -> usize {
        usize::MAX
    }

    fn has_stopped(&self) -> bool {
        match &self.deadline {
            Some(deadline) => deadline.passes(),
            None => false,
        }
    }

    fn was_stopped(&self) -> bool {
        match &self.deadline {
            Some(deadline) => deadline.has_passed(),
            None => false,
        }
    }

    fn at_rank(&self, rank: u32, ranks: u32, nodes: u64) {
        if let Some(progress) = &self.progress {
            progress.at_rank(rank, ranks, nodes);
        }
    }

    fn at_requests(&self, requests: usize) {
        if let Some(progress) = &self.progress {
            progress.at_requests(requests);
        }
    }

    fn at_undecided(&self, variables: usize) {
        self.notes.note_undecided(self.rt, variables);
    }

    fn at_attempt(&self, budget: u64, end: AttemptEnd) {
        if matches!(end, AttemptEnd::Left { .. }) {
            self.notes.note_round(self.rt);
        }
        if let Some(progress) = &self.progress {
            progress.at_attempt(budget, end);
        }
    }

    fn at_equal_cones(&self, same: usize, pairs: usize) {
        if let Some(progress) = &self.progress {
            progress.at_equal_cones(same, pairs);
        }
    }

    fn at_lone_variables(&self, count: usize, names: &[u8]) {
        if let Some(progress) = &self.progress {
            progress.at_lone_variables(count, names);
        }
    }

    fn at_patterns(&self, different: usize, pairs: usize, first: &[u8]) {
        if let Some(progress) = &self.progress {
            progress.at_patterns(different, pairs, first);
        }
    }

    fn at_merge(&self, round: MergeRound) {
        if let Some(progress) = &self.progress {
            progress.at_merge(round);
        }
    }
}
