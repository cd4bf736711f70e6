//! The monitor of one of several attempts that are made side by side.

ghost use Rattle.std.specs.Prelude.{true};

use dd_store::Watch;
use expand_work::Monitor;
use std::sync::atomic::{AtomicBool, Ordering};

/// A monitor that stops an attempt once an attempt at an earlier place has decided, as its own result is of no use
/// then. It leaves all levels to the attempt's thread, so no wave calls workers in.
#[derive(Drop)]
pub(crate) struct AheadMonitor<'a, G> {
    pub(crate) monitor: &'a G,
    /// For each place, whether the attempt there has decided.
    pub(crate) decided: &'a [AtomicBool],
    /// The place of this attempt among those that are made side by side.
    pub(crate) place: usize,
}

impl<'a, G: Monitor> AheadMonitor<'a, G> {
    /// Notes that the attempt at this place has decided, so that those at later places are stopped.
    pub(crate) fn note_decided(&self) {
        if self.place < self.decided.len() {
            self.decided[self.place].store(true, Ordering::SeqCst);
        }
    }
}

/// Whether one of the first `count` flags is set.
fn is_set_before(flags: &[AtomicBool], count: usize) -> bool {
    for flag in flags.iter().take(count) {
        if flag.load(Ordering::SeqCst) {
            return true;
        }
    }
    false
}

impl<'a, G: Monitor> Watch for AheadMonitor<'a, G> {
    fn at_shard(&self, shard: u8, level: u16) {
        self.monitor.at_shard(shard, level);
    }
}

impl<'a, G: Monitor> Monitor for AheadMonitor<'a, G> {
    ghost bound = { λ m. record { requests = (G.bound m.monitor.now).requests; stops = true } };

    fn at_level(&self, worker: u32, level: u16) {
        self.monitor.at_level(worker, level);
    }

    fn caller_level_limit(&self, _workers: u32, _expected: usize) -> usize {
        usize::MAX
    }

    fn most_requests(&self) -> usize {
        self.monitor.most_requests()
    }

    fn has_stopped(&self) -> bool {
        self.monitor.has_stopped() || is_set_before(self.decided, self.place)
    }

    fn at_rank(&self, rank: u32, ranks: u32, nodes: u64) {
        self.monitor.at_rank(rank, ranks, nodes);
    }

    fn at_requests(&self, requests: usize) {
        self.monitor.at_requests(requests);
    }
}
