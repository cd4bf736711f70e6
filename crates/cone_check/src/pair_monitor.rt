//! The monitor of the comparison of one pair's cones.

use dd_store::Watch;
use expand_work::{AttemptEnd, Monitor};

/// A monitor that passes on what happens within the attempts of a pair, but not how they end: that is reported once for
/// each round, with the number of pairs left. The methods that are not here are not called within an attempt.
#[derive(Drop)]
pub struct PairMonitor<'a, G> {
    pub monitor: &'a G,
}

impl<'a, G: Monitor> Watch for PairMonitor<'a, G> {
    fn at_shard(&self, shard: u8, level: u16) {
        self.monitor.at_shard(shard, level);
    }
}

impl<'a, G: Monitor> Monitor for PairMonitor<'a, G> {
    ghost bound = { λ m. G.bound m.monitor.now };

    fn at_level(&self, worker: u32, level: u16) {
        self.monitor.at_level(worker, level);
    }

    fn caller_level_limit(&self, workers: u32, expected: usize) -> usize {
        self.monitor.caller_level_limit(workers, expected)
    }

    fn most_requests(&self) -> usize {
        self.monitor.most_requests()
    }

    fn has_stopped(&self) -> bool {
        self.monitor.has_stopped()
    }

    fn at_rank(&self, rank: u32, ranks: u32, nodes: u64) {
        self.monitor.at_rank(rank, ranks, nodes);
    }

    fn at_requests(&self, requests: usize) {
        self.monitor.at_requests(requests);
    }

    fn at_attempt(&self, _budget: u64, _end: AttemptEnd) {}
}
