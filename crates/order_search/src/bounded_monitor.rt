//! The monitor of one attempt.
ghost use Rattle.std.specs.Prelude.{min, Some};
ghost use Rattle.expand_work.specs.Bounds.{most_of};

use dd_store::Watch;
use expand_work::Monitor;
use std::sync::atomic::{AtomicU32, Ordering};

/// A wave of an attempt calls workers in only if at least this number of requests is expected of it. The caller's
/// thread does a smaller one by itself: an attempt has hundreds of them, and to start threads for each takes longer
/// than they save (docs/decisions/waves-and-workers.md). If the monitor leaves the caller's thread no level, each wave
/// has its workers.
const SHARED_FROM: usize = 1 << 17;

/// The caller's monitor, with a bound on the requests of a wave besides its own. It also keeps the last rank of which
/// it was notified, which says how far an attempt came that is given up.
#[derive(Drop)]
pub(crate) struct BoundedMonitor<'a, G> {
    pub(crate) monitor: &'a G,
    /// The most requests of a wave.
    pub(crate) most: usize,
    /// The last rank whose build has begun.
    pub(crate) reached: &'a AtomicU32,
}

impl<'a, G: Monitor> Watch for BoundedMonitor<'a, G> {
    fn at_shard(&self, shard: u8, level: u16) {
        self.monitor.at_shard(shard, level);
    }
}

impl<'a, G: Monitor> Monitor for BoundedMonitor<'a, G> {
    ghost bound = { λ b. record {
      requests = Some (min b.most (most_of (G.bound b.monitor.now).requests));
      stops = (G.bound b.monitor.now).stops;
    } };

    fn at_level(&self, worker: u32, level: u16) {
        self.monitor.at_level(worker, level);
    }

    fn caller_level_limit(&self, workers: u32, expected: usize) -> usize {
        let most = self.monitor.caller_level_limit(workers, expected);
        if most > 0 && expected < SHARED_FROM {
            usize::MAX
        } else {
            most
        }
    }

    fn most_requests(&self) -> usize {
        self.most.min(self.monitor.most_requests())
    }

    fn has_stopped(&self) -> bool {
        self.monitor.has_stopped()
    }

    fn at_rank(&self, rank: u32, ranks: u32, nodes: u64) {
        self.reached.store(rank, Ordering::SeqCst);
        self.monitor.at_rank(rank, ranks, nodes);
    }

    fn at_requests(&self, requests: usize) {
        self.monitor.at_requests(requests);
    }
}
