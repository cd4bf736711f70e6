//! A monitor that sets from how many requests of a level on workers are called in.
use dd_store::Watch;
use expand_work::Monitor;
use std::sync::atomic::{AtomicU32, AtomicUsize, Ordering};

/// Lets the caller's thread have `most` requests of a level, and counts how often a worker comes to a level.
#[derive(Drop)]
pub(crate) struct Narrow {
    pub(crate) most: AtomicUsize,
    pub(crate) reported: AtomicU32,
}

impl Narrow {
    /// Returns a monitor that leaves levels of at most `most` requests to the caller's thread.
    pub(crate) fn new(most: usize) -> Narrow {
        Narrow {
            most: AtomicUsize::new(most),
            reported: AtomicU32::new(0),
        }
    }
}

impl Watch for Narrow {
    fn at_shard(&self, _shard: u8, _level: u16) {}
}

impl Monitor for Narrow {
    fn at_level(&self, _worker: u32, _level: u16) {
        self.reported.fetch_add(1, Ordering::SeqCst);
    }

    fn caller_level_limit(&self, _workers: u32, _expected: usize) -> usize {
        self.most.load(Ordering::SeqCst)
    }

    fn most_requests(&self) -> usize {
        usize::MAX
    }
}
