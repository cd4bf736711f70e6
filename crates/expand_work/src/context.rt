//! What all workers of a wave share.
use crate::Monitor;
use dd_store::Store;
use lane_queue::Lanes;
use req_table::Key;
use std::alloc::Global;
use std::sync::atomic::{AtomicBool, AtomicU64, Ordering};

/// What the workers of a wave share: the lanes, the store, all roots, the flag that stops them, and the counter of
/// their requests with its bound.
#[derive(Clone, Copy)]
pub struct WaveContext<'a> {
    pub alloc: Global,
    pub lanes: &'a Lanes,
    pub store: &'a Store,
    pub roots: &'a [Key],
    pub stop: &'a AtomicBool,
    /// How many requests the workers have at all levels that they have closed. It stays 0 if there is no bound.
    pub found: &'a AtomicU64,
    /// The most requests that the workers may expand together, or the greatest number if there is no bound.
    pub most: u64,
    /// Whether the table of a level stays with it after the level was expanded.
    pub keeps: bool,
}

impl<'a> WaveContext<'a> {
    /// Adds the requests of a level that a worker has closed to the counter, and returns whether the worker may expand
    /// them, which is if the sum is within the bound. Each sum includes all earlier ones, so the workers together never
    /// expand more requests than the bound. No contract rests on the counter: what they have expanded is counted
    /// exactly after all threads have ended.
    pub(crate) fn admits(&self, more: usize) -> bool {
        if self.most == u64::MAX {
            return true;
        }
        let before = self.found.fetch_add(more as u64, Ordering::SeqCst);
        before.saturating_add(more as u64) <= self.most
    }

    /// Whether the worker has to stop: the flag is set, or the run has stopped. In the second case this sets the flag,
    /// because a worker that waits for others reads only the flag.
    pub(crate) fn is_stopped<G: Monitor>(&self, monitor: &G) -> bool {
        if monitor.has_stopped() {
            self.stop.store(true, Ordering::SeqCst);
        }
        self.stop.load(Ordering::SeqCst)
    }

    /// Whether the workers have found more requests than they may expand.
    pub(crate) fn is_past_bound(&self) -> bool {
        self.most < u64::MAX && self.found.load(Ordering::SeqCst) > self.most
    }
}
