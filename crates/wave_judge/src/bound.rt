//! The bound of a window's waves.
ghost use Rattle.std.specs.Prelude.{◌*◌, Some};

use dd_store::Watch;
use expand_work::Monitor;

/// The number of requests that a window may have for each node that its diagrams may have.
const REQUESTS_PER_NODE: usize = 8;

/// The monitor of a judge's waves. It bounds the requests of each wave, leaves every wave to the caller's thread, and
/// stops a wave if the run has stopped.
#[derive(Drop)]
pub struct WindowBound<'a, G> {
    most: usize,
    monitor: &'a G,
}

impl<'a, G> WindowBound<'a, G> {
    /// Returns the bound of windows whose diagrams may have `nodes` nodes, in a run with this monitor.
    pub fn of(nodes: u32, monitor: &'a G) -> Self {
        WindowBound {
            most: REQUESTS_PER_NODE * nodes as usize,
            monitor,
        }
    }
}

/// Returns how many requests all waves of a window together may have, if its diagrams may have `nodes` nodes.
pub(crate) fn most_requests(nodes: u32) -> u64 {
    REQUESTS_PER_NODE as u64 * nodes as u64
}

impl<'a, G: Monitor> Watch for WindowBound<'a, G> {
    fn at_shard(&self, _shard: u8, _level: u16) {}
}

impl<'a, G: Monitor> Monitor for WindowBound<'a, G> {
    ghost bound = { λ b. record { requests = Some b.most; stops = (G.bound b.monitor.now).stops } };

    fn at_level(&self, _worker: u32, _level: u16) {}

    fn caller_level_limit(&self, _workers: u32, _expected: usize) -> usize {
        usize::MAX
    }

    fn most_requests(&self) -> usize {
        self.most
    }

    fn has_stopped(&self) -> bool {
        self.monitor.has_stopped()
    }
}
