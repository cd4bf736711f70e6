//! Meetings, by which a test finds out that threads are at one place at the same time.
use std::sync::atomic::{AtomicBool, AtomicU32, Ordering};
use std::thread;

/// How often a thread yields before it gives up waiting.
pub(crate) const MAX_YIELDS: u32 = 10_000_000;

/// Yields to other threads until the flag is set, at most `yields` times. Returns whether it is set.
pub(crate) fn wait_for(flag: &AtomicBool, yields: u32) -> bool {
    for _ in 0..yields {
        if flag.load(Ordering::SeqCst) {
            return true;
        }
        thread::yield_now();
    }
    flag.load(Ordering::SeqCst)
}

/// A place at which each thread waits until `wanted` threads are there at the same time.
#[derive(Drop)]
pub(crate) struct Meeting {
    wanted: u32,
    present: AtomicU32,
    met: AtomicBool,
    missed: AtomicBool,
}

impl Meeting {
    /// Returns a place at which `wanted` threads are to be at the same time.
    pub(crate) fn of(wanted: u32) -> Meeting {
        Meeting {
            wanted,
            present: AtomicU32::new(0),
            met: AtomicBool::new(false),
            missed: AtomicBool::new(false),
        }
    }

    /// Comes, waits until all have met or one thread has given up waiting, and leaves.
    pub(crate) fn come(&self) {
        let others = self.present.fetch_add(1, Ordering::SeqCst);
        if others.saturating_add(1) >= self.wanted {
            self.met.store(true, Ordering::SeqCst);
        }
        let missed = self.missed.load(Ordering::SeqCst);
        if !missed && !wait_for(&self.met, MAX_YIELDS) {
            self.missed.store(true, Ordering::SeqCst);
        }
        self.present.fetch_sub(1, Ordering::SeqCst);
    }

    /// Whether `wanted` threads were there at the same time.
    pub(crate) fn met(&self) -> bool {
        self.met.load(Ordering::SeqCst)
    }
}
