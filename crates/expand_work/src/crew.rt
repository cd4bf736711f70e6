//! What does waves: a runtime, memory, a number of workers, a monitor.
ghost use Rattle.std.specs.Prelude.{◌≡◌, ◌≤◌, ◌⊎◌, ◌-◌, ◌^◌};

use crate::Monitor;
use std::alloc::Global;

/// The number of workers that a wave may call in, 1 to 16.
#[derive(Clone, Copy, Drop)]
pub struct Workers {
    count: u32,
    pub ghost some: { 1 ≤ count },
    pub ghost few: { count ≤ 16 },
}

impl Workers {
    /// Returns this number of workers.
    pub fn new(count: u32) -> Workers
        requires some { 1 ≤ count }
        requires few { count ≤ 16 }
        ensures { result.count ≡ count }
    {
        Workers { count }
    }

    /// Returns the number of workers.
    pub fn count(self) -> u32
        ensures value { result ≡ self.count }
        ensures some { 1 ≤ result }
        ensures few { result ≤ 16 }
    {
        self.count
    }
}

/// What does waves: the caller's thread, and workers in threads of their own.
#[derive(Drop)]
pub struct Crew<'a, R, G> {
    /// The runtime that starts the threads.
    pub rt: &'a R,
    pub alloc: Global,
    /// The number of workers, the caller's thread included, of a wave that calls them in.
    pub workers: Workers,
    /// Says from which width of a level on workers are called in, bounds waves, and is notified of what they do.
    pub monitor: &'a G,
}

impl<'a, R, G: Monitor> Crew<'a, R, G> {
    /// Returns the most requests that a level may have before the workers are called in, if `expected` requests are
    /// expected of the whole wave. A single worker gains nothing by being called in later, so for one worker it is 0
    /// (always) or the greatest number (never).
    pub fn caller_level_limit(&self, expected: usize) -> usize
        ensures one { self.now.workers.count ≡ 1 → (result ≡ 0) ⊎ (result ≡ 2 ^ 64 - 1) }
    {
        let workers = self.workers.count();
        let most = self.monitor.caller_level_limit(workers, expected);
        if workers == 1 && most > 0 {
            usize::MAX
        } else {
            most
        }
    }
}
