//! Waves that a monitor stops.
ghost use Rattle.std.specs.Prelude.{None, true, ◌<◌, ◌≤◌};

use crate::bounds::product_of_sums;
use crate::waves::crew_of;
use dd_store::{Store, Watch};
use expand_work::{Monitor, WaveFault};
use req_table::ComputedTable;
use std::alloc::{AllocError, Global};
use std::process::Abort;
use std::sync::Wait;
use std::sync::atomic::{AtomicUsize, Ordering};
use std::test::Fail;
use std::thread::Threads;
use wave_engine::wave;

/// Stops a wave after it was asked `asks` times whether the run has stopped. Lets the caller's thread have
/// `caller_limit` requests of a level, and counts the requests that it is notified of, and how often it was asked.
#[derive(Drop)]
struct StopAfter {
    asks: usize,
    caller_limit: usize,
    asked: AtomicUsize,
    reported: AtomicUsize,
}

impl StopAfter {
    fn new(asks: usize, caller_limit: usize) -> StopAfter {
        StopAfter {
            asks,
            caller_limit,
            asked: AtomicUsize::new(0),
            reported: AtomicUsize::new(0),
        }
    }
}

impl Watch for StopAfter {
    fn at_shard(&self, _shard: u8, _level: u16) {}
}

impl Monitor for StopAfter {
    ghost bound = { λ _. record { requests = None; stops = true } };

    fn at_level(&self, _worker: u32, _level: u16) {}

    fn caller_level_limit(&self, _workers: u32, _expected: usize) -> usize {
        self.caller_limit
    }

    fn most_requests(&self) -> usize {
        usize::MAX
    }

    fn has_stopped(&self) -> bool {
        self.asked.fetch_add(1, Ordering::SeqCst) >= self.asks
    }

    fn at_requests(&self, requests: usize) {
        self.reported.fetch_add(requests, Ordering::SeqCst);
    }
}

/// The outcome of a wave that may be stopped.
#[derive(Drop)]
struct Seen {
    fault: Option<WaveFault>,
    asked: usize,
    reported: usize,
    /// How many nodes the wave has added.
    added: u64,
}

/// Does the wave of seven requests at three levels by `workers` workers, who are called in at a level with more
/// requests than `caller_limit`, with a monitor that stops it after it was asked `asks` times. Fails if memory is
/// refused.
fn stopped_after<R: Threads + Wait + Abort + Sync>(
    rt: &R,
    alloc: Global,
    workers: u32,
    asks: usize,
    caller_limit: usize,
) -> Result<Seen, Fail>
    requires workers { (0 < workers) × (workers ≤ 16) }
{
    let mut store = Store::new(alloc, 4, 100)?;
    let entries = product_of_sums(rt, alloc, &mut store);
    let monitor = StopAfter::new(asks, caller_limit);
    let before = store.count();
    let mut computed = ComputedTable::new(alloc, 1)?;
    let entries = entries.as_slice();
    let crew = crew_of(rt, alloc, workers, &monitor);
    let fault = wave(&crew, &mut store, &mut computed, entries).err();
    if fault == Some(WaveFault::OutOfMemory) {
        return Err(Fail::from(AllocError));
    }
    Ok(Seen {
        fault,
        asked: monitor.asked.load(Ordering::SeqCst),
        reported: monitor.reported.load(Ordering::SeqCst),
        added: store.count().saturating_sub(before),
    })
}

// The caller's thread asks before each of three levels.
#[test]
fn caller_is_stopped_before_a_level(rt: HostRuntime) -> Result<(), Fail> {
    for (asks, reported) in [(0, 0), (1, 1), (2, 3)] {
        let stopped = stopped_after(&rt, rt.alloc(), 1, asks, usize::MAX)?;
        assert!(rt; stopped.fault == Some(WaveFault::Stopped));
        assert!(rt; stopped.reported <= reported && stopped.added == 0);
    }
    let done = stopped_after(&rt, rt.alloc(), 1, 3, usize::MAX)?;
    assert!(rt; done.fault.is_none());
    assert!(rt; done.asked == 3 && done.reported == 7 && done.added > 0);
    Ok(())
}

// Whatever the number of workers, and whichever level they are called in at, a wave is done, or is stopped before a
// node was made.
#[test]
fn workers_are_stopped_before_a_level(rt: HostRuntime) -> Result<(), Fail> {
    for workers in [1, 2, 4, 16] {
        for caller_limit in [0, 1, 2] {
            let none = stopped_after(&rt, rt.alloc(), workers, 0, caller_limit)?;
            assert!(rt; none.fault == Some(WaveFault::Stopped));
            assert!(rt; none.reported == 0 && none.added == 0);
            for asks in 1..40 {
                let seen = stopped_after(&rt, rt.alloc(), workers, asks, caller_limit)?;
                let done = seen.fault.is_none();
                assert!(rt; done || seen.fault == Some(WaveFault::Stopped));
                assert!(rt; done == (seen.added > 0) && seen.reported <= 7);
            }
            let all = stopped_after(&rt, rt.alloc(), workers, usize::MAX, caller_limit)?;
            assert!(rt; all.fault.is_none() && all.reported == 7 && all.added > 0);
        }
    }
    Ok(())
}
