//! Waves of one engine, which calls workers in by the sizes of the waves before.
ghost use Rattle.std.specs.Prelude.{◌<◌, ◌≤◌};

use crate::waves::{crew_of, start};
use crate::wide::{pairs, products, sums};
use crate::widths::run_engine;
use dd_store::{Store, Watch};
use expand_work::{Monitor, NoMonitor};
use req_table::Op;
use std::alloc::Global;
use std::process::Abort;
use std::sync::Wait;
use std::sync::atomic::{AtomicBool, Ordering};
use std::test::Fail;
use std::thread::Threads;
use wave_engine::Engine;

/// Calls workers in as `NoMonitor` does, and notes whether any were.
#[derive(Drop)]
struct CallWatcher {
    called: AtomicBool,
}

impl Watch for CallWatcher {
    fn at_shard(&self, _shard: u8, _level: u16) {}
}

impl Monitor for CallWatcher {
    fn at_level(&self, _worker: u32, _level: u16) {
        self.called.store(true, Ordering::SeqCst);
    }

    fn caller_level_limit(&self, workers: u32, expected: usize) -> usize {
        NoMonitor.caller_level_limit(workers, expected)
    }

    fn most_requests(&self) -> usize {
        usize::MAX
    }
}

/// The place of the first sum: before the sums are the constants, 66 variables and 65 products.
const SUMS: usize = 133;

/// Each wave asks, at one level, for the difference of each two of some sums: of how many places after the first sum
/// they begin, how many there are, and whether four workers are called in. 92 sums have 4,186 differences, 140 have
/// 9,730, 223 have 24,753, 362 have 65,341 and 370 have 68,265. Each reaches two requests at least. So those of 223
/// reach over 49,152, and those of 370, with all waves before, over 262,144. 66 levels with 128 requests each have
/// 8,448.
const WAVES: [(u16, u16, bool); 9] = [
    (0, 362, false),
    (362, 140, false),
    (502, 370, true),
    (872, 140, true),
    (1012, 92, false),
    (1104, 92, false),
    (1196, 223, false),
    (1496, 140, true),
    (1636, 92, false),
];

/// Does the waves by an engine with `workers` workers, and compares whether any are called in.
fn call_in<R: Threads + Wait + Abort + Sync>(
    rt: &R,
    alloc: Global,
    workers: u32,
    waves: &[(u16, u16, bool)],
) -> Result<(), Fail>
    requires workers { (0 < workers) × (workers ≤ 16) }
{
    let monitor = CallWatcher {
        called: AtomicBool::new(false),
    };
    let crew = crew_of(rt, alloc, workers, &monitor);
    let mut engine = Engine::new(&crew)?;
    let mut store = Store::new(alloc, 66, 1_000_000)?;
    let mut known = start(rt, alloc, &mut store);
    let factors = products(rt, alloc, 66);
    let made = run_engine(rt, &mut engine, &mut store, &mut known, factors.as_slice());
    assert!(rt; made.is_ok());
    let terms = sums(rt, alloc);
    let made = run_engine(rt, &mut engine, &mut store, &mut known, terms.as_slice());
    assert!(rt; made.is_ok());
    for (offset, count, called) in waves {
        monitor.called.store(false, Ordering::SeqCst);
        let steps = pairs(rt, alloc, Op::Xor, SUMS + *offset as usize, *count);
        let made = run_engine(rt, &mut engine, &mut store, &mut known, steps.as_slice());
        assert!(rt; made.is_ok());
        let were_called = monitor.called.load(Ordering::SeqCst);
        assert!(rt; were_called == *called, "{offset} {count}");
    }
    Ok(())
}

// Four workers are called in at a level of more than 65,536 requests; and at one of more than 4,096 if the engine has
// done 262,144 requests, one of its last two waves had more than 49,152, and the levels from there on have 128 on
// average: 4,186 at one level never suffice here. Two workers are called in at the same levels, and a single one never.
#[test]
fn workers_after_large_waves(rt: HostRuntime) -> Result<(), Fail> {
    call_in(&rt, rt.alloc(), 4, &WAVES)?;
    for workers in [1, 2] {
        let called = workers > 1;
        call_in(
            &rt,
            rt.alloc(),
            workers,
            &[(0, 362, false), (362, 370, called), (732, 140, called)],
        )?;
    }
    Ok(())
}

// Two workers who share a level of 150,975 requests each have lists of more than 4,096 pairs for a shard, and there is
// memory for them.
#[test]
fn long_lists_for_a_shard(rt: HostRuntime) -> Result<(), Fail> {
    call_in(&rt, rt.alloc(), 2, &[(0, 550, true)])?;
    Ok(())
}
