// Of rounds of merging: what the second begins with, that the counts of both are added, and that workers change nothing.
use crate::merging::{Adder, levels_of, multiplier};
use expand_work::NoMonitor;
use net_bench::netlist::{Netlist, Signal};
use net_bench::reader::parse_bench;
use net_merge::{Learned, LevelledNetlist, MergeTask, MergedNetlists, merge_netlists};
use std::alloc::Global;
use std::sync::Wait;
use std::test::Fail;
use std::thread::Threads;

/// How many nodes the diagrams of a window may have in each round.
const BUDGETS: [u32; 2] = [4_000, 32_000];

/// How many workers judge what one worker judges as well.
const WORKERS: [u32; 3] = [2, 3, 16];

/// One round of both netlists, whose outputs are wanted equal, by so many workers.
fn round<R: Threads + Wait + Sync>(
    rt: &R,
    alloc: Global,
    nets: (&Netlist, &Netlist),
    nodes: u32,
    learned: &mut Learned,
    workers: u32,
) -> Result<MergedNetlists, Fail> {
    let first_levels = levels_of(alloc, nets.0)?;
    let second_levels = levels_of(alloc, nets.1)?;
    let mut wanted: Vec<(Signal, Signal)> = Vec::new(alloc);
    for pair in nets.0.outputs().iter().zip(nets.1.outputs()) {
        wanted.push((*pair.0, *pair.1))?;
    }
    let task = MergeTask {
        first: LevelledNetlist {
            net: nets.0,
            levels: first_levels.as_slice(),
        },
        second: LevelledNetlist {
            net: nets.1,
            levels: second_levels.as_slice(),
        },
        wanted: wanted.as_slice(),
        workers,
    };
    let merged = merge_netlists(rt, alloc, &task, nodes, learned, &NoMonitor)?;
    Ok(merged)
}

// The carry of the last adder is wrong, which is only the last output: each round finds all others equal, and none
// finds this one so.
#[test]
fn two_rounds(rt: HostRuntime) -> Result<(), Fail> {
    let alloc = rt.alloc();
    let right = multiplier(alloc, Adder::Xors, Adder::Xors)?;
    let wrong = multiplier(alloc, Adder::Nands, Adder::Wrong)?;
    let first = parse_bench(alloc, right.as_str().as_bytes())?;
    let second = parse_bench(alloc, wrong.as_str().as_bytes())?;
    let mut learned = Learned::new(alloc);
    for nodes in BUDGETS {
        let (merged, windows) = (learned.merged(), learned.windows());
        let found = round(&rt, alloc, (&first, &second), nodes, &mut learned, 1)?;
        let equal = found.equal();
        assert!(rt; equal.len() == 8 && equal.iter().filter(|one| **one).count() == 7);
        let counts = found.counts();
        assert!(rt; counts.merged > 0 && learned.merged() == merged.wrapping_add(counts.merged));
        assert!(rt; learned.windows() == windows.wrapping_add(counts.windows));
        let last = found.into_equal();
        assert!(rt; last.as_slice().last() == Some(&false));
    }
    Ok(())
}

// What is merged, and what is found, does not depend on the number of workers.
#[test]
fn by_workers(rt: HostRuntime) -> Result<(), Fail> {
    let alloc = rt.alloc();
    let right = multiplier(alloc, Adder::Xors, Adder::Xors)?;
    let wrong = multiplier(alloc, Adder::Nands, Adder::Wrong)?;
    let first = parse_bench(alloc, right.as_str().as_bytes())?;
    let second = parse_bench(alloc, wrong.as_str().as_bytes())?;
    let nets = (&first, &second);
    let mut learned = Learned::new(alloc);
    let alone = round(&rt, alloc, nets, 4_000, &mut learned, 1)?;
    for workers in WORKERS {
        let mut learned = Learned::new(alloc);
        let shared = round(&rt, alloc, nets, 4_000, &mut learned, workers)?;
        assert!(rt; shared.counts() == alone.counts() && shared.equal() == alone.equal());
        assert!(rt; shared.graph().as_slice() == alone.graph().as_slice());
        for signal in 0..first.count() {
            let signal = Signal::of(signal as u32);
            assert!(rt; shared.first(signal) == alone.first(signal));
        }
        for signal in 0..second.count() {
            let signal = Signal::of(signal as u32);
            assert!(rt; shared.second(signal) == alone.second(signal));
        }
    }
    Ok(())
}
