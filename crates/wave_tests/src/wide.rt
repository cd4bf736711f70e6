//! Levels with requests enough for several threads to share them.
ghost use Rattle.std.specs.Prelude.{◌<◌, ◌≤◌, All};
ghost use Rattle.reduce_up.specs.Waves.{IsEntry};

use crate::meeting::Meeting;
use crate::narrow::Narrow;
use crate::plans::{NamingModel, built, read};
use crate::waves::{How, Step, Way, crew_of, entries_of, run, start};
use dd_store::{Ref, Store, Watch};
use expand_work::{Monitor, WaveFault};
use net_names::order::{Match, Order};
use net_order::pairing::pair;
use req_table::{ComputedTable, Op};
use std::alloc::Global;
use std::process::Abort;
use std::sync::Wait;
use std::sync::atomic::{AtomicBool, AtomicU64, Ordering};
use std::test::Fail;
use std::thread::Threads;
use wave_engine::wave;

// The place of the first variable, which is a factor of all products. The constants are before it, and the products
// after all variables.
const FACTOR: usize = 2;

/// Returns the products of the first variable with each other one.
pub(crate) fn products<R: Abort>(rt: &R, alloc: Global, variables: u16) -> Vec<Step> {
    let mut steps = Vec::new(alloc);
    for other in 1..variables as usize {
        steps
            .push((Op::And, FACTOR, FACTOR + other))
            .expect(rt, "memory");
    }
    steps
}

/// Returns an operation on each two of `count` known references, from the place `first` on.
pub(crate) fn pairs<R: Abort>(rt: &R, alloc: Global, op: Op, first: usize, count: u16) -> Vec<Step>
    requires { first ≤ 100_000 }
{
    let mut steps = Vec::new(alloc);
    for one in 0..count as usize {
        for other in one + 1..count as usize {
            steps
                .push((op, first + one, first + other))
                .expect(rt, "memory");
        }
    }
    steps
}

/// Returns the sum of each two products of 66 variables. Each needs a node of the first level, and the sum of two
/// variables below it.
pub(crate) fn sums<R: Abort>(rt: &R, alloc: Global) -> Vec<Step> {
    pairs(rt, alloc, Op::Or, FACTOR + 66, 65)
}

/// Does the sums in a store that has the products and is allowed `limit` nodes, and compares how many it has
/// afterwards. If the wave has not failed, a second one, by a core, adds nothing and has the same answers.
fn sums_within<R: Threads + Wait + Abort + Sync>(
    rt: &R,
    alloc: Global,
    limit: u32,
    left: u64,
    way: Way,
) -> Result<(), WaveFault> {
    let mut store = Store::new(alloc, 66, limit as u64)?;
    let mut known = start(rt, alloc, &mut store);
    let factors = products(rt, alloc, 66);
    let how = How { workers: 3, way };
    run(rt, alloc, &mut store, &mut known, factors.as_slice(), how)?;
    assert!(rt; store.count() == 131);
    let steps = sums(rt, alloc);
    let summed = run(rt, alloc, &mut store, &mut known, steps.as_slice(), how);
    assert!(rt; store.count() == left);
    summed?;
    let core = How {
        workers: 2,
        way: Way::OneThread(&[1]),
    };
    run(rt, alloc, &mut store, &mut known, steps.as_slice(), core)?;
    assert!(rt; store.count() == 4_291 && known.len() == 4_293);
    assert!(rt; known.get(133..2_213) == known.get(2_213..));
    Ok(())
}

// There are 2,080 requests at the first level, with as many nodes there and below it: with 66 variables and 65 products
// 4,291 nodes are just enough. If one less is allowed, the caller's thread stops at the node that is too many; the
// threads that share the level in `wave_doors::reduce` make it, and fail when the level is done.
#[test]
fn wide_level(rt: HostRuntime) -> Result<(), Fail> {
    for (way, left) in [(Way::Upto(0), 4_290), (Way::OneThread(&[]), 4_291)] {
        sums_within(&rt, rt.alloc(), 4_291, 4_291, way)?;
        let refused = sums_within(&rt, rt.alloc(), 4_290, left, way);
        assert!(rt; refused == Err(WaveFault::Full));
    }
    Ok(())
}

/// The number of variables that have enough products.
const MANY: u16 = 76;

/// Returns three operations on each two products of many variables: 8,325 requests of the first level.
fn combinations<R: Abort>(rt: &R, alloc: Global) -> Vec<Step> {
    let mut steps = Vec::new(alloc);
    for op in [Op::Or, Op::And, Op::Xor] {
        let more = pairs(rt, alloc, op, FACTOR + MANY as usize, MANY - 1);
        steps
            .extend_from_slice(more.as_slice())
            .expect(rt, "memory");
    }
    steps
}

/// Makes the products, and returns the entries of the first `count` combinations of them.
fn combined<R: Threads + Wait + Abort + Sync>(
    rt: &R,
    alloc: Global,
    store: &mut Store,
    count: usize,
) -> Vec<(Op, Ref, Ref)>
    ensures { All (IsEntry store.new) result.items }
{
    let mut known = start(rt, alloc, store);
    let factors = products(rt, alloc, MANY);
    let how = How {
        workers: 2,
        way: Way::Upto(0),
    };
    let made = run(rt, alloc, store, &mut known, factors.as_slice(), how);
    assert!(rt; made.is_ok());
    let steps = combinations(rt, alloc);
    let steps = steps.get(..count).expect(rt, "fewer products");
    entries_of(rt, alloc, store, known.as_slice(), steps)
}

/// Does a wave of these entries by `workers` workers, with an empty computed table.
fn summed<R: Threads + Wait + Sync, G: Monitor>(
    rt: &R,
    alloc: Global,
    store: &mut Store,
    entries: &[(Op, Ref, Ref)],
    workers: u32,
    monitor: &G,
) -> Result<(), WaveFault>
    requires entries { All (IsEntry store.old) entries.now }
    requires workers { (0 < workers) × (workers ≤ 16) }
{
    let mut computed = ComputedTable::new(alloc, 1)?;
    let crew = crew_of(rt, alloc, workers, monitor);
    wave(&crew, store, &mut computed, entries)?;
    Ok(())
}

/// Counts how often a thread comes to each shard of the first level, in four bits for each, and notes whether one comes
/// to another level.
#[derive(Drop)]
struct Shards {
    counts: AtomicU64,
    elsewhere: AtomicBool,
}

impl Watch for Shards {
    fn at_shard(&self, shard: u8, level: u16) {
        if level == 0 && shard < 16 {
            self.counts.fetch_add(1 << (4 * shard), Ordering::SeqCst);
        } else {
            self.elsewhere.store(true, Ordering::SeqCst);
        }
    }
}

impl Monitor for Shards {
    fn at_level(&self, _worker: u32, _level: u16) {}

    fn most_requests(&self) -> usize {
        usize::MAX
    }
}

/// Returns these counts for a wave of `records` requests at one level, and whether a thread has come to another level.
fn reported_shards<R: Threads + Wait + Abort + Sync>(
    rt: &R,
    alloc: Global,
    records: usize,
    workers: u32,
) -> Result<(u64, bool), Fail>
    requires workers { (0 < workers) × (workers ≤ 16) }
{
    let mut store = Store::new(alloc, MANY, 20_000)?;
    let entries = combined(rt, alloc, &mut store, records);
    let monitor = Shards {
        counts: AtomicU64::new(0),
        elsewhere: AtomicBool::new(false),
    };
    summed(rt, alloc, &mut store, entries.as_slice(), workers, &monitor)?;
    Ok((
        monitor.counts.load(Ordering::SeqCst),
        monitor.elsewhere.load(Ordering::SeqCst),
    ))
}

// A level of 4,095 requests is left to the caller's thread; for one with 4,096 a thread comes to each shard once.
#[test]
fn shards_of_a_wide_level(rt: HostRuntime) -> Result<(), Fail> {
    let few = reported_shards(&rt, rt.alloc(), 4_095, 2)?;
    assert!(rt; few == (0, false));
    let many = reported_shards(&rt, rt.alloc(), 4_096, 2)?;
    assert!(rt; many == (0x1111_1111_1111_1111, false));
    let one_worker = reported_shards(&rt, rt.alloc(), 4_096, 1)?;
    assert!(rt; one_worker == (0, false));
    Ok(())
}

// The 8,325 requests need twice as many nodes besides those of the products. If one less is allowed, all nodes of the
// level are made before the wave fails.
#[test]
fn refused_when_a_shared_level_is_done(rt: HostRuntime) -> Result<(), Fail> {
    let mut store = Store::new(rt.alloc(), MANY, 16_800)?;
    let entries = combined(&rt, rt.alloc(), &mut store, 8_325);
    assert!(rt; store.count() == 151);
    let monitor = Narrow::new(0);
    let refused = summed(&rt, rt.alloc(), &mut store, entries.as_slice(), 3, &monitor);
    assert!(rt; refused == Err(WaveFault::Full));
    assert!(rt; store.count() == 16_801);
    Ok(())
}

/// Threads meet when they come to shards, and it is noted if there are ever more than `most`.
#[derive(Drop)]
struct AtShards {
    meeting: Meeting,
    most: u64,
    present: AtomicU64,
    too_many: AtomicBool,
}

impl AtShards {
    fn of(wanted: u32, most: u64) -> AtShards {
        AtShards {
            meeting: Meeting::of(wanted),
            most,
            present: AtomicU64::new(0),
            too_many: AtomicBool::new(false),
        }
    }
}

impl Watch for AtShards {
    fn at_shard(&self, _shard: u8, _level: u16) {
        if self.present.fetch_add(1, Ordering::SeqCst) >= self.most {
            self.too_many.store(true, Ordering::SeqCst);
        }
        self.meeting.come();
        self.present.fetch_sub(1, Ordering::SeqCst);
    }
}

impl Monitor for AtShards {
    fn at_level(&self, _worker: u32, _level: u16) {}

    fn most_requests(&self) -> usize {
        usize::MAX
    }
}

// As many threads as there are workers are in the shards of a level at the same time, and never more.
#[test]
fn workers_at_shards(rt: HostRuntime) -> Result<(), Fail> {
    for workers in [2, 4] {
        let mut store = Store::new(rt.alloc(), MANY, 20_000)?;
        let entries = combined(&rt, rt.alloc(), &mut store, 8_300);
        let monitor = AtShards::of(workers, workers as u64);
        summed(
            &rt,
            rt.alloc(),
            &mut store,
            entries.as_slice(),
            workers,
            &monitor,
        )?;
        assert!(rt; monitor.meeting.met());
        assert!(rt; !monitor.too_many.load(Ordering::SeqCst));
    }
    Ok(())
}

/// Returns a netlist of the sum of `count` products of two inputs, all first factors before all second ones.
fn sum_of_products(alloc: Global, count: usize) -> Result<String, Fail> {
    let mut text = String::new(alloc);
    for place in 0..count {
        text.push_str(&format!(in alloc; "INPUT(x{place})\n")?)?;
    }
    for place in 0..count {
        text.push_str(&format!(in alloc;
            "INPUT(y{place})\np{place} = AND(x{place}, y{place})\n"
        )?)?;
    }
    text.push_str("OUTPUT(o)\no = OR(p0")?;
    for place in 1..count {
        text.push_str(&format!(in alloc; ", p{place}")?)?;
    }
    text.push_str(")\n")?;
    Ok(text)
}

/// Builds a netlist, against itself, by two workers, and returns whether both were in the shards of one level at the
/// same time.
fn shares_a_level<R: Threads + Wait + Abort + Sync>(
    rt: &R,
    alloc: Global,
    text: &str,
) -> Result<bool, Fail> {
    let netlist = read(rt, alloc, text);
    let pairing = pair(
        alloc,
        &netlist,
        &netlist,
        None,
        Match::Name,
        &Order::Declared,
    )?;
    let both = NamingModel {
        first: &netlist,
        second: &netlist,
        pairing: &pairing,
    };
    let monitor = AtShards::of(2, 2);
    let crew = crew_of(rt, alloc, 2, &monitor);
    let mut store = Store::new(alloc, pairing.names().len() as u16, 100_000)?;
    let fault = built(&crew, &mut store, both).err();
    assert!(rt; fault.is_none());
    assert!(rt; !monitor.too_many.load(Ordering::SeqCst));
    Ok(monitor.meeting.met())
}

// The last step of the sum has 4,095 requests at the level of the last first factor if there are 13 products, and 8,191
// if there are 14: in the first build no level has 4,096 requests, from which on threads share it.
#[test]
fn shared_from_fourteen_products_on(rt: HostRuntime) -> Result<(), Fail> {
    let few = sum_of_products(rt.alloc(), 13)?;
    let is_shared = shares_a_level(&rt, rt.alloc(), few.as_str())?;
    assert!(rt; !is_shared);
    let many = sum_of_products(rt.alloc(), 14)?;
    let is_shared = shares_a_level(&rt, rt.alloc(), many.as_str())?;
    assert!(rt; is_shared);
    Ok(())
}
