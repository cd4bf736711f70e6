//! Waves with a bound on their requests.
ghost use Rattle.std.specs.Prelude.{Some, false, ◌<◌, ◌≤◌, All};
ghost use Rattle.reduce_up.specs.Waves.{IsEntry};

use crate::plans::{NamingModel, built, read};
use crate::waves::{How, Way, crew_of, entries_of, run, start};
use dd_store::{Ref, Store, Watch};
use expand_work::{Monitor, WaveFault};
use net_names::order::{Match, Order};
use net_order::pairing::pair;
use req_table::{ComputedTable, Op};
use std::alloc::{AllocError, Global};
use std::process::Abort;
use std::sync::Wait;
use std::sync::atomic::{AtomicUsize, Ordering};
use std::test::Fail;
use std::thread::Threads;
use wave_engine::{Engine, wave};

/// Bounds a wave by `most` requests, lets the caller's thread have `caller_limit` requests of a level, and counts the
/// requests that it is notified of, and how often a worker comes to a level.
#[derive(Drop)]
struct Bound {
    most: usize,
    caller_limit: usize,
    reported: AtomicUsize,
    workers: AtomicUsize,
}

impl Watch for Bound {
    fn at_shard(&self, _shard: u8, _level: u16) {}
}

impl Monitor for Bound {
    ghost bound = { λ b. record { requests = Some b.most; stops = false } };

    fn at_level(&self, _worker: u32, _level: u16) {
        self.workers.fetch_add(1, Ordering::SeqCst);
    }

    fn caller_level_limit(&self, _workers: u32, _expected: usize) -> usize {
        self.caller_limit
    }

    fn most_requests(&self) -> usize {
        self.most
    }

    fn at_requests(&self, requests: usize) {
        self.reported.fetch_add(requests, Ordering::SeqCst);
    }
}

/// The outcome of a wave with a bound.
#[derive(Drop)]
struct Seen {
    fault: Option<WaveFault>,
    reported: usize,
    workers: usize,
    /// How many nodes the wave has added.
    added: u64,
}

/// Makes the sums of two variables each, and returns the entry for And of both sums, which has one request at the first
/// level, two at the second and four at the third.
pub(crate) fn product_of_sums<R: Threads + Wait + Abort + Sync>(
    rt: &R,
    alloc: Global,
    store: &mut Store,
) -> Vec<(Op, Ref, Ref)>
    ensures { All (IsEntry store.new) result.items }
{
    let mut known = start(rt, alloc, store);
    let sums = [(Op::Xor, 2, 4), (Op::Xor, 3, 5)];
    let how = How {
        workers: 1,
        way: Way::Threads,
    };
    run(rt, alloc, store, &mut known, &sums, how).expect(rt, "out of memory");
    let steps = [(Op::And, 6, 7)];
    entries_of(rt, alloc, store, known.as_slice(), &steps)
}

/// Does this wave by `workers` workers, who are called in at a level with more requests than `caller_limit`. Fails if
/// memory is refused.
fn within<R: Threads + Wait + Abort + Sync>(
    rt: &R,
    alloc: Global,
    workers: u32,
    most: usize,
    caller_limit: usize,
) -> Result<Seen, Fail>
    requires workers { (0 < workers) × (workers ≤ 16) }
{
    let mut store = Store::new(alloc, 4, 100)?;
    let entries = product_of_sums(rt, alloc, &mut store);
    let monitor = Bound {
        most,
        caller_limit,
        reported: AtomicUsize::new(0),
        workers: AtomicUsize::new(0),
    };
    let before = store.count();
    let mut computed = ComputedTable::new(alloc, 1)?;
    let entries = entries.as_slice();
    let crew = crew_of(rt, alloc, workers, &monitor);
    let fault = wave(&crew, &mut store, &mut computed, entries).err();
    if fault == Some(WaveFault::OutOfMemory) {
        return Err(Fail::from(AllocError));
    }
    Ok(Seen {
        fault,
        reported: monitor.reported.load(Ordering::SeqCst),
        workers: monitor.workers.load(Ordering::SeqCst),
        added: store.count().saturating_sub(before),
    })
}

/// Whether a wave was done, and each of its seven requests expanded once.
fn is_done(seen: &Seen) -> bool {
    seen.fault.is_none() && seen.reported == 7 && seen.added > 0
}

/// Whether a wave has failed because of its requests before a node was made, and no more requests than the bound were
/// expanded.
fn is_refused(seen: &Seen, most: usize) -> bool {
    seen.fault == Some(WaveFault::TooManyRequests) && seen.reported <= most && seen.added == 0
}

// A wave of seven requests is done within a bound of seven, and fails within a lower one, by any number of workers,
// whichever level they are called in at.
#[test]
fn bound_of_a_wave(rt: HostRuntime) -> Result<(), Fail> {
    for workers in 1..17 {
        for caller_limit in [0, 1, 2, 4] {
            let done = within(&rt, rt.alloc(), workers, 7, caller_limit)?;
            assert!(rt; is_done(&done));
            assert!(rt;
                (done.workers > 0) == (caller_limit == 0 || (caller_limit < 4 && workers > 1))
            );
            for most in [0, 1, 2, 3, 6] {
                let refused = within(&rt, rt.alloc(), workers, most, caller_limit)?;
                assert!(rt; is_refused(&refused, most));
            }
        }
    }
    Ok(())
}

/// Does this wave two hundred times within exactly its bound and within one less, by `least` workers and by each of the
/// three next numbers.
fn two_hundred_rounds<R: Threads + Wait + Abort + Sync>(
    rt: &R,
    alloc: Global,
    least: u32,
) -> Result<(), Fail>
    requires workers { (0 < least) × (least ≤ 13) }
{
    for round in 0..200 {
        for more in 0..4 {
            let caller_limit = round % 3;
            let done = within(rt, alloc, least + more, 7, caller_limit)?;
            assert!(rt; is_done(&done));
            let refused = within(rt, alloc, least + more, 6, caller_limit)?;
            assert!(rt; is_refused(&refused, 6));
        }
    }
    Ok(())
}

// In every schedule, a wave of exactly as many requests as its bound is done, and a wave of one more fails.
#[test]
fn bound_by_up_to_four(rt: HostRuntime) -> Result<(), Fail> {
    two_hundred_rounds(&rt, rt.alloc(), 1)
}

#[test]
fn bound_by_up_to_eight(rt: HostRuntime) -> Result<(), Fail> {
    two_hundred_rounds(&rt, rt.alloc(), 5)
}

#[test]
fn bound_by_up_to_twelve(rt: HostRuntime) -> Result<(), Fail> {
    two_hundred_rounds(&rt, rt.alloc(), 9)
}

#[test]
fn bound_by_up_to_sixteen(rt: HostRuntime) -> Result<(), Fail> {
    two_hundred_rounds(&rt, rt.alloc(), 13)
}

// With a bound a thread that cannot be started changes no result: tests/growths.py refuses each start in turn, and each
// growth.
#[test]
fn bound_without_a_thread(rt: HostRuntime) -> Result<(), Fail> {
    let done = within(&rt, rt.alloc(), 4, 7, 0)?;
    assert!(rt; done.fault.is_none() && done.added > 0);
    let refused = within(&rt, rt.alloc(), 4, 6, 0)?;
    assert!(rt; is_refused(&refused, 6));
    Ok(())
}

// Whoever expands them, the monitor is notified of each of seven requests once: workers from the first, the second or
// the third level that has any, or only the caller's thread. A single worker is called in for a whole wave or never.
#[test]
fn each_request_is_reported_once(rt: HostRuntime) -> Result<(), Fail> {
    for workers in [1, 2, 4] {
        for (caller_limit, called) in [(0, true), (1, true), (2, true), (4, false)] {
            let done = within(&rt, rt.alloc(), workers, usize::MAX, caller_limit)?;
            assert!(rt; done.fault.is_none());
            assert!(rt; done.reported == 7);
            let called = called && (workers > 1 || caller_limit == 0);
            assert!(rt; (done.workers > 0) == called);
        }
    }
    Ok(())
}

/// Returns how many requests of this wave the caller's thread reduces if four workers are called in at a level with
/// more than `caller_limit`. All seven are expanded.
fn reduced_by_caller<R: Threads + Wait + Abort + Sync>(
    rt: &R,
    alloc: Global,
    caller_limit: usize,
) -> Result<u64, Fail> {
    let mut store = Store::new(alloc, 4, 100)?;
    let entries = product_of_sums(rt, alloc, &mut store);
    let monitor = Bound {
        most: usize::MAX,
        caller_limit,
        reported: AtomicUsize::new(0),
        workers: AtomicUsize::new(0),
    };
    let crew = crew_of(rt, alloc, 4, &monitor);
    let mut engine = Engine::new(&crew)?;
    assert!(rt; engine.wave(&mut store, entries.as_slice()).is_ok());
    assert!(rt; engine.expanded() == 7);
    Ok(engine.reduced())
}

// The caller's thread reduces each of seven requests once if no worker is called in, and otherwise those of the levels
// before.
#[test]
fn each_request_is_reduced_once(rt: HostRuntime) -> Result<(), Fail> {
    for (caller_limit, reduced) in [(4, 7), (2, 3), (1, 1), (0, 0)] {
        let found = reduced_by_caller(&rt, rt.alloc(), caller_limit)?;
        assert!(rt; found == reduced);
    }
    Ok(())
}

/// The gates p and q have the same conjunction, q two ranks after p, since m is x again. In the rank of q there is also
/// r.
static TWICE: &str =
    "INPUT(x)\nINPUT(y)\nOUTPUT(p)\nOUTPUT(q)\nOUTPUT(r)\nn = NOT(x)\nm = NOT(n)\np = AND(x, y)\nq = AND(m, y)\nr = XOR(m, y)\n";

/// Returns the fault of a build of this netlist, against itself, whose waves have at most `most` requests.
fn build_within<R: Threads + Wait + Abort + Sync>(
    rt: &R,
    alloc: Global,
    most: usize,
) -> Result<Option<WaveFault>, Fail> {
    let netlist = read(rt, alloc, TWICE);
    let pairing = pair(
        alloc,
        &netlist,
        &netlist,
        None,
        Match::Name,
        &Order::Declared,
    )?;
    let both = NamingModel {
        first: &netlist,
        second: &netlist,
        pairing: &pairing,
    };
    let monitor = Bound {
        most,
        caller_limit: usize::MAX,
        reported: AtomicUsize::new(0),
        workers: AtomicUsize::new(0),
    };
    let crew = crew_of(rt, alloc, 1, &monitor);
    let mut store = Store::new(alloc, pairing.names().len() as u16, 100)?;
    Ok(built(&crew, &mut store, both).err())
}

// The last rank reaches two requests, and the first rank has left the answer of one of them.
#[test]
fn build_counts_what_is_held(rt: HostRuntime) -> Result<(), Fail> {
    let refused = build_within(&rt, rt.alloc(), 1)?;
    assert!(rt; refused == Some(WaveFault::TooManyRequests));
    assert!(rt; build_within(&rt, rt.alloc(), 2)?.is_none());
    Ok(())
}
