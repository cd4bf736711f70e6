//! Waves that are expanded by threads: their records, how many loads were put, and workers that are
//! at one level at the same time.
ghost use Rattle.std.specs.Prelude.{◌≡◌, ◌<◌, All};
ghost use Rattle.reduce_up.specs.Waves.{IsEntry};
ghost use Rattle.req_table.specs.Keys.{IsKey};

use crate::meeting::{MAX_YIELDS, Meeting, wait_for};
use crate::requests::{REACHED, five_roots, request, store_of, store_of_six, variable};
use crate::waves::crew_of;
use dd_store::{Ref, Store, Watch};
use expand_work::{Monitor, NoMonitor};
use lane_queue::Port;
use req_table::requests::owner;
use req_table::{Child, ComputedTable, Key, Op, Record};
use std::alloc::Global;
use std::process::Abort;
use std::sync::atomic::{AtomicBool, Ordering};
use std::test::Fail;
use wave_doors::expand_all;
use wave_engine::wave;

/// Returns how many loads the ports have put together.
fn put_by(ports: &[Port]) -> u128 {
    let mut total: u128 = 0;
    for port in ports {
        total = total.saturating_add(port.put());
    }
    total
}

/// Whether there are `workers` ports, each at the place of its number.
fn are_numbered(ports: &[Port], workers: u32) -> bool {
    let mut place: u32 = 0;
    for port in ports {
        if port.number() != place {
            return false;
        }
        place = place.saturating_add(1);
    }
    place == workers
}

/// Whether the child is this answer.
fn is_answer(child: Child, wanted: Ref) -> bool {
    match child {
        Child::Done(answer) => answer == wanted,
        Child::Ask { .. } => false,
    }
}

/// Whether these are a single record, of this request, whose children are these answers.
fn is_record(records: &[Record], key: Key, low: Ref, high: Ref) -> bool {
    records.len() == 1
        && records[0].key == key
        && is_answer(records[0].low, low)
        && is_answer(records[0].high, high)
}

/// Returns the conjunction of the variables a and b twice, with the operands in either order.
fn both_ways(rt: &impl Abort, store: &Store) -> [Key; 2]
    requires { store.now.levels ≡ 2 }
    ensures { All (IsKey store.now) result }
{
    [
        request(rt, store, Op::And, 0, 1),
        request(rt, store, Op::And, 1, 0),
    ]
}

// Two roots of one key make one record. Its owner gets one of them and keeps its own, so there is 1 bundle, and there
// are 4 x 4 x 2 Ends.
#[test]
fn merged_roots(rt: HostRuntime) -> Result<(), Fail> {
    let store = store_of(&rt, rt.alloc(), 2);
    let roots = both_ways(&rt, &store);
    let [first, second] = roots;
    assert!(rt; first == second && owner(first, 4) == 1);
    let expanded = expand_all(&rt, rt.alloc(), &store, &roots, 4, &NoMonitor)?;
    let records = expanded.records();
    let b = variable(&rt, &store, 1);
    assert!(rt; is_record(records.level(0), first, Ref::FALSE, b) && records.level(1).is_empty());
    assert!(rt; are_numbered(expanded.ports(), 4) && put_by(expanded.ports()) == 33);
    Ok(())
}

/// Returns the conjunctions of the variables a and c, and of c and d, which different workers of two own.
fn two_roots(rt: &impl Abort, store: &Store) -> [Key; 2]
    requires { store.now.levels ≡ 4 }
    ensures { All (IsKey store.now) result }
{
    [
        request(rt, store, Op::And, 0, 2),
        request(rt, store, Op::And, 2, 3),
    ]
}

/// A monitor with which workers meet at level 0.
#[derive(Drop)]
struct AtFirst(Meeting);

impl Watch for AtFirst {
    fn at_shard(&self, _shard: u8, _level: u16) {}
}

impl Monitor for AtFirst {
    fn at_level(&self, _worker: u32, level: u16) {
        if level == 0 {
            self.0.come();
        }
    }

    fn most_requests(&self) -> usize {
        usize::MAX
    }
}

/// Returns the operations of the same two requests.
fn two_entries(rt: &impl Abort, store: &Store) -> [(Op, Ref, Ref); 2]
    requires { store.now.levels ≡ 4 }
    ensures { All (IsEntry store.now) result }
{
    let c = variable(rt, store, 2);
    [
        (Op::And, variable(rt, store, 0), c),
        (Op::And, c, variable(rt, store, 3)),
    ]
}

// Two workers are at one level at the same time, each keeps its root, and they put 2 x 2 x 4 Ends.
#[test]
fn two_at_a_level(rt: HostRuntime) -> Result<(), Fail> {
    let store = store_of(&rt, rt.alloc(), 4);
    let roots = two_roots(&rt, &store);
    let [first, last] = roots;
    assert!(rt; owner(first, 2) == 0 && owner(last, 2) == 1);
    let monitor = AtFirst(Meeting::of(2));
    let expanded = expand_all(&rt, rt.alloc(), &store, &roots, 2, &monitor)?;
    assert!(rt; monitor.0.met() && put_by(expanded.ports()) == 16);
    let records = expanded.records();
    let c = variable(&rt, &store, 2);
    let d = variable(&rt, &store, 3);
    assert!(rt; is_record(records.level(0), first, Ref::FALSE, c));
    assert!(rt; is_record(records.level(2), last, Ref::FALSE, d));
    Ok(())
}

// In a wave of the program, too, two workers are at one level at the same time.
#[test]
fn two_at_a_level_of_a_wave(rt: HostRuntime) -> Result<(), Fail> {
    let mut store = store_of(&rt, rt.alloc(), 4);
    let entries = two_entries(&rt, &store);
    let monitor = AtFirst(Meeting::of(2));
    let mut computed = ComputedTable::new(rt.alloc(), 2)?;
    let crew = crew_of(&rt, rt.alloc(), 2, &monitor);
    let answers = wave(&crew, &mut store, &mut computed, &entries)?;
    assert!(rt; monitor.0.met());
    let first = store.find(0, Ref::FALSE, entries[0].2);
    let last = store.find(2, Ref::FALSE, entries[1].2);
    assert!(rt; first.is_some() && first == answers.first().copied());
    assert!(rt; last.is_some() && last == answers.last().copied());
    Ok(())
}

/// Delays worker 1 at level 0, and notes whether a worker comes to a deeper level meanwhile.
#[derive(Drop)]
struct Holder {
    other: AtomicBool,
    further: AtomicBool,
    held: AtomicBool,
    early: AtomicBool,
}

impl Watch for Holder {
    fn at_shard(&self, _shard: u8, _level: u16) {}
}

impl Monitor for Holder {
    fn at_level(&self, worker: u32, level: u16) {
        if level > 0 {
            self.further.store(true, Ordering::SeqCst);
        } else if worker == 0 {
            self.other.store(true, Ordering::SeqCst);
        } else {
            let came = wait_for(&self.other, MAX_YIELDS);
            self.held.store(came, Ordering::SeqCst);
            let early = wait_for(&self.further, MAX_YIELDS / 50);
            self.early.store(early, Ordering::SeqCst);
        }
    }

    fn most_requests(&self) -> usize {
        usize::MAX
    }
}

// The monitor is notified of a level when it is closed; the next level is not closed before both workers have left this
// one.
#[test]
fn levels_are_reported_when_closed(rt: HostRuntime) -> Result<(), Fail> {
    let store = store_of(&rt, rt.alloc(), 4);
    let roots = two_roots(&rt, &store);
    let monitor = Holder {
        other: AtomicBool::new(false),
        further: AtomicBool::new(false),
        held: AtomicBool::new(false),
        early: AtomicBool::new(false),
    };
    let expanded = expand_all(&rt, rt.alloc(), &store, &roots, 2, &monitor)?;
    assert!(rt; put_by(expanded.ports()) == 16);
    assert!(rt; monitor.held.load(Ordering::SeqCst) && monitor.further.load(Ordering::SeqCst));
    assert!(rt; !monitor.early.load(Ordering::SeqCst));
    Ok(())
}

/// Returns the request `count` times.
fn copies(rt: &impl Abort, alloc: Global, store: &Store, key: Key, count: usize) -> Vec<Key>
    requires { IsKey store.now key }
    ensures { All (IsKey store.now) result.items }
{
    let _store = store.levels();
    let mut keys = Vec::new(alloc);
    for _ in 0..count {
        keys.push(key).expect(rt, "out of memory");
    }
    keys
}

// Worker 1 puts bundles of 64 and of 1, worker 0 keeps its 65, and there are 2 x 2 x 4 Ends.
#[test]
fn many_equal_roots(rt: HostRuntime) -> Result<(), Fail> {
    let store = store_of(&rt, rt.alloc(), 4);
    let key = request(&rt, &store, Op::And, 0, 2);
    let roots = copies(&rt, rt.alloc(), &store, key, 130);
    let expanded = expand_all(&rt, rt.alloc(), &store, roots.as_slice(), 2, &NoMonitor)?;
    assert!(rt; put_by(expanded.ports()) == 18);
    let c = variable(&rt, &store, 2);
    assert!(rt; is_record(expanded.records().level(0), key, Ref::FALSE, c));
    Ok(())
}

// In every schedule there are as many records, all Ends, and a bundle for each two different workers of whom one asks
// the other at a level: 3 for 2 workers, 4 for 3, and for 16 one for each of 5 roots and 2 children.
#[test]
fn any_schedule(rt: HostRuntime) -> Result<(), Fail> {
    let store = store_of_six(&rt, rt.alloc());
    let roots = five_roots(&rt, &store);
    for (workers, runs, put) in [(1, 1, 4), (2, 10, 19), (3, 10, 40), (16, 200, 1031)] {
        for _ in 0..runs {
            let expanded = expand_all(&rt, rt.alloc(), &store, &roots, workers, &NoMonitor)?;
            let records = expanded.records();
            for level in 0..4 {
                assert!(rt; records.level(level).len() == REACHED[level as usize]);
            }
            assert!(rt; are_numbered(expanded.ports(), workers) && put_by(expanded.ports()) == put);
        }
    }
    Ok(())
}
