//! What a failed wave leaves.
ghost use Rattle.std.specs.Prelude.{All, IfOk};
ghost use Rattle.dd_store.specs.View.{Has};
ghost use Rattle.req_table.specs.Keys.{IsKey};
ghost use Rattle.reduce_up.specs.Waves.{IsClosureOf};

use crate::reduced::only;
use crate::waves::{A, B, C, D, How, WAYS, Way, known_at, node, request, run, start};
use counter_walk::value;
use dd_store::{Ref, Store};
use expand_work::{NoMonitor, WaveFault};
use req_table::{Key, Op, Record};
use std::alloc::Global;
use std::process::Abort;
use std::sync::Wait;
use std::test::Fail;
use std::thread::Threads;
use wave_core::{Core, Records};
use wave_doors::law::closures_are_records;
use wave_doors::{expand_all, reduce};

/// The place of the first answer of a wave over three variables.
const FIRST_ANSWER: usize = 5;

/// Checks that the variables of a store of two levels have their values.
fn two_have_their_values<R: Abort>(rt: &R, store: &Store, a: Ref, b: Ref)
    requires first { Has store.now a }
    requires second { Has store.now b }
{
    assert!(rt; store.levels() == 2);
    for (of_a, of_b) in [(false, false), (false, true), (true, false), (true, true)] {
        assert!(rt; value(store, a, &[of_a, of_b]) == of_a);
        assert!(rt; value(store, b, &[of_a, of_b]) == of_b);
    }
}

/// Two variables leave room for one node in a store, and a wave that needs two more fails.
fn full_store_keeps_its_nodes<R: Abort + Threads + Wait + Sync>(
    rt: &R,
    alloc: Global,
    way: Way,
) -> Result<(), Fail> {
    let steps = [(Op::And, A, B), (Op::Or, A, B)];
    let mut store = Store::new(alloc, 2, 3)?;
    let mut known = start(rt, alloc, &mut store);
    let a = known_at(rt, &store, known.as_slice(), A);
    let b = known_at(rt, &store, known.as_slice(), B);
    let how = How { workers: 2, way };
    let answer = run(rt, alloc, &mut store, &mut known, &steps, how);
    assert!(rt; answer == Err(WaveFault::Full) && store.levels() == 2);
    assert!(rt; store.variable(0) == Ok(a));
    two_have_their_values(rt, &store, a, b);
    Ok(())
}

#[test]
fn refused_wave_keeps_old_nodes(rt: HostRuntime) -> Result<(), Fail> {
    for way in WAYS {
        full_store_keeps_its_nodes(&rt, rt.alloc(), way)?;
    }
    Ok(())
}

/// The assignments of three variables.
const ASSIGNMENTS: [[bool; 3]; 8] = [
    [false, false, false],
    [false, false, true],
    [false, true, false],
    [false, true, true],
    [true, false, false],
    [true, false, true],
    [true, true, false],
    [true, true, true],
];

/// Checks that the variables of a store of three levels have their values.
fn three_have_their_values<R: Abort>(rt: &R, store: &Store, known: &[Ref])
    requires known { All (Has store.now) known.now }
{
    assert!(rt; store.levels() == 3);
    for bits in ASSIGNMENTS {
        let [of_a, of_b, of_c] = bits;
        assert!(rt; value(store, known_at(rt, store, known, A), &bits) == of_a);
        assert!(rt; value(store, known_at(rt, store, known, B), &bits) == of_b);
        assert!(rt; value(store, known_at(rt, store, known, C), &bits) == of_c);
    }
}

/// Checks the answers of a wave: the product of a and b, the sum of b and c, and the difference of a and c.
fn answers_are_right<R: Abort>(rt: &R, store: &Store, known: &[Ref])
    requires known { All (Has store.now) known.now }
{
    assert!(rt; store.levels() == 3);
    let product = known_at(rt, store, known, FIRST_ANSWER);
    let sum = known_at(rt, store, known, FIRST_ANSWER + 1);
    let difference = known_at(rt, store, known, FIRST_ANSWER + 2);
    for bits in ASSIGNMENTS {
        let [of_a, of_b, of_c] = bits;
        assert!(rt; value(store, product, &bits) == (of_a && of_b));
        assert!(rt; value(store, sum, &bits) == (of_b || of_c));
        assert!(rt; value(store, difference, &bits) == (of_a != of_c));
    }
}

/// Does a wave of three steps, and does it again if memory or a thread was refused.
fn again_if_refused<R: Abort + Threads + Wait + Sync>(
    rt: &R,
    alloc: Global,
    way: Way,
) -> Result<(), Fail> {
    let steps = [(Op::And, A, B), (Op::Or, B, C), (Op::Xor, A, C)];
    let mut store = Store::new(alloc, 3, 100)?;
    let mut known = start(rt, alloc, &mut store);
    let how = How { workers: 2, way };
    if run(rt, alloc, &mut store, &mut known, &steps, how).is_err() {
        three_have_their_values(rt, &store, known.as_slice());
        run(rt, alloc, &mut store, &mut known, &steps, how)?;
    }
    three_have_their_values(rt, &store, known.as_slice());
    answers_are_right(rt, &store, known.as_slice());
    Ok(())
}

// With ample memory no wave fails. If growths and starts are refused to this test, it shows what a failure leaves.
#[test]
fn refused_wave(rt: HostRuntime) -> Result<(), Fail> {
    for way in [Way::OneThread(&[]), Way::Threads, Way::Upto(0)] {
        again_if_refused(&rt, rt.alloc(), way)?;
    }
    Ok(())
}

/// Whether these are a single record, of this request.
fn is_of(records: &[Record], key: Key) -> bool {
    records.len() == 1 && records[0].key == key
}

// Two threads have a root each, and make one record each.
#[test]
fn refused_expansion(rt: HostRuntime) -> Result<(), Fail> {
    let mut store = Store::new(rt.alloc(), 4, 100)?;
    let known = start(&rt, rt.alloc(), &mut store);
    let roots = [
        request(&rt, &store, known.as_slice(), (Op::And, A, C)),
        request(&rt, &store, known.as_slice(), (Op::And, C, D)),
    ];
    let expanded = expand_all(&rt, rt.alloc(), &store, &roots, 2, &NoMonitor)?;
    let records = expanded.records();
    assert!(rt; records.levels() == 4);
    let [first, last] = roots;
    assert!(rt; is_of(records.level(0), first));
    assert!(rt; is_of(records.level(2), last));
    Ok(())
}

/// Returns the records of all that the roots ask for, by a core of two workers.
fn recorded(alloc: Global, store: &Store, roots: &[Key]) -> Result<Records, Fail>
    requires { All (IsKey store.now) roots.now }
    ensures { IfOk result (IsClosureOf store.now 2 roots.now) }
{
    let mut core = Core::new(alloc, store, 2, roots)?;
    core.drive(&[])?;
    Ok(core.into_records()?)
}

// Two roots are one request. A reduction that fails leaves the variables as they were.
#[test]
fn refused_reduction(rt: HostRuntime) -> Result<(), Fail> {
    let mut store = Store::new(rt.alloc(), 2, 100)?;
    let known = start(&rt, rt.alloc(), &mut store);
    let a = known_at(&rt, &store, known.as_slice(), A);
    let b = known_at(&rt, &store, known.as_slice(), B);
    let roots = [
        request(&rt, &store, known.as_slice(), (Op::And, A, B)),
        request(&rt, &store, known.as_slice(), (Op::And, B, A)),
    ];
    let records = recorded(rt.alloc(), &store, &roots)?;
    closures_are_records(&store, &roots, &records); // For the proof.
    let reduced = reduce(&rt, rt.alloc(), &mut store, &records, &NoMonitor);
    two_have_their_values(&rt, &store, a, b);
    let results = reduced?;
    let both = node(&rt, &store, 0, Ref::FALSE, b);
    assert!(rt; only(&rt, &records, &results, 0, roots[0]) == both);
    Ok(())
}
