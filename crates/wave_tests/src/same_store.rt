//! Pseudo-random calls of `Store::make`, compared with an ordered map of the calls.
ghost use Rattle.std.specs.Prelude.{◌<◌, ◌^◌, All};
ghost use Rattle.dd_store.specs.Graph.{top};
ghost use Rattle.dd_store.specs.View.{Has};

use dd_store::{Ref, Store};
use std::collections::BTreeMap;
use std::process::Abort;
use std::test::Fail;

/// A level with two children.
type Made = (u16, Ref, Ref);

/// Returns the next number of a pseudo-random sequence.
fn next(x: u64) -> u64
    requires { x < 2 ^ 31 }
    ensures { result < 2 ^ 31 }
{
    (1_103_515_245 * x + 12_345) % 2_147_483_648
}

/// Returns the reference at a place, complemented for every other round through the list, or True if that is not below
/// the level.
fn below<R: Abort>(rt: &R, store: &Store, known: &[Ref], place: u64, level: u16) -> Ref
    requires known { All (Has store.now) known.now }
    requires level { level < store.now.levels }
    ensures here { Has store.now result }
    ensures below { level < top store.now.levels result }
{
    let count = known.len() as u64;
    assert!(rt; count > 0);
    let reference = known[(place % count) as usize].complement_if(place / count % 2 == 1);
    if store.top(reference) > level {
        reference
    } else {
        Ref::TRUE
    }
}

/// Notes an answer: equal calls have equal answers, and different ones different answers.
fn note<R: Abort>(
    rt: &R,
    answers: &mut BTreeMap<Made, Ref>,
    calls: &mut BTreeMap<Ref, Made>,
    call: Made,
    answer: Ref,
) -> Result<(), Fail> {
    let (level, lo, hi) = call;
    match answers.insert((level, lo, hi), answer)? {
        Some(earlier) => assert!(rt; earlier == answer),
        None => assert!(rt; calls.insert(answer, (level, lo, hi))?.is_none()),
    }
    Ok(())
}

#[test]
fn same_store(rt: HostRuntime) -> Result<(), Fail> {
    let mut store = Store::new(rt.alloc(), 8, 10_000)?;
    let mut known = Vec::new(rt.alloc());
    known.push(Ref::FALSE)?;
    known.push(Ref::TRUE)?;
    let mut answers = BTreeMap::new(rt.alloc());
    let mut calls = BTreeMap::new(rt.alloc());
    let mut x = 1;
    for _ in 0..5000 {
        x = next(x);
        let level = (x % 8) as u16;
        x = next(x);
        let lo = below(&rt, &store, known.as_slice(), x, level);
        x = next(x);
        let hi = below(&rt, &store, known.as_slice(), x, level);
        let answer = store.make(level, lo, hi).expect(&rt, "refused");
        known.push(answer)?;
        if lo == hi {
            assert!(rt; answer == lo);
        } else {
            note(&rt, &mut answers, &mut calls, (level, lo, hi), answer)?;
            let turned = store.find(level, lo.negate(), hi.negate());
            assert!(rt; turned == Some(answer.negate()));
        }
    }
    Ok(())
}
