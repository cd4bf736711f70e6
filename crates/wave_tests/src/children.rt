//! Packed children, and the children that the caller's thread places when it expands a level.
ghost use Rattle.std.specs.Prelude.{◌≡◌};
ghost use Rattle.req_table.specs.Keys.{IsKey};

use crate::requests::{either, make_either, request, request_for, store_of, variable};
use dd_store::{Ref, Store};
use expand_work::{ChildSink, Splits, expand_row};
use req_table::requests::child;
use req_table::{Key, Op, PackedChild, PlacedChild, Row, Table, Waiting};
use std::alloc::{AllocError, Global};
use std::process::Abort;
use std::test::Fail;

/// Returns a child in a form that can be compared: its answer, or its level, its number and whether it is the
/// complement.
pub fn placed_value(child: PackedChild) -> Result<Ref, (u16, u32, bool)> {
    match child.view() {
        PlacedChild::Done(answer) => Ok(answer),
        PlacedChild::Ask {
            level,
            number: owner,
            complement,
        } => Err((level, owner, complement)),
    }
}

/// Returns a store of the variables a, b, c at the levels 0, 1, 2 and the functions `a or b` and `a or c`.
pub fn row_store(rt: &impl Abort, alloc: Global) -> Store
    ensures { result.levels ≡ 3 }
{
    let mut store = store_of(rt, alloc, 3);
    make_either(rt, &mut store, 1);
    make_either(rt, &mut store, 2);
    store
}

/// Returns the request for the conjunction of `a or b` and `a or c`.
pub fn root_of(rt: &impl Abort, store: &Store) -> Key
    requires { store.now.levels ≡ 3 }
    ensures { IsKey store.now result }
{
    let first = either(rt, store, 1);
    let second = either(rt, store, 2);
    request_for(rt, store, Op::And, first, second)
}

/// Returns the children of one request, the requests that wait after it was expanded, and how many were split.
fn expand_single(
    alloc: Global,
    store: &Store,
    root: Key,
) -> Result<(Row, Waiting, usize), AllocError>
    requires { IsKey store.now root }
{
    let mut keys = Table::new(alloc);
    keys.admit(root)?;
    let mut waiting = Waiting::new(alloc);
    waiting.restart(alloc, store.levels())?;
    let mut row = Row::new(alloc);
    let mut splits = Splits::new();
    expand_row(store, &keys, &mut waiting, &mut row, &mut splits)?;
    Ok((row, waiting, splits.count()))
}

#[test]
fn a_child_that_the_caller_asks_for_has_a_place(rt: HostRuntime) -> Result<(), Fail> {
    let store = row_store(&rt, rt.alloc());
    let root = root_of(&rt, &store);
    let Ok((row, mut waiting, split)) = expand_single(rt.alloc(), &store, root) else {
        return Err(Fail::from("the request was not expanded"));
    };
    assert!(rt; waiting.levels() == store.levels() as usize);
    assert!(rt; split == 1 && row.len() == 1);
    let (low, high) = row.at(0);
    assert!(rt; placed_value(low) == Err((1, 0, false)) && placed_value(high) == Ok(Ref::TRUE));
    assert!(rt; waiting.count(1) == 1 && waiting.count(2) == 0);
    assert!(rt; waiting.keys(1).key_at(0) == request(&rt, &store, Op::And, 1, 2));
    let b = variable(&rt, &store, 1);
    let c = variable(&rt, &store, 2);
    let held = waiting
        .ask(&store, child(&store, Op::Nand, c, b))
        .expect(&rt, "out of memory");
    let fresh = waiting
        .ask(&store, child(&store, Op::Xor, b, c))
        .expect(&rt, "out of memory");
    assert!(rt;
        placed_value(held) == Err((1, 0, true)) && placed_value(fresh) == Err((1, 1, false))
    );
    assert!(rt; waiting.count(1) == 2 && waiting.count(2) == 0);
    Ok(())
}
