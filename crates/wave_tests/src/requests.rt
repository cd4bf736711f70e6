//! Requests and their owners, the table of requests, and the computed table.
ghost use Rattle.std.specs.Prelude.{◌≡◌, ◌≤◌, ◌<◌, All};
ghost use Rattle.dd_store.specs.View.{Has};
ghost use Rattle.req_table.specs.Keys.{IsKey};
ghost use Rattle.req_table.specs.Sizes.{sizes_of, IsKeyOf};

use dd_store::{NodeId, Ref, Store};
use req_table::requests::{level_of, normal, owner, terminal_case};
use req_table::{ComputedTable, Key, Op, SpareTables, Table, Waiting};
use std::alloc::Global;
use std::process::Abort;
use std::test::Fail;

/// Returns a store of `levels` levels that has all its variables.
pub fn store_of(rt: &impl Abort, alloc: Global, levels: u16) -> Store
    requires { levels ≤ 4 }
    ensures { result.levels ≡ levels }
{
    let mut store = Store::new(alloc, levels, 100).expect(rt, "out of memory");
    for level in 0..levels {
        store.variable(level).expect(rt, "a variable is refused");
    }
    store
}

/// Returns the variable of a level.
pub fn variable(rt: &impl Abort, store: &Store, level: u16) -> Ref
    requires { level < store.now.levels }
    ensures { Has store.now result }
{
    store
        .find(level, Ref::FALSE, Ref::TRUE)
        .expect(rt, "no such variable")
}

/// Returns the request for an operation on two references, which has no terminal case.
pub fn request_for(rt: &impl Abort, store: &Store, op: Op, f: Ref, g: Ref) -> Key
    requires first { Has store.now f }
    requires second { Has store.now g }
    ensures key { IsKey store.now result }
    ensures sized { IsKeyOf (sizes_of store.now) result }
{
    assert!(rt; terminal_case(op, f, g).is_none());
    normal(op, f, g).0
}

/// Returns the request for an operation on the variables of two levels.
pub fn request(rt: &impl Abort, store: &Store, op: Op, first: u16, second: u16) -> Key
    requires first { first < store.now.levels }
    requires second { second < store.now.levels }
    ensures key { IsKey store.now result }
    ensures sized { IsKeyOf (sizes_of store.now) result }
{
    let f = variable(rt, store, first);
    let g = variable(rt, store, second);
    request_for(rt, store, op, f, g)
}

/// Returns a store of four levels that has all its variables, and the disjunctions of the first one with the third and
/// with the fourth.
pub fn store_of_six(rt: &impl Abort, alloc: Global) -> Store
    ensures { result.levels ≡ 4 }
{
    let mut store = store_of(rt, alloc, 4);
    make_either(rt, &mut store, 2);
    make_either(rt, &mut store, 3);
    store
}

/// Makes the disjunction of the first variable and that of another level.
pub fn make_either(rt: &impl Abort, store: &mut Store, level: u16)
    requires { level < store.old.levels }
    ensures { store.new.levels ≡ store.old.levels }
{
    let other = variable(rt, store, level);
    assert!(rt; store.top(other) > 0);
    store
        .make(0, other, Ref::TRUE)
        .expect(rt, "a node is refused");
}

/// Returns this disjunction.
pub fn either(rt: &impl Abort, store: &Store, level: u16) -> Ref
    requires { level < store.now.levels }
    ensures { Has store.now result }
{
    let other = variable(rt, store, level);
    store.find(0, other, Ref::TRUE).expect(rt, "no such node")
}

/// Returns the request for the conjunction of both disjunctions, whose child is that of the two other variables.
fn both_eithers(rt: &impl Abort, store: &Store) -> Key
    requires { store.now.levels ≡ 4 }
    ensures { IsKey store.now result }
{
    let third = either(rt, store, 2);
    let fourth = either(rt, store, 3);
    request_for(rt, store, Op::And, third, fourth)
}

/// Returns the request for the Nor of the first disjunction and the second variable, which has another request as a
/// child.
fn neither(rt: &impl Abort, store: &Store) -> Key
    requires { store.now.levels ≡ 4 }
    ensures { IsKey store.now result }
{
    let third = either(rt, store, 2);
    let second = variable(rt, store, 1);
    request_for(rt, store, Op::Nor, third, second)
}

/// Returns five roots. Two are the same request, two have a request as a child, and one of these children is the last
/// root.
pub fn five_roots(rt: &impl Abort, store: &Store) -> [Key; 5]
    requires { store.now.levels ≡ 4 }
    ensures { All (IsKey store.now) result }
{
    [
        both_eithers(rt, store),
        request(rt, store, Op::Xor, 0, 1),
        request(rt, store, Op::Xnor, 1, 0),
        neither(rt, store),
        request(rt, store, Op::And, 2, 3),
    ]
}

/// How many requests they reach at each level.
pub const REACHED: [usize; 4] = [3, 1, 1, 0];

// The Nand of a variable and itself is its complement, without a request.
#[test]
fn short_nand(rt: HostRuntime) {
    let store = store_of(&rt, rt.alloc(), 1);
    let a = variable(&rt, &store, 0);
    assert!(rt; terminal_case(Op::Nand, a, a) == Some(a.negate()));
}

/// Checks the owner of the conjunction of two variables, with the operands in either order.
fn owned(rt: &impl Abort, store: &Store, first: u16, second: u16, workers: u32, wanted: u32)
    requires first { first < store.now.levels }
    requires second { second < store.now.levels }
    requires workers { 0 < workers }
{
    let key = request(rt, store, Op::And, first, second);
    assert!(rt; request(rt, store, Op::And, second, first) == key);
    assert!(rt; level_of(store, key) == first && owner(key, workers) == wanted);
}

// The owners of three requests, found by hand from the hashes of the variables.
#[test]
fn owners(rt: HostRuntime) {
    let store = store_of(&rt, rt.alloc(), 4);
    owned(&rt, &store, 0, 1, 4, 1);
    owned(&rt, &store, 0, 2, 2, 0);
    owned(&rt, &store, 2, 3, 2, 1);
}

// A request is admitted once. The table has the requests in the order of admission, and none after it was emptied.
#[test]
fn table_admits_once(rt: HostRuntime) -> Result<(), Fail> {
    let store = store_of(&rt, rt.alloc(), 2);
    let first = request(&rt, &store, Op::And, 0, 1);
    let second = request(&rt, &store, Op::Nor, 0, 1);
    let mut table = Table::new(rt.alloc());
    assert!(rt; table.admit(first)? == (0, true));
    assert!(rt; table.admit(first)? == (0, false));
    assert!(rt; table.len() == 1);
    assert!(rt; table.admit(second)? == (1, true));
    assert!(rt; table.len() == 2 && table.key_at(0) == first && table.key_at(1) == second);
    assert!(rt; table.find(second) == Some(1));
    table.clear();
    assert!(rt; table.len() == 0 && table.find(first).is_none());
    assert!(rt; table.admit(second)? == (0, true));
    Ok(())
}

/// Returns the first node of a level.
fn first_node(level: u16) -> Ref {
    Ref::node(NodeId {
        level,
        shard: 0,
        index: 0,
    })
}

/// Returns the request for the conjunction of the first nodes of two levels.
fn conjunction(rt: &impl Abort, first: u16, second: u16) -> Key {
    let f = first_node(first);
    let g = first_node(second);
    assert!(rt; terminal_case(Op::And, f, g).is_none());
    normal(Op::And, f, g).0
}

// A request of the last level of 4,096 does not fit in eight bytes, so all requests of its table take sixteen, in the
// order of admission.
#[test]
fn table_is_widened(rt: HostRuntime) -> Result<(), Fail> {
    let short = conjunction(&rt, 0, 1);
    let long = conjunction(&rt, 0, 4_095);
    let mut table = Table::new(rt.alloc());
    assert!(rt; table.admit(short)? == (0, true) && table.find(long).is_none());
    assert!(rt; table.admit(long)? == (1, true) && table.admit(short)? == (0, false));
    assert!(rt; table.len() == 2 && table.key_at(0) == short && table.key_at(1) == long);
    assert!(rt; table.find(short) == Some(0) && table.find(long) == Some(1));
    table.clear();
    assert!(rt; table.admit(long)? == (0, true) && table.find(short).is_none());
    Ok(())
}

// One request waits at the second of three levels, and then none.
#[test]
fn requests_wait_by_level(rt: HostRuntime) -> Result<(), Fail> {
    let key = conjunction(&rt, 0, 1);
    let mut waiting = Waiting::new(rt.alloc());
    waiting.restart(rt.alloc(), 3)?;
    assert!(rt; waiting.levels() == 3 && waiting.next_level(0).is_none());
    let first = waiting.admit(1, key)?;
    let again = waiting.admit(1, key)?;
    assert!(rt; first == 0 && again == 0 && waiting.count(1) == 1 && waiting.keys(1).len() == 1);
    assert!(rt;
        waiting.keys(1).key_at(0) == key
            && waiting.next_level(0) == Some(1)
            && waiting.next_level(2).is_none()
    );
    assert!(rt; waiting.are_many(2, 0) && !waiting.are_many(0, 1));
    let mut keys = Table::new(rt.alloc());
    waiting.take(1, &mut keys);
    assert!(rt; keys.len() == 1 && keys.key_at(0) == key && waiting.count(1) == 0);
    waiting.recycle(&mut keys)?;
    assert!(rt; keys.len() == 0 && waiting.next_level(0).is_none());
    Ok(())
}

// A table keeps its memory for another level, and gives it back if that is many times what is needed.
#[test]
fn spare_table_keeps_its_memory(rt: HostRuntime) -> Result<(), Fail> {
    let mut table = Table::new(rt.alloc());
    for level in 1..101 {
        table.admit(conjunction(&rt, 0, level))?;
    }
    let capacity = table.capacity();
    let mut spare = SpareTables::new(rt.alloc());
    spare.put(table)?;
    spare.trim(100);
    let table = spare.take();
    assert!(rt;
        spare.is_empty() && table.len() == 0 && capacity >= 100 && table.capacity() == capacity
    );
    spare.put(table)?;
    spare.trim(1);
    assert!(rt; spare.is_empty());
    Ok(())
}

// The second pair replaces the first in a table of capacity 1.
#[test]
fn memo_of_one(rt: HostRuntime) -> Result<(), Fail> {
    let store = store_of(&rt, rt.alloc(), 2);
    let both = request(&rt, &store, Op::And, 0, 1);
    let neither = request(&rt, &store, Op::Nor, 0, 1);
    let mut computed = ComputedTable::new(rt.alloc(), 1)?;
    computed.keep(both, Ref::FALSE);
    assert!(rt; computed.peek(&both) == Some(Ref::FALSE));
    computed.keep(neither, Ref::TRUE);
    assert!(rt; computed.peek(&both).is_none() && computed.peek(&neither) == Some(Ref::TRUE));
    Ok(())
}
