//! The least difference in declared order.
ghost use Rattle.std.specs.Prelude.{All};
ghost use Rattle.dd_store.specs.View.{Has};
ghost use Rattle.counter_walk.specs.DeclaredOrder.{IsOrder};

use crate::waves::known_at;
use counter_walk::{by_level, least_difference_declared};
use dd_store::{Ref, Store};
use std::alloc::Global;
use std::process::Abort;
use std::test::Fail;

/// Fails the test if this is no order of `levels` levels.
fn assert_order<R: Abort>(rt: &R, order: &[u16], levels: u16)
    ensures { IsOrder levels order.now }
{
    assert!(rt; order.len() == levels as usize);
    for level in 0..order.len() {
        assert!(rt; order[level] < levels);
        for above in 0..level {
            assert!(rt; order[above] != order[level]);
        }
    }
}

/// Adds the node of a level with two known children.
fn add_node<R: Abort>(
    rt: &R,
    store: &mut Store,
    known: &mut Vec<Ref>,
    level: u16,
    children: (usize, usize),
)
    requires { All (Has store.old) known.old.items }
    ensures { All (Has store.new) known.new.items }
{
    let low = known_at(rt, store, known.as_slice(), children.0);
    let high = known_at(rt, store, known.as_slice(), children.1);
    assert!(rt; level < store.levels());
    assert!(rt; level < store.top(low));
    assert!(rt; level < store.top(high));
    let made = store.make(level, low, high).expect(rt, "a node");
    known.push(made).expect(rt, "memory");
}

/// Returns the functions that are 0 and 1 everywhere.
fn constants<R: Abort>(rt: &R, alloc: Global, store: &Store) -> Vec<Ref>
    ensures { All (Has store.now) result.items }
{
    let _ = store.levels(); // For the proof.
    let mut known = Vec::new(alloc);
    known.push(Ref::FALSE).expect(rt, "memory");
    known.push(Ref::TRUE).expect(rt, "memory");
    known
}

/// Fails the test if another assignment was found than the wanted one.
fn assert_found<R: Abort>(rt: &R, found: Option<Vec<bool>>, wanted: Option<&[bool]>) {
    match (found, wanted) {
        (Some(bits), Some(wanted)) => assert!(rt; bits.as_slice() == wanted),
        (None, None) => {}
        _ => assert!(rt; false, "found where there is none, or none"),
    }
}

// Level 0 has the variable that is declared last, and level 2 the one that is declared before it. If one of these two
// has to be 1, it is the one that is declared last, although its level is above the other's.
#[test]
fn as_declared(rt: HostRuntime) -> Result<(), Fail> {
    let alloc = rt.alloc();
    let mut store = Store::new(alloc, 3, 10)?;
    let mut known = constants(&rt, alloc, &store);
    add_node(&rt, &mut store, &mut known, 2, (0, 1));
    add_node(&rt, &mut store, &mut known, 0, (2, 1));
    add_node(&rt, &mut store, &mut known, 0, (1, 0));
    add_node(&rt, &mut store, &mut known, 0, (0, 1));
    let order = [2, 0, 1];
    assert_order(&rt, &order, 3);
    assert!(rt; store.levels() == 3);
    let wanted: [(usize, usize, Option<&[bool]>); 12] = [
        (0, 0, None),
        (1, 0, Some(&[false, false, false])),
        (2, 0, Some(&[false, true, false])),
        (0, 3, Some(&[false, false, true])),
        (4, 0, Some(&[false, false, false])),
        (5, 0, Some(&[false, false, true])),
        (3, 3, None),
        (4, 5, Some(&[false, false, false])),
        (2, 5, Some(&[false, false, true])),
        (3, 2, Some(&[false, false, true])),
        (3, 5, Some(&[false, true, false])),
        (2, 4, Some(&[false, false, false])),
    ];
    for (first, second, bits) in wanted {
        let f = known_at(&rt, &store, known.as_slice(), first);
        let g = known_at(&rt, &store, known.as_slice(), second);
        assert_found(
            &rt,
            least_difference_declared(alloc, &store, f, g, &order)?,
            bits,
        );
        assert_found(
            &rt,
            least_difference_declared(alloc, &store, g, f, &order)?,
            bits,
        );
    }
    let levels = by_level(alloc, &[true, false, false], &order)?;
    assert!(rt; levels.as_slice() == [false, true, false].as_slice());
    Ok(())
}
