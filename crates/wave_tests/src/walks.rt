//! Comparing two functions of a store.
use crate::stores::ok;
use counter_walk::{least_difference, same, value};
use dd_store::{Ref, Store};
use std::test::Fail;

#[test]
fn and_or_difference(rt: HostRuntime) -> Result<(), Fail> {
    let mut store = Store::new(rt.alloc(), 2, 4)?;
    let b = ok(&rt, store.variable(1));
    let f = ok(&rt, store.make(0, Ref::FALSE, b));
    let g = ok(&rt, store.make(0, b, Ref::TRUE));
    assert!(rt; !same(f, g));
    let bits = least_difference(rt.alloc(), &store, f, g)?.ok_or("equal")?;
    assert!(rt; bits.as_slice() == [false, true].as_slice());
    assert!(rt; store.levels() == 2);
    assert!(rt; !value(&store, f, &[false, true]) && value(&store, g, &[false, true]));
    assert!(rt; least_difference(rt.alloc(), &store, f, f)?.is_none());
    Ok(())
}
