//! The words of references and of children, found by hand, and lists of them.

use dd_store::{NodeId, Ref};
use req_table::{PackedChild, PlacedChild, Refs, Row, Rows};
use std::process::Abort;
use std::test::Fail;

/// Returns the node of this name.
fn node(level: u16, shard: u8, index: u32) -> Ref {
    Ref::node(NodeId {
        level,
        shard,
        index,
    })
}

// These are a near node, a far one at the last place that fits, and one that is neither: its word is greater than the
// far one's, although its level is above.
#[test]
fn words_of_references(rt: HostRuntime) {
    let near = node(0, 3, 5);
    let far = node(255, 15, 8_191);
    let long = node(3, 0, 131_072);
    assert!(rt; near.word() == 4_980_746 && near.negate().word() == 4_980_747);
    assert!(rt; far.word() == 1_141_112_830 && far.negate().word() == 1_141_112_831);
    assert!(rt; long.word() == 8_796_093_284_352 && Ref::of_word(long.word()) == long);
    assert!(rt; Ref::of_word(far.word()) == far && Ref::of_word(near.word()) == near);
    assert!(rt; near < long && long < far && !(far < long));
}

/// Fails the test if a child does not ask for this request.
fn assert_asked(rt: &impl Abort, child: PackedChild, wanted: (u16, u32, bool)) {
    match child.view() {
        PlacedChild::Ask {
            level,
            number,
            complement,
        } => assert!(rt; (level, number, complement) == wanted),
        PlacedChild::Done(_) => assert!(rt; false, "it is answered"),
    }
}

// These are a request of a near level, one of a far level, and one that is neither.
#[test]
fn words_of_children(rt: HostRuntime) {
    let near = PackedChild::ask(255, 1, true);
    let far = PackedChild::ask(256, 1, false);
    let long = PackedChild::ask(4_096, 1, false);
    assert!(rt; PackedChild::done(Ref::TRUE).word() == 1);
    assert!(rt; near.word() == 3_217_031_171 && far.word() == 3_288_334_338);
    assert!(rt; long.word() == 9_223_389_629_040_820_225);
    assert_asked(&rt, PackedChild::of_word(near.word()), (255, 1, true));
    assert_asked(&rt, PackedChild::of_word(far.word()), (256, 1, false));
    assert_asked(&rt, PackedChild::of_word(long.word()), (4_096, 1, false));
}

// The second pair does not fit in four bytes a word; what is put there after the row was cleared fits.
#[test]
fn lists_of_children(rt: HostRuntime) -> Result<(), Fail> {
    let near = PackedChild::ask(255, 1, true);
    let long = PackedChild::ask(4_096, 1, false);
    let answer = PackedChild::done(Ref::TRUE);
    let mut row = Row::new(rt.alloc());
    row.reserve(2)?;
    row.push((near, answer))?;
    row.push((answer, long))?;
    assert!(rt; row.len() == 2);
    let first = row.at(0);
    assert!(rt; first.0.word() == near.word() && first.1.word() == answer.word());
    let second = row.at(1);
    assert!(rt; second.0.word() == answer.word() && second.1.word() == long.word());
    row.clear();
    assert!(rt; row.len() == 0);
    row.push((near, near))?;
    assert!(rt; row.len() == 1 && row.at(0).1.word() == near.word());
    Ok(())
}

// The third reference does not fit in four bytes.
#[test]
fn lists_of_references(rt: HostRuntime) -> Result<(), Fail> {
    let near = node(0, 3, 5);
    let long = node(3, 0, 131_072);
    let mut refs = Refs::new(rt.alloc());
    refs.restart(2)?;
    refs.push(near)?;
    refs.push(near.negate())?;
    refs.push(long)?;
    assert!(rt; refs.at(0) == near && refs.at(1) == near.negate() && refs.at(2) == long);
    refs.restart(1)?;
    refs.push(Ref::FALSE)?;
    assert!(rt; refs.at(0) == Ref::FALSE);
    Ok(())
}

// In the first list all references fit in four bytes, in the second one does not.
#[test]
fn lists_of_references_are_joined(rt: HostRuntime) -> Result<(), Fail> {
    let near = node(0, 3, 5);
    let long = node(3, 0, 131_072);
    let mut short_list = Refs::new(rt.alloc());
    short_list.push(near)?;
    short_list.push(Ref::TRUE)?;
    let mut long_list = Refs::new(rt.alloc());
    long_list.push(long)?;
    let mut refs = Refs::new(rt.alloc());
    refs.append(&short_list)?;
    refs.append(&long_list)?;
    refs.append(&short_list)?;
    assert!(rt; refs.at(0) == near && refs.at(1) == Ref::TRUE && refs.at(2) == long);
    assert!(rt; refs.at(3) == near && refs.at(4) == Ref::TRUE);
    Ok(())
}

// Of four levels the second gets two pairs and the third one; both are then cleared.
#[test]
fn rows_by_level(rt: HostRuntime) -> Result<(), Fail> {
    let answer = PackedChild::done(Ref::TRUE);
    let mut rows = Rows::new(rt.alloc(), 1);
    rows.restart(rt.alloc(), 4)?;
    assert!(rt; rows.last_level(4).is_none() && rows.count() == 0);
    let mut two = Row::new(rt.alloc());
    two.push((answer, answer))?;
    two.push((answer, answer))?;
    rows.put(1, two);
    let mut one = Row::new(rt.alloc());
    one.push((answer, answer))?;
    rows.put(2, one);
    assert!(rt; rows.count() == 3 && rows.row(1).len() == 2 && rows.row(3).len() == 0);
    assert!(rt;
        rows.last_level(4) == Some(2)
            && rows.last_level(2) == Some(1)
            && rows.last_level(1).is_none()
    );
    let taken = rows.take(2);
    assert!(rt; taken.len() == 1 && rows.last_level(4) == Some(1));
    rows.clear_level(1);
    assert!(rt; rows.last_level(4).is_none() && rows.row(1).len() == 0);
    Ok(())
}
