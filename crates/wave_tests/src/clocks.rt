//! The counts of Ends by which levels are closed.
use expand_work::EndCounts;
use std::test::Fail;

#[test]
fn levels_close_when_all_senders_ended_them(rt: HostRuntime) -> Result<(), Fail> {
    let mut clock = EndCounts::new(rt.alloc(), 2, 2)?;
    clock.note(0, 0);
    assert!(rt; !clock.closed(0));
    clock.note(1, 0);
    assert!(rt; clock.closed(0) && !clock.closed(1));
    clock.note(0, 1);
    assert!(rt; !clock.all_closed());
    clock.note(1, 1);
    assert!(rt; clock.all_closed());
    Ok(())
}
