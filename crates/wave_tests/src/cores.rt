//! The workers of a wave as a state machine: single events, refused events, and driven cores.
ghost use Rattle.std.specs.Prelude.{◌≡◌, ◌<◌, All};
ghost use Rattle.req_table.specs.Keys.{IsKey};

use crate::requests::{request, store_of};
use dd_store::Store;
use req_table::{Item, Key, Op};
use std::process::Abort;
use std::test::Fail;
use wave_core::{Core, CoreFault, Event};

/// Returns the roots of this test's wave: a conjunction of the variables of levels 0 and 2, which worker 0 of two owns,
/// and one of those of levels 2 and 3, which worker 1 owns.
fn roots_of(rt: &impl Abort, store: &Store) -> [Key; 2]
    requires { store.now.levels ≡ 4 }
    ensures { All (IsKey store.now) result }
{
    [
        request(rt, store, Op::And, 0, 2),
        request(rt, store, Op::And, 2, 3),
    ]
}

/// Does events that have to be allowed.
fn does(rt: &impl Abort, core: &mut Core, events: &[Event])
    ensures { core.new.machine.workers ≡ core.old.machine.workers }
{
    assert!(rt; core.run(events) == Ok(events.len()));
}

/// Does an event that has to be refused, after `place` events were done.
fn refuses(rt: &impl Abort, core: &mut Core, event: Event, place: u128)
    ensures { core.new.machine.workers ≡ core.old.machine.workers }
{
    assert!(rt; core.step(event) == Err(CoreFault::NotAllowed { place }));
}

/// Whether an item asks for this key, from this worker and at this level.
fn is_ask(item: &Item, sender: u32, at: u16, wanted: Key) -> bool {
    matches!(*item, Item::Ask { from, level, key } if from == sender && level == at && key == wanted)
}

/// Whether an item ends this level, from this worker.
fn is_end(item: &Item, sender: u32, at: u16) -> bool {
    matches!(*item, Item::End { from, level } if from == sender && level == at)
}

/// Drives a core of this wave to its end: it has one record at the first level and one at the third.
fn finishes(rt: &impl Abort, mut core: Core) -> Result<(), Fail> {
    assert!(rt; core.drive(&[]).is_ok());
    let records = core.into_records()?;
    assert!(rt; records.levels() == 4);
    assert!(rt; records.level(0).len() == 1 && records.level(1).is_empty());
    assert!(rt; records.level(2).len() == 1 && records.level(3).is_empty());
    Ok(())
}

// A worker expands a request only after the Ends of all workers, and goes on when all are expanded.
#[test]
fn core_walk(rt: HostRuntime) -> Result<(), Fail> {
    let store = store_of(&rt, rt.alloc(), 4);
    let roots = roots_of(&rt, &store);
    let first = roots[0];
    let mut core = Core::new(rt.alloc(), &store, 2, &roots)?;
    let start = [
        Event::Send { by: 0, to: 0 },
        Event::Take { by: 0 },
        Event::End { by: 0, to: 0 },
        Event::Take { by: 0 },
    ];
    does(&rt, &mut core, &start);
    assert!(rt; !core.closed(0, 0));
    refuses(&rt, &mut core, Event::Expand { by: 0 }, 4);
    let ended = [
        Event::End { by: 1, to: 0 },
        Event::Take { by: 0 },
        Event::Expand { by: 0 },
    ];
    does(&rt, &mut core, &ended);
    assert!(rt; core.closed(0, 0) && !core.closed(0, 1));
    refuses(&rt, &mut core, Event::Expand { by: 0 }, 7);
    let sent = core.sent(0, 0);
    assert!(rt; sent.len() == 2);
    assert!(rt; is_ask(&sent[0], 0, 0, first) && is_end(&sent[1], 0, 0));
    let taken = core.taken(0);
    assert!(rt; taken.len() == 3);
    assert!(rt; is_ask(&taken[0], 0, 0, first));
    assert!(rt; is_end(&taken[1], 0, 0) && is_end(&taken[2], 1, 0));
    let row = core.records(0, 0);
    assert!(rt; row.len() == 1);
    assert!(rt; row[0].key == first);
    does(&rt, &mut core, &[Event::Advance { by: 0 }]);
    assert!(rt; !core.finished());
    assert!(rt; core.drive(&[]).is_ok());
    assert!(rt; core.finished());
    assert!(rt; core.taken(0).len() == 9 && core.taken(1).len() == 9);
    finishes(&rt, core)
}

// A new core refuses some events, and does others as before.
#[test]
fn core_refusals(rt: HostRuntime) -> Result<(), Fail> {
    let store = store_of(&rt, rt.alloc(), 4);
    let roots = roots_of(&rt, &store);
    let mut core = Core::new(rt.alloc(), &store, 2, &roots)?;
    for event in [
        Event::Take { by: 0 },
        Event::End { by: 0, to: 0 },
        Event::Send { by: 0, to: 1 },
        Event::Take { by: 2 },
        Event::Advance { by: 0 },
    ] {
        refuses(&rt, &mut core, event, 0);
        assert!(rt; core.sent(0, 0).is_empty() && core.taken(0).is_empty());
    }
    let events = [Event::End { by: 0, to: 1 }, Event::Take { by: 1 }];
    assert!(rt; core.run(&events) == Ok(2));
    let stopped = [
        Event::Send { by: 0, to: 0 },
        Event::Take { by: 1 },
        Event::Take { by: 0 },
    ];
    assert!(rt; core.run(&stopped) == Err(CoreFault::NotAllowed { place: 3 }));
    assert!(rt; core.sent(0, 0).len() == 1 && core.taken(0).is_empty());
    Ok(())
}

// A worker keeps a request that is due from it to itself: the request is sent and taken at once, which is one event.
#[test]
fn core_keep(rt: HostRuntime) -> Result<(), Fail> {
    let store = store_of(&rt, rt.alloc(), 4);
    let roots = roots_of(&rt, &store);
    let first = roots[0];
    let mut core = Core::new(rt.alloc(), &store, 2, &roots)?;
    does(&rt, &mut core, &[Event::Keep { by: 0 }]);
    refuses(&rt, &mut core, Event::Send { by: 0, to: 0 }, 1);
    refuses(&rt, &mut core, Event::Keep { by: 0 }, 1);
    refuses(&rt, &mut core, Event::Take { by: 0 }, 1);
    refuses(&rt, &mut core, Event::Keep { by: 2 }, 1);
    let (sent, taken) = (core.sent(0, 0), core.taken(0));
    assert!(rt; sent.len() == 1 && is_ask(&sent[0], 0, 0, first));
    assert!(rt; taken.len() == 1 && is_ask(&taken[0], 0, 0, first));
    finishes(&rt, core)
}
