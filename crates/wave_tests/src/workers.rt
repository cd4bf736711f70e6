//! One worker of a wave: its records, the loads that it puts, when it notifies its monitor, and
//! when it stops.
ghost use Rattle.std.specs.Prelude.{◌≡◌, ◌<◌, IfOk, length};
ghost use Rattle.req_table.specs.Sizes.{sizes_of};
ghost use Rattle.req_table.specs.Keys.{IsKey};
ghost use Rattle.lane_queue.specs.PortView.{IsPortOf};
ghost use Rattle.expand_work.specs.WorkerResult.{IsFresh};

use crate::children::{placed_value, root_of, row_store};
use crate::lanes::{end, open};
use crate::meeting::{MAX_YIELDS, wait_for};
use crate::requests::{request, variable};
use dd_store::{Ref, Store, Watch};
use expand_work::{Monitor, NoMonitor, Part, WaveContext, WorkFault, WorkerMemory, work};
use lane_queue::{Lanes, Port};
use req_table::{Key, Op, Row, Table};
use std::alloc::Global;
use std::process::Abort;
use std::sync::Wait;
use std::sync::atomic::{AtomicBool, AtomicU64, Ordering};
use std::test::Fail;
use std::thread;
use std::thread::Threads;

/// A monitor that sets the flag at one level, and remembers each call in two digits: the worker's number, and the level
/// plus 1.
#[derive(Drop)]
struct Watcher<'a> {
    seen: AtomicU64,
    stop: &'a AtomicBool,
    last: u16,
}

impl<'a> Watch for Watcher<'a> {
    fn at_shard(&self, _shard: u8, _level: u16) {}
}

impl<'a> Monitor for Watcher<'a> {
    fn at_level(&self, worker: u32, level: u16) {
        let seen = self.seen.load(Ordering::SeqCst);
        let call = worker as u64 * 10 + level as u64 + 1;
        self.seen.store(seen.wrapping_mul(100).wrapping_add(call), Ordering::SeqCst);
        if level == self.last {
            self.stop.store(true, Ordering::SeqCst);
        }
    }

    fn most_requests(&self) -> usize {
        usize::MAX
    }
}

/// The task of a single worker: one root, and whether each table stays with its level.
#[derive(Clone, Copy)]
struct Task {
    root: Key,
    keeps: bool,
}

/// Does the part of a single worker, on one root.
fn work_single<R: Wait + Abort, G: Monitor>(
    rt: &R,
    alloc: Global,
    store: &Store,
    task: Task,
    monitor: &G,
    stop: &AtomicBool,
) -> Result<Part, WorkFault>
    requires { IsKey store.now task.root }
    ensures tables { IfOk result (λ p. length p.space.tables ≡ store.now.levels) }
    ensures rows { IfOk result (λ p. length p.space.rows ≡ store.now.levels) }
{
    let (lanes, mut ports) = open(alloc, store, 1)?;
    let port = ports.pop().expect(rt, "no port");
    let context = WaveContext {
        alloc,
        lanes: &lanes,
        store,
        roots: &[task.root],
        stop,
        found: &AtomicU64::new(0),
        most: u64::MAX,
        keeps: task.keeps,
    };
    work(rt, context, port, None, monitor)
}

/// Whether a level has only this request, with these children.
fn is_row(
    keys: Option<&Table>,
    row: &Row,
    key: Key,
    low: Result<Ref, (u16, u32, bool)>,
    high: Result<Ref, (u16, u32, bool)>,
) -> bool {
    let Some(keys) = keys else {
        return false;
    };
    keys.len() == 1
        && keys.key_at(0) == key
        && row.len() == 1
        && placed_value(row.at(0).0) == low
        && placed_value(row.at(0).1) == high
}

#[test]
fn one_worker_records_what_it_is_asked_for(rt: HostRuntime) -> Result<(), Fail> {
    let store = row_store(&rt, rt.alloc());
    let root = root_of(&rt, &store);
    let stop = AtomicBool::new(false);
    let task = Task { root, keeps: true };
    let Ok(part) = work_single(&rt, rt.alloc(), &store, task, &NoMonitor, &stop) else {
        return Err(Fail::from("no part"));
    };
    let c = variable(&rt, &store, 2);
    let child = request(&rt, &store, Op::And, 1, 2);
    let Part { port, space } = part;
    let WorkerMemory { tables, rows, .. } = space;
    assert!(rt;
        is_row(
            tables.keys(0),
            rows.row(0),
            root,
            Err((1, 0, false)),
            Ok(Ref::TRUE)
        )
    );
    assert!(rt; is_row(tables.keys(1), rows.row(1), child, Ok(Ref::FALSE), Ok(c)));
    assert!(rt; tables.keys(2).map(|keys| keys.len()) == Some(0) && rows.row(2).len() == 0);
    assert!(rt; port.number() == 0 && port.put() == 3);
    assert!(rt; !stop.load(Ordering::SeqCst));
    Ok(())
}

#[test]
fn the_table_of_an_expanded_level_serves_others(rt: HostRuntime) -> Result<(), Fail> {
    let store = row_store(&rt, rt.alloc());
    let root = root_of(&rt, &store);
    let stop = AtomicBool::new(false);
    let task = Task { root, keeps: false };
    let Ok(part) = work_single(&rt, rt.alloc(), &store, task, &NoMonitor, &stop) else {
        return Err(Fail::from("no part"));
    };
    let Part { space, .. } = part;
    let WorkerMemory { tables, rows, .. } = space;
    for level in 0..3 {
        assert!(rt; tables.keys(level).is_none());
    }
    assert!(rt; rows.row(0).len() == 1 && rows.row(1).len() == 1 && rows.row(2).len() == 0);
    Ok(())
}

/// Whether the flag is set before the wave, the level at which the monitor sets it, the calls of the monitor, and
/// whether the worker reaches its end.
const STOPS: [(bool, u16, u64, bool); 5] = [
    (true, 9, 0, false),
    (false, 0, 1, false),
    (false, 1, 102, false),
    (false, 2, 10203, true),
    (false, 9, 10203, true),
];

#[test]
fn a_flag_is_read_where_a_level_begins(rt: HostRuntime) -> Result<(), Fail> {
    let store = row_store(&rt, rt.alloc());
    let root = root_of(&rt, &store);
    for (before, last, reported, ends) in STOPS {
        let stop = AtomicBool::new(before);
        let monitor = Watcher {
            seen: AtomicU64::new(0),
            stop: &stop,
            last,
        };
        let task = Task { root, keeps: false };
        let fault = work_single(&rt, rt.alloc(), &store, task, &monitor, &stop).err();
        let want = if ends { None } else { Some(WorkFault::Stopped) };
        assert!(rt; fault == want && monitor.seen.load(Ordering::SeqCst) == reported);
    }
    Ok(())
}

/// The flags between two workers besides their lanes: that one is to stop, and that it has ended.
#[derive(Clone, Copy)]
struct Flags<'a> {
    stop: &'a AtomicBool,
    ended: &'a AtomicBool,
}

/// Does a worker's part without roots, and returns its fault after it has ended.
fn work_until_stopped<R: Wait>(
    rt: &R,
    alloc: Global,
    lanes: &Lanes,
    port: Port,
    store: &Store,
    flags: Flags<'_>,
) -> Option<WorkFault>
    requires port { IsPortOf lanes.now port }
    requires fresh { IsFresh port }
    requires sizes { lanes.now.sizes ≡ sizes_of store.now }
{
    let context = WaveContext {
        alloc,
        lanes,
        store,
        roots: &[],
        stop: flags.stop,
        found: &AtomicU64::new(0),
        most: u64::MAX,
        keeps: false,
    };
    let fault = work(rt, context, port, None, &NoMonitor).err();
    flags.ended.store(true, Ordering::SeqCst);
    fault
}

/// Waits until a load was taken, for at most `MAX_YIELDS` yields.
fn wait_for_item<R: Wait>(rt: &R, lanes: &Lanes, port: &mut Port)
    requires { IsPortOf lanes.now port.old }
    ensures { IsPortOf lanes.now port.new }
{
    for _ in 0..MAX_YIELDS {
        if lanes.take(rt, port).is_some() {
            return;
        }
        thread::yield_now();
    }
}

/// Sets the flag after the other worker has ended its level, which then waits for this one's End. If the other goes on
/// waiting, it gets this End, and so reaches the end of its last level.
fn stop_in_a_wait<R: Wait + Abort>(
    rt: &R,
    lanes: &Lanes,
    mut port: Port,
    store: &Store,
    flags: Flags<'_>,
)
    requires port { IsPortOf lanes.now port }
    requires sizes { lanes.now.sizes ≡ sizes_of store.now }
{
    wait_for_item(rt, lanes, &mut port);
    flags.stop.store(true, Ordering::SeqCst);
    if !wait_for(flags.ended, MAX_YIELDS) {
        end(rt, store, lanes, &mut port, 0);
    }
}

/// Does the first worker's part of two in a thread, and in another one what the second does to it. Returns the first
/// one's fault.
fn stop_one_of_two<R: Threads + Wait + Abort + Sync>(
    rt: &R,
    alloc: Global,
    lanes: &Lanes,
    first: Port,
    second: Port,
    store: &Store,
) -> Option<WorkFault>
    requires first { IsPortOf lanes.now first × IsFresh first }
    requires second { IsPortOf lanes.now second }
    requires sizes { lanes.now.sizes ≡ sizes_of store.now }
{
    let stop = AtomicBool::new(false);
    let ended = AtomicBool::new(false);
    let (stop, ended) = (&stop, &ended);
    let (fault, _) = thread::join(
        rt,
        move || -> Option<WorkFault>
            requires { IsPortOf lanes.now first × IsFresh first × (lanes.now.sizes ≡ sizes_of store.now) }
        { work_until_stopped(rt, alloc, lanes, first, store, Flags { stop, ended }) },
        move || -> ()
            requires { IsPortOf lanes.now second × (lanes.now.sizes ≡ sizes_of store.now) }
        { stop_in_a_wait(rt, lanes, second, store, Flags { stop, ended }) },
    );
    fault
}

// A worker that waits for an End reads the flag, and stops although the End never comes.
#[test]
fn a_flag_is_read_in_a_wait(rt: HostRuntime) -> Result<(), Fail> {
    let store = Store::new(rt.alloc(), 1, 1)?;
    let (lanes, mut ports) = open(rt.alloc(), &store, 2)?;
    let second = ports.pop().expect(&rt, "no second port");
    let first = ports.pop().expect(&rt, "no first port");
    let fault = stop_one_of_two(&rt, rt.alloc(), &lanes, first, second, &store);
    assert!(rt; fault == Some(WorkFault::Stopped));
    Ok(())
}
