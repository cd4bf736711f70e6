//! Lanes on one thread and between threads: what was taken and what is left is what was put, in its
//! order.
ghost use Rattle.std.specs.Prelude.{◌≡◌, ◌≤◌, ◌<◌, [], ◌∷◌, All, IfOk, length};
ghost use Rattle.req_table.specs.Sizes.{sizes_of, IsKeyOf};
ghost use Rattle.lane_queue.specs.PortView.{IsPortOf};
ghost use Rattle.expand_work.specs.WorkerResult.{IsFresh};

use crate::requests::{request, store_of};
use dd_store::Store;
use lane_queue::{Bundle, Lanes, Load, Port, SettledLanes};
use req_table::requests::level_of;
use req_table::{Key, Op};
use std::alloc::{AllocError, Global};
use std::process::Abort;
use std::sync::Wait;
use std::test::Fail;
use std::thread;
use std::thread::Threads;

/// Whether a load is a bundle of only this request, of level 0, from this worker.
fn is_ask(load: &Load, sender: u32, wanted: Key) -> bool {
    match load {
        Load::Bundle { from, asks } => {
            let asks = asks.asks();
            *from == sender && asks.len() == 1 && asks[0] == (0, wanted)
        }
        Load::End { .. } => false,
    }
}

/// Whether a load ends level 0, from this worker.
fn is_end(load: &Load, sender: u32) -> bool {
    matches!(*load, Load::End { from, level } if from == sender && level == 0)
}

/// Returns new lanes for `workers` workers, with their ports.
pub(crate) fn open(
    alloc: Global,
    store: &Store,
    workers: u32,
) -> Result<(Lanes, Vec<Port>), AllocError>
    requires { (0 < workers) × (workers ≤ 16) }
    ensures lanes { IfOk result (λ r. (length r.0.lanes ≡ workers) × (r.0.sizes ≡ sizes_of store.now)) }
    ensures ports { IfOk result (λ r. All (λ p. IsPortOf r.0 p) r.1.items) }
    ensures fresh { IfOk result (λ r. All IsFresh r.1.items) }
{
    let (lanes, ports) = Lanes::new(alloc, store, workers)?;
    Ok((lanes, ports))
}

/// Returns a bundle of one request.
fn one(rt: &impl Abort, alloc: Global, level: u16, key: Key) -> Bundle
    ensures { result ≡ (level, key) ∷ [] }
{
    let mut asks = Bundle::new(alloc).expect(rt, "out of memory");
    asks.add(level, key);
    asks
}

/// Puts a bundle of one request on the lane of worker 1, on which the port has put no End yet.
fn ask<R: Wait + Abort>(
    rt: &R,
    alloc: Global,
    store: &Store,
    lanes: &Lanes,
    port: &mut Port,
    key: Key,
)
    requires store { lanes.now.sizes ≡ sizes_of store.now }
    requires port { IsPortOf lanes.now port.old }
    requires key { IsKeyOf (sizes_of store.now) key }
    ensures { IsPortOf lanes.now port.new }
{
    let from = port.number();
    let level = level_of(store, key);
    assert!(rt; 1 < lanes.count());
    assert!(rt; level < store.levels());
    assert!(rt; port.ends(1) == 0);
    let asks = one(rt, alloc, level, key);
    assert!(rt; lanes.send(rt, port, 1, Load::Bundle { from, asks }).is_ok());
}

/// Puts the port's next End on a lane.
pub(crate) fn end<R: Wait + Abort>(rt: &R, store: &Store, lanes: &Lanes, port: &mut Port, to: u32)
    requires store { lanes.now.sizes ≡ sizes_of store.now }
    requires port { IsPortOf lanes.now port.old }
    ensures { IsPortOf lanes.now port.new }
{
    let from = port.number();
    assert!(rt; to < lanes.count());
    let level = port.ends(to);
    assert!(rt; level < store.levels());
    assert!(rt; lanes.send(rt, port, to, Load::End { from, level }).is_ok());
}

/// Settles lanes with all their ports.
fn settle<R: Wait + Abort>(
    rt: &R,
    lanes: Lanes,
    ports: Vec<Port>,
) -> Result<SettledLanes, AllocError>
    requires { All (λ p. IsPortOf lanes p) ports.items }
    ensures { IfOk result (λ r. length r.left.items ≡ length lanes.lanes) }
{
    assert!(rt; ports.len() == lanes.count() as usize);
    for place in 0..ports.len() {
        assert!(rt; ports[place].number() as usize == place);
    }
    lanes.settle(rt, ports)
}

/// Settles the lanes of two workers.
fn settle_both<R: Wait + Abort>(
    rt: &R,
    alloc: Global,
    lanes: Lanes,
    first: Port,
    second: Port,
) -> Result<SettledLanes, AllocError>
    requires first { IsPortOf lanes first }
    requires second { IsPortOf lanes second }
    ensures { IfOk result (λ r. length r.left.items ≡ length lanes.lanes) }
{
    settle(rt, lanes, vec![in alloc; first, second]?)
}

#[test]
fn what_is_left_is_settled(rt: HostRuntime) -> Result<(), Fail> {
    let store = store_of(&rt, rt.alloc(), 2);
    let key = request(&rt, &store, Op::And, 0, 1);
    let (lanes, mut ports) = open(rt.alloc(), &store, 2)?;
    let mut second = ports.pop().expect(&rt, "no second port");
    let mut first = ports.pop().expect(&rt, "no first port");
    ask(&rt, rt.alloc(), &store, &lanes, &mut first, key);
    end(&rt, &store, &lanes, &mut first, 1);
    end(&rt, &store, &lanes, &mut second, 1);
    assert!(rt; first.put() == 2);
    let taken = lanes.take(&rt, &mut second).expect(&rt, "nothing is taken");
    assert!(rt; is_ask(&taken, 0, key));
    assert!(rt; lanes.take(&rt, &mut first).is_none());
    let settled = settle_both(&rt, rt.alloc(), lanes, first, second)?;
    let left = settled.left[1].as_slice();
    assert!(rt; settled.left[0].is_empty() && left.len() == 2);
    assert!(rt; is_end(&left[0], 0) && is_end(&left[1], 1));
    Ok(())
}

/// A port that sends two requests in turn.
#[derive(Drop)]
struct Sender {
    port: Port,
    even: Key,
    odd: Key,
}

/// Puts 1,000 requests on the lane of worker 1, and then the first End.
fn send_in_turn<R: Wait + Abort>(
    rt: &R,
    alloc: Global,
    store: &Store,
    lanes: &Lanes,
    sender: Sender,
) -> Port
    requires store { lanes.now.sizes ≡ sizes_of store.now }
    requires port { IsPortOf lanes.now sender.port }
    requires even { IsKeyOf (sizes_of store.now) sender.even }
    requires odd { IsKeyOf (sizes_of store.now) sender.odd }
    ensures { IsPortOf lanes.now result }
{
    let Sender {
        mut port,
        even,
        odd,
    } = sender;
    for _ in 0..500 {
        ask(rt, alloc, store, lanes, &mut port, even);
        ask(rt, alloc, store, lanes, &mut port, odd);
    }
    end(rt, store, lanes, &mut port, 1);
    port
}

/// Takes loads up to the first End.
fn take_to_end<R: Wait + Abort>(
    rt: &R,
    alloc: Global,
    lanes: &Lanes,
    mut port: Port,
) -> (Port, Vec<Load>)
    requires { IsPortOf lanes.now port }
    ensures { IsPortOf lanes.now result.0 }
{
    let mut loads = Vec::new(alloc);
    let mut ended = false;
    for _ in rt.forever() {
        if ended {
            break;
        }
        let Some(load) = lanes.take(rt, &mut port) else {
            thread::yield_now();
            continue;
        };
        ended = matches!(load, Load::End { .. });
        loads.push(load).expect(rt, "out of memory");
    }
    (port, loads)
}

/// Takes `count` loads, each at the first call.
fn take_at_once<R: Wait + Abort>(rt: &R, lanes: &Lanes, port: &mut Port, count: usize)
    requires { IsPortOf lanes.now port.old }
    ensures { IsPortOf lanes.now port.new }
{
    for _ in 0..count {
        assert!(rt; lanes.take(rt, port).is_some());
    }
    assert!(rt; lanes.take(rt, port).is_none());
}

// If no other thread steps on a lane, `take` returns None only if the lane is empty.
#[test]
fn what_waits_is_taken_at_once(rt: HostRuntime) -> Result<(), Fail> {
    let store = store_of(&rt, rt.alloc(), 2);
    let even = request(&rt, &store, Op::And, 0, 1);
    let odd = request(&rt, &store, Op::Xor, 0, 1);
    let (lanes, mut ports) = open(rt.alloc(), &store, 2)?;
    let mut second = ports.pop().expect(&rt, "no second port");
    let first = ports.pop().expect(&rt, "no first port");
    take_at_once(&rt, &lanes, &mut second, 0);
    let sender = Sender {
        port: first,
        even,
        odd,
    };
    let first = send_in_turn(&rt, rt.alloc(), &store, &lanes, sender);
    take_at_once(&rt, &lanes, &mut second, 1001);
    end(&rt, &store, &lanes, &mut second, 1);
    take_at_once(&rt, &lanes, &mut second, 1);
    assert!(rt; first.put() == 1001);
    Ok(())
}

/// One port sends in a thread, and another one takes in a second thread.
fn send_and_take<R: Threads + Wait + Abort + Sync>(
    rt: &R,
    alloc: Global,
    store: &Store,
    lanes: &Lanes,
    sender: Sender,
    second: Port,
) -> (Port, Port, Vec<Load>)
    requires store { lanes.now.sizes ≡ sizes_of store.now }
    requires first { IsPortOf lanes.now sender.port }
    requires second { IsPortOf lanes.now second }
    requires even { IsKeyOf (sizes_of store.now) sender.even }
    requires odd { IsKeyOf (sizes_of store.now) sender.odd }
    ensures { IsPortOf lanes.now result.0 × IsPortOf lanes.now result.1 }
{
    let Sender { port, even, odd } = sender;
    let (first, (second, items)) = thread::join(
        rt,
        move || -> Port
            requires { (lanes.now.sizes ≡ sizes_of store.now) × IsPortOf lanes.now port
                × IsKeyOf (sizes_of store.now) even × IsKeyOf (sizes_of store.now) odd }
            ensures { IsPortOf lanes.entry.now result }
        { send_in_turn(rt, alloc, store, lanes, Sender { port, even, odd }) },
        move || -> (Port, Vec<Load>)
            requires { IsPortOf lanes.now second }
            ensures { IsPortOf lanes.entry.now result.0 }
        { take_to_end(rt, alloc, lanes, second) },
    );
    (first, second, items)
}

#[test]
fn two_threads_keep_the_order(rt: HostRuntime) -> Result<(), Fail> {
    let store = store_of(&rt, rt.alloc(), 2);
    let even = request(&rt, &store, Op::And, 0, 1);
    let odd = request(&rt, &store, Op::Xor, 0, 1);
    let (lanes, mut ports) = open(rt.alloc(), &store, 2)?;
    let second = ports.pop().expect(&rt, "no second port");
    let first = ports.pop().expect(&rt, "no first port");
    let sender = Sender {
        port: first,
        even,
        odd,
    };
    let (first, second, items) = send_and_take(&rt, rt.alloc(), &store, &lanes, sender, second);
    assert!(rt; items.len() == 1001);
    for place in 0..1000 {
        let key = if place % 2 == 0 { even } else { odd };
        assert!(rt; is_ask(&items[place], 0, key));
    }
    assert!(rt; is_end(&items[1000], 0));
    let settled = settle_both(&rt, rt.alloc(), lanes, first, second)?;
    assert!(rt; settled.left[0].is_empty() && settled.left[1].is_empty());
    Ok(())
}
