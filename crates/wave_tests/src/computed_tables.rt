//! Waves with a computed table, which has the answers of earlier ones.
ghost use Rattle.std.specs.Prelude.{◌≤◌, IfOk};
ghost use Rattle.dd_store.specs.View.{Has, Keeps};
ghost use Rattle.req_table.specs.ComputedTables.{IsRight};
ghost use Rattle.reduce_up.specs.Waves.{IsEntry};

use crate::narrow::Narrow;
use crate::plans::{C17, NamingModel, built, read};
use crate::requests::request_for;
use crate::waves::{WAYS, Way, crew_of};
use dd_store::{Ref, Store};
use expand_work::{NoMonitor, WaveFault};
use net_names::order::{Match, Order};
use net_order::pairing::pair;
use req_table::{Child, ComputedTable, Op};
use std::alloc::Global;
use std::process::Abort;
use std::sync::Wait;
use std::sync::atomic::Ordering;
use std::test::Fail;
use std::thread::Threads;
use wave_doors::{child_with_computed, wave_on_one_thread};
use wave_engine::wave;

/// Makes the variables of both levels of a store, and returns that of level 0 first.
fn variables<R: Abort>(rt: &R, store: &mut Store) -> (Ref, Ref)
    requires { 2 ≤ store.old.levels }
    ensures first { Has store.new result.0 }
    ensures second { Has store.new result.1 }
{
    let b = store.variable(1).expect(rt, "a variable");
    let a = store.variable(0).expect(rt, "a variable");
    (a, b)
}

/// Returns the answer of a wave for one operation.
fn ask<R: Threads + Wait + Sync>(
    rt: &R,
    alloc: Global,
    store: &mut Store,
    computed: &mut ComputedTable,
    entry: (Op, Ref, Ref),
    way: Way,
) -> Result<Ref, WaveFault>
    requires entry { IsEntry store.old entry }
    requires right { IsRight store.old computed.old }
    ensures keeps { Keeps store.old store.new }
    ensures right { IsRight store.new computed.new }
    ensures known { IfOk result (Has store.new) }
{
    let answers = match way {
        Way::OneThread(choices) => {
            let crew = crew_of(rt, alloc, 2, &NoMonitor);
            wave_on_one_thread(&crew, store, computed, &[entry], choices)?
        }
        Way::Threads => {
            let crew = crew_of(rt, alloc, 2, &NoMonitor);
            wave(&crew, store, computed, &[entry])?
        }
        Way::Upto(most) => {
            let monitor = Narrow::new(most);
            let crew = crew_of(rt, alloc, 2, &monitor);
            wave(&crew, store, computed, &[entry])?
        }
    };
    Ok(answers[0])
}

/// Whether this answer of an operation is held, by the operation's child.
fn is_known(store: &Store, computed: &ComputedTable, op: Op, f: Ref, g: Ref, wanted: Ref) -> bool
    requires first { Has store.now f }
    requires second { Has store.now g }
    requires right { IsRight store.now computed.now }
{
    match child_with_computed(store, computed, op, f, g) {
        Child::Done(answer) => answer == wanted,
        Child::Ask { .. } => false,
    }
}

/// Asks twice for one operation, the second time with its operands exchanged.
fn twice<R: Abort + Threads + Wait + Sync>(rt: &R, alloc: Global, way: Way) -> Result<(), Fail> {
    let mut store = Store::new(alloc, 2, 100)?;
    let mut computed = ComputedTable::new(alloc, 8)?;
    let (a, b) = variables(rt, &mut store);
    let answer = ask(rt, alloc, &mut store, &mut computed, (Op::And, a, b), way)?;
    let key = request_for(rt, &store, Op::And, b, a);
    assert!(rt; computed.peek(&key) == Some(answer));
    assert!(rt; is_known(&store, &computed, Op::And, b, a, answer));
    let again = ask(rt, alloc, &mut store, &mut computed, (Op::And, b, a), way)?;
    assert!(rt; again == answer && store.count() == 3);
    Ok(())
}

#[test]
fn memo_in_wave(rt: HostRuntime) -> Result<(), Fail> {
    for way in WAYS {
        twice(&rt, rt.alloc(), way)?;
    }
    Ok(())
}

/// C17 with a buffer after each input, so that each gate has the next rank.
static BUFFERED: &str =
    "INPUT(1)\nINPUT(2)\nINPUT(3)\nINPUT(6)\nINPUT(7)\nOUTPUT(22)\nOUTPUT(23)\na = BUFF(1)\nb = BUFF(2)\nc = BUFF(3)\nf = BUFF(6)\ng = BUFF(7)\n10 = NAND(a, c)\n11 = NAND(c, f)\n16 = NAND(b, 11)\n19 = NAND(11, g)\n22 = NAND(10, 16)\n23 = NAND(16, 19)\n";

/// Returns how often a worker comes to a level in a build of two netlists in which the workers expand each request.
fn reported<R: Abort + Threads + Wait + Sync>(
    rt: &R,
    alloc: Global,
    first: &str,
    second: &str,
) -> Result<u32, Fail> {
    let first = read(rt, alloc, first);
    let second = read(rt, alloc, second);
    let pairing = pair(alloc, &first, &second, None, Match::Name, &Order::Declared)?;
    let mut store = Store::new(alloc, pairing.names().len() as u16, 100)?;
    let monitor = Narrow::new(0);
    let crew = crew_of(rt, alloc, 2, &monitor);
    let paired = NamingModel {
        first: &first,
        second: &second,
        pairing: &pairing,
    };
    built(&crew, &mut store, paired)?;
    assert!(rt; store.count() == 13);
    Ok(monitor.reported.load(Ordering::SeqCst))
}

// What both netlists have, at different ranks, is asked for once: workers come to no more levels than for two equal
// texts.
#[test]
fn other_ranks(rt: HostRuntime) -> Result<(), Fail> {
    let same = reported(&rt, rt.alloc(), C17, C17)?;
    assert!(rt; same > 0);
    assert!(rt; reported(&rt, rt.alloc(), C17, BUFFERED)? == same);
    assert!(rt; reported(&rt, rt.alloc(), BUFFERED, C17)? == same);
    Ok(())
}
