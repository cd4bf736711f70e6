//! Waves of steps on known references, in each way in which a wave is done.
ghost use Rattle.std.specs.Prelude.{◌<◌, ◌≤◌, All, IfOk};
ghost use Rattle.dd_store.specs.View.{Has, Keeps};
ghost use Rattle.req_table.specs.Keys.{IsKey};
ghost use Rattle.reduce_up.specs.Waves.{IsEntry};

use crate::narrow::Narrow;
use dd_store::{Ref, Store};
use expand_work::{Crew, NoMonitor, WaveFault, Workers};
use gate_plan::conjoin;
use req_table::requests::{normal, terminal_case};
use req_table::{ComputedTable, Key, Op};
use std::alloc::Global;
use std::process::Abort;
use std::sync::Wait;
use std::test::Fail;
use std::thread::Threads;
use wave_doors::wave_on_one_thread;
use wave_engine::wave;

// Operands are places in a list of known references: the constants, the variables by level, and the answers so far.
const ZERO: usize = 0;

/// The first four variables.
pub(crate) const A: usize = 2;

pub(crate) const B: usize = 3;

pub(crate) const C: usize = 4;

pub(crate) const D: usize = 5;

/// An operation on two known references.
pub(crate) type Step = (Op, usize, usize);

/// The way of a wave: by a core with these choices on the test's thread; as the program does it; or with workers who
/// are called in at a level with more requests than this.
#[derive(Clone, Copy)]
pub(crate) enum Way {
    OneThread(&'static [u8]),
    Threads,
    Upto(usize),
}

/// How a wave is done: by at most so many workers, and in which way.
#[derive(Clone, Copy)]
pub(crate) struct How {
    pub(crate) workers: u32,
    pub(crate) way: Way,
}

/// The choices are none, few, and more than a small wave has events.
pub(crate) const WAYS: [Way; 11] = [
    Way::OneThread(&[]),
    Way::OneThread(&[0, 1, 2]),
    Way::OneThread(&[255; 200]),
    Way::Threads,
    Way::Upto(0),
    Way::Upto(1),
    Way::Upto(2),
    Way::Upto(3),
    Way::Upto(4),
    Way::Upto(5),
    Way::Upto(usize::MAX),
];

/// Returns the constants and all variables of a store.
pub(crate) fn start<R: Abort>(rt: &R, alloc: Global, store: &mut Store) -> Vec<Ref>
    ensures { All (Has store.new) result.items }
{
    let mut known = Vec::new(alloc);
    known.push(Ref::FALSE).expect(rt, "memory");
    known.push(Ref::TRUE).expect(rt, "memory");
    for level in 0..store.levels() {
        let variable = store.variable(level).expect(rt, "a variable");
        known.push(variable).expect(rt, "memory");
    }
    known
}

/// Returns the known reference at a place.
pub(crate) fn known_at<R: Abort>(rt: &R, store: &Store, known: &[Ref], place: usize) -> Ref
    requires { All (Has store.now) known.now }
    ensures { Has store.now result }
{
    *known.get(place).expect(rt, "a known reference")
}

/// Returns the entries of steps.
pub(crate) fn entries_of<R: Abort>(
    rt: &R,
    alloc: Global,
    store: &Store,
    known: &[Ref],
    steps: &[Step],
) -> Vec<(Op, Ref, Ref)>
    requires { All (Has store.now) known.now }
    ensures { All (IsEntry store.now) result.items }
{
    let mut entries = Vec::new(alloc);
    for (op, first, second) in steps {
        let f = known_at(rt, store, known, *first);
        let g = known_at(rt, store, known, *second);
        entries.push((*op, f, g)).expect(rt, "memory");
    }
    entries
}

/// Returns a crew of `workers` workers with a monitor.
pub(crate) fn crew_of<'a, R, G>(
    rt: &'a R,
    alloc: Global,
    workers: u32,
    monitor: &'a G,
) -> Crew<'a, R, G>
    requires { (0 < workers) × (workers ≤ 16) }
{
    Crew {
        rt,
        alloc,
        workers: Workers::new(workers),
        monitor,
    }
}

/// Returns the answers of a wave with an empty computed table.
fn answers_of<R: Threads + Wait + Sync>(
    rt: &R,
    alloc: Global,
    store: &mut Store,
    entries: &[(Op, Ref, Ref)],
    how: How,
) -> Result<Vec<Ref>, WaveFault>
    requires operands { All (IsEntry store.old) entries.now }
    requires workers { (0 < how.workers) × (how.workers ≤ 16) }
    ensures keeps { Keeps store.old store.new }
    ensures known { IfOk result (λ answers. All (Has store.new) answers.items) }
{
    let How { workers, way } = how;
    let mut computed = ComputedTable::new(alloc, 8)?;
    match way {
        Way::OneThread(choices) => {
            let crew = crew_of(rt, alloc, workers, &NoMonitor);
            wave_on_one_thread(&crew, store, &mut computed, entries, choices)
        }
        Way::Threads => {
            let crew = crew_of(rt, alloc, workers, &NoMonitor);
            wave(&crew, store, &mut computed, entries)
        }
        Way::Upto(most) => {
            let monitor = Narrow::new(most);
            let crew = crew_of(rt, alloc, workers, &monitor);
            wave(&crew, store, &mut computed, entries)
        }
    }
}

/// Does a wave of steps, and adds its answers to the known references.
pub(crate) fn run<R: Abort + Threads + Wait + Sync>(
    rt: &R,
    alloc: Global,
    store: &mut Store,
    known: &mut Vec<Ref>,
    steps: &[Step],
    how: How,
) -> Result<(), WaveFault>
    requires known { All (Has store.old) known.old.items }
    requires workers { (0 < how.workers) × (how.workers ≤ 16) }
    ensures known { All (Has store.new) known.new.items }
    ensures keeps { Keeps store.old store.new }
{
    let entries = entries_of(rt, alloc, store, known.as_slice(), steps);
    let answers = answers_of(rt, alloc, store, entries.as_slice(), how)?;
    known
        .extend_from_slice(answers.as_slice())
        .expect(rt, "memory");
    Ok(())
}

/// Returns the request of a step, which has no terminal case.
pub(crate) fn request<R: Abort>(rt: &R, store: &Store, known: &[Ref], step: Step) -> Key
    requires { All (Has store.now) known.now }
    ensures { IsKey store.now result }
{
    let (op, first, second) = step;
    let f = known_at(rt, store, known, first);
    let g = known_at(rt, store, known, second);
    assert!(rt; terminal_case(op, f, g).is_none());
    normal(op, f, g).0
}

/// Returns the node of a level with two children, which has to be there.
pub(crate) fn node<R: Abort>(rt: &R, store: &Store, level: u16, low: Ref, high: Ref) -> Ref {
    assert!(rt; level < store.levels());
    store.find(level, low, high).expect(rt, "no such node")
}

// Two entries that ask for one request, and two that have a terminal case.
#[test]
fn wave_entries(rt: HostRuntime) -> Result<(), Fail> {
    let steps = [
        (Op::And, A, B),
        (Op::And, B, A),
        (Op::And, A, ZERO),
        (Op::Xor, A, A),
    ];
    for workers in [1, 2, 3, 16] {
        for way in WAYS {
            let mut store = Store::new(rt.alloc(), 2, 4)?;
            let mut known = start(&rt, rt.alloc(), &mut store);
            let b = known_at(&rt, &store, known.as_slice(), B);
            let how = How { workers, way };
            let answer = run(&rt, rt.alloc(), &mut store, &mut known, &steps, how);
            assert!(rt; answer.is_ok() && store.count() == 3);
            let both = node(&rt, &store, 0, Ref::FALSE, b);
            let wanted = [both, both, Ref::FALSE, Ref::FALSE];
            assert!(rt; known.get(4..) == Some(wanted.as_slice()));
        }
    }
    Ok(())
}

/// Returns the conjunction of each reference with one more.
fn with_all<R: Threads + Wait + Sync>(
    rt: &R,
    alloc: Global,
    store: &mut Store,
    known: &[Ref],
    given: Ref,
    workers: u32,
) -> Result<Vec<Ref>, WaveFault>
    requires known { All (Has store.old) known.now }
    requires given { Has store.old given }
    requires workers { (0 < workers) × (workers ≤ 16) }
    ensures keeps { Keeps store.old store.new }
{
    let crew = crew_of(rt, alloc, workers, &NoMonitor);
    conjoin(&crew, store, known, given)
}

// Each reference is conjoined with b, by one wave.
#[test]
fn conjoined(rt: HostRuntime) -> Result<(), Fail> {
    for workers in [1, 2, 3, 16] {
        let mut store = Store::new(rt.alloc(), 2, 4)?;
        let known = start(&rt, rt.alloc(), &mut store);
        let b = known_at(&rt, &store, known.as_slice(), B);
        let answers = with_all(&rt, rt.alloc(), &mut store, known.as_slice(), b, workers)?;
        let both = node(&rt, &store, 0, Ref::FALSE, b);
        assert!(rt; answers.as_slice() == [Ref::FALSE, b, both, b].as_slice());
    }
    Ok(())
}
