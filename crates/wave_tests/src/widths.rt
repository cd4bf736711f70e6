//! Waves of one engine that calls workers in at different widths of a level, in stores that are
//! large enough and in stores that are not.
ghost use Rattle.std.specs.Prelude.{All, IfOk};
ghost use Rattle.dd_store.specs.View.{Has, Keeps};
ghost use Rattle.req_table.specs.ComputedTables.{IsRight};
ghost use Rattle.reduce_up.specs.Waves.{IsEntry};

use crate::narrow::Narrow;
use crate::waves::{How, Step, Way, crew_of, entries_of, run, start};
use dd_store::{Ref, Store};
use expand_work::{Monitor, WaveFault};
use req_table::Op;
use std::alloc::Global;
use std::process::Abort;
use std::sync::Wait;
use std::sync::atomic::Ordering;
use std::test::Fail;
use std::thread::Threads;
use wave_engine::Engine;

const OPS: [Op; 6] = [Op::And, Op::Or, Op::Xor, Op::Nand, Op::Nor, Op::Xnor];

/// Pseudo-random numbers, from a seed.
#[derive(Drop)]
struct Random {
    state: u64,
}

impl Random {
    fn below(&mut self, count: usize) -> usize {
        self.state = self
            .state
            .wrapping_mul(6364136223846793005)
            .wrapping_add(1442695040888963407);
        (self.state >> 33) as usize % count.max(1)
    }

    fn op(&mut self) -> Op {
        OPS.get(self.below(OPS.len())).copied().unwrap_or(Op::And)
    }
}

/// Returns some steps on `known` known references.
fn random_steps<R: Abort>(rt: &R, alloc: Global, random: &mut Random, known: usize) -> Vec<Step> {
    let mut steps = Vec::new(alloc);
    for _ in 0..=random.below(8) {
        let op = random.op();
        let step = (op, random.below(known), random.below(known));
        steps.push(step).expect(rt, "memory");
    }
    steps
}

/// Returns the answers of a wave of the engine.
fn answers_of<R: Threads + Wait + Sync, G: Monitor>(
    engine: &mut Engine<'_, R, G>,
    store: &mut Store,
    entries: &[(Op, Ref, Ref)],
) -> Result<Vec<Ref>, WaveFault>
    requires operands { All (IsEntry store.old) entries.now }
    requires right { IsRight store.old engine.old.held }
    ensures right { IsRight store.new engine.new.held }
    ensures known { IfOk result (λ answers. All (Has store.new) answers.items) }
    ensures keeps { Keeps store.old store.new }
{
    engine.wave(store, entries)
}

/// Does a wave of steps by the engine, and adds its answers to the known references.
pub(crate) fn run_engine<R: Abort + Threads + Wait + Sync, G: Monitor>(
    rt: &R,
    engine: &mut Engine<'_, R, G>,
    store: &mut Store,
    known: &mut Vec<Ref>,
    steps: &[Step],
) -> Result<(), WaveFault>
    requires known { All (Has store.old) known.old.items }
    requires right { IsRight store.old engine.old.held }
    ensures known { All (Has store.new) known.new.items }
    ensures right { IsRight store.new engine.new.held }
{
    let entries = entries_of(rt, engine.alloc(), store, known.as_slice(), steps);
    let answers = answers_of(engine, store, entries.as_slice())?;
    known
        .extend_from_slice(answers.as_slice())
        .expect(rt, "memory");
    Ok(())
}

/// Does some waves of a seed in a new store, up to the first that fails, each by the engine and then by a core, which
/// finds all nodes there, and has the same answers or the same fault. Returns how many nodes the store has then, and
/// whether a wave has failed.
fn waves_of<R: Abort + Threads + Wait + Sync>(
    rt: &R,
    engine: &mut Engine<'_, R, Narrow>,
    seed: u64,
    limit: u32,
) -> (u64, bool) {
    let alloc = engine.alloc();
    engine.forget().expect(rt, "memory");
    let mut random = Random { state: seed };
    let mut store = Store::new(alloc, 6, limit as u64).expect(rt, "memory");
    let mut known = start(rt, alloc, &mut store);
    let core = How {
        workers: 2,
        way: Way::OneThread(&[3, 1, 2]),
    };
    for _ in 0..5 {
        let steps = random_steps(rt, alloc, &mut random, known.len());
        let before = known.len();
        let answer = run_engine(rt, engine, &mut store, &mut known, steps.as_slice());
        let count = store.count();
        let between = known.len();
        let again = run(rt, alloc, &mut store, &mut known, steps.as_slice(), core);
        assert!(rt; again == answer && store.count() == count);
        assert!(rt; known.get(before..between) == known.get(between..));
        if answer.is_err() {
            assert!(rt; answer == Err(WaveFault::Full));
            return (count, true);
        }
    }
    (store.count(), false)
}

/// Does waves of seeds by one engine, on the caller's thread and by workers who are called in at each width. Returns
/// whether some failed.
fn at_each_width<R: Abort + Threads + Wait + Sync>(
    rt: &R,
    engine: &mut Engine<'_, R, Narrow>,
    monitor: &Narrow,
    seed: u64,
) -> bool {
    let mut refused = false;
    for limit in [10_000, 40] {
        monitor.most.store(usize::MAX, Ordering::SeqCst);
        let reported = monitor.reported.load(Ordering::SeqCst);
        let wanted = waves_of(rt, engine, seed, limit);
        refused = refused || wanted.1;
        assert!(rt; monitor.reported.load(Ordering::SeqCst) == reported);
        for width in 0..6 {
            monitor.most.store(width, Ordering::SeqCst);
            assert!(rt; waves_of(rt, engine, seed, limit) == wanted);
        }
    }
    refused
}

// One engine, at one width after the other and after each failed wave, has the same answers as a core.
#[test]
fn widths(rt: HostRuntime) -> Result<(), Fail> {
    for workers in [1, 2, 3] {
        let monitor = Narrow::new(0);
        let crew = crew_of(&rt, rt.alloc(), workers, &monitor);
        let mut engine = Engine::new(&crew)?;
        let mut refused = false;
        for seed in 0..12 {
            refused = at_each_width(&rt, &mut engine, &monitor, seed) || refused;
        }
        assert!(rt; refused && monitor.reported.load(Ordering::SeqCst) > 0);
    }
    Ok(())
}
