//! The judge.
ghost use Rattle.std.specs.Prelude.{◌≡◌, ◌<◌, IfOk};
ghost use Rattle.cut_window.specs.WindowParts.{leaves_of};
ghost use Rattle.cut_window.specs.Windows.{Holds, HoldsOver};
ghost use Rattle.wave_judge.specs.OverLeaves.{AreDiagramsOver};

use crate::bound::{WindowBound, most_requests};
use crate::diagrams::build_above;
use crate::fault::WindowFault;
use crate::leaves::{build_leaves, literal_diagram};
use counter_walk::least_difference;
use cut_window::{Finding, Window};
use dd_store::{Ref, Store};
use expand_work::Monitor;
use pair_graph::{Graph, Literal};
use std::alloc::{AllocError, Global};
use std::marker::Model;
use std::sync::Wait;
use std::thread::Threads;
use wave_engine::Engine;

/// The most leaves of a window, since each is a level of a store.
const MAX_LEAVES: usize = 4096;

/// The work that each node of a window counts as, in nodes of diagrams.
const WORK_PER_NODE: u64 = 4;

/// Returns what the diagrams of two literals show: the literals are equal, complementary or different over the leaves,
/// or `GivenUp` if one has no diagram.
fn compare(
    alloc: Global,
    graph: &Graph,
    store: &Store,
    window: &Window,
    refs: &[Ref],
    pair: (Literal, Literal),
) -> Result<Finding, AllocError>
    requires { AreDiagramsOver graph.now window.now store.now refs.now }
    ensures { IfOk result (HoldsOver graph.now (leaves_of window.now) pair.0 pair.1) }
{
    let _ = window.leaves(); // For the proof.
    let (first, second) = pair;
    let Some(f) = literal_diagram(graph, store, window, refs, first) else {
        return Ok(Finding::GivenUp);
    };
    let Some(g) = literal_diagram(graph, store, window, refs, second) else {
        return Ok(Finding::GivenUp);
    };
    if f == g {
        return Ok(Finding::Equal);
    }
    if f == g.negate() {
        return Ok(Finding::Complement);
    }
    match least_difference(alloc, store, f, g)? {
        Some(bits) => Ok(Finding::Differ(bits)),
        None => Ok(Finding::GivenUp),
    }
}

/// Returns what a window shows of two literals, by diagrams in a new store with at most `nodes` nodes. Adds the work to
/// `work`.
fn judge_window<R: Threads + Wait + Sync, G: Monitor>(
    engine: &mut Engine<'_, R, WindowBound<'_, G>>,
    nodes: u32,
    work: &mut u64,
    graph: &Graph,
    window: &Window,
    pair: (Literal, Literal),
) -> Result<Finding, WindowFault>
    ensures over { IfOk result (HoldsOver graph.now (leaves_of window.now) pair.0 pair.1) }
    ensures everywhere { IfOk result (Holds graph.now pair.0 pair.1) }
{
    let _ = graph.len(); // For the proof.
    let leaves = window.leaves();
    if leaves > MAX_LEAVES {
        return Err(WindowFault::Incomplete);
    }
    let alloc = engine.alloc();
    engine.forget()?;
    let mut store = Store::new(alloc, leaves as u16, nodes as u64)?;
    let mut refs = Vec::new(alloc);
    build_leaves(&mut store, window, &mut refs)?;
    let built = build_above(
        engine,
        &mut store,
        graph,
        window,
        &mut refs,
        most_requests(nodes),
    );
    let above = window.nodes().len() as u64;
    *work = work
        .saturating_add(store.count())
        .saturating_add(above.saturating_mul(WORK_PER_NODE));
    built?;
    let finding = compare(alloc, graph, &store, window, refs.as_slice(), pair)?;
    Ok(finding)
}

/// Judges windows by diagrams over their leaves. Contracts see only the budget: how many nodes the diagrams of one
/// window may have. A window may also have eight requests for each of these nodes.
#[derive(Drop)]
pub struct WaveJudge<'a, R, G: Monitor> {
    engine: Engine<'a, R, WindowBound<'a, G>>,
    nodes: u32,
    work: u64,
}

impl<'a, R, G: Monitor> Model for WaveJudge<'a, R, G> {
    ghost use Rattle.std.specs.Prelude.{ℕ};

    ghost Value = { ℕ };

    ghost view = { λ j. j.nodes };
}

impl<'a, R: Threads + Wait + Sync, G: Monitor> WaveJudge<'a, R, G> {
    /// Returns a judge that uses this engine, whose crew must have the `WindowBound` of the same budget.
    pub fn new(engine: Engine<'a, R, WindowBound<'a, G>>, nodes: u32) -> Self
        ensures { result ≡ nodes }
    {
        WaveJudge {
            engine,
            nodes,
            work: 0,
        }
    }

    /// Returns the work of all its windows so far: the nodes of their diagrams, and four for each node of a window. It
    /// is the greatest number after the run has stopped in a window.
    pub fn work(&self) -> u64 {
        self.work
    }

    /// Returns how many nodes the diagrams of one window may have.
    pub fn nodes(&self) -> u32
        ensures { result ≡ self.now }
    {
        self.nodes
    }

    /// Returns what a window shows of two literals, by diagrams of at most `nodes` nodes, and not more than the budget.
    /// Every window is allowed: if it lacks a node, or needs more nodes, it shows nothing (`GivenUp`). Nothing is shown
    /// either if the run has stopped. Fails only if memory is refused.
    pub fn judge(
        &mut self,
        nodes: u32,
        graph: &Graph,
        window: &Window,
        first: Literal,
        second: Literal,
    ) -> Result<Finding, AllocError>
        ensures over { IfOk result (HoldsOver graph.now (leaves_of window.now) first second) }
        ensures everywhere { IfOk result (Holds graph.now first second) }
        ensures budget { self.new ≡ self.old }
    {
        let pair = (first, second);
        match judge_window(
            &mut self.engine,
            nodes.min(self.nodes),
            &mut self.work,
            graph,
            window,
            pair,
        ) {
            Ok(finding) => Ok(finding),
            Err(WindowFault::OutOfMemory) => Err(AllocError),
            Err(WindowFault::Stopped) => {
                // The greatest number makes a caller that limits the work begin no other window.
                self.work = u64::MAX;
                Ok(Finding::GivenUp)
            }
            Err(_) => Ok(Finding::GivenUp),
        }
    }
}
