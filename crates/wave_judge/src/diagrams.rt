//! The diagrams of the nodes of a window above its leaves.
ghost use Rattle.std.specs.Prelude.{◌≡◌, ◌≤◌, IfOk, OnOk, Some, length, slice_get};
ghost use Rattle.dd_store.specs.Nodes.{IsDiagram};
ghost use Rattle.dd_store.specs.View.{Keeps};
ghost use Rattle.pair_graph.specs.Literals.{node_literal};
ghost use Rattle.req_table.specs.ComputedTables.{IsRight};
ghost use Rattle.reduce_up.specs.Waves.{IsEntry, entry_value};
ghost use Rattle.wave_judge.specs.OverLeaves.{AreDiagramsOver, IsDiagramOver, IsOperationOver};

use crate::bound::WindowBound;
use crate::fault::WindowFault;
use crate::leaves::literal_diagram;
use cut_window::Window;
use dd_store::{Ref, Store};
use expand_work::Monitor;
use pair_graph::{Graph, Literal, Node};
use req_table::Op;
use std::sync::Wait;
use std::thread::Threads;
use wave_engine::Engine;

/// Returns the diagram of one operation, by a wave of its own.
fn operate<R: Threads + Wait + Sync, G: Monitor>(
    engine: &mut Engine<'_, R, WindowBound<'_, G>>,
    store: &mut Store,
    entry: (Op, Ref, Ref),
) -> Result<Ref, WindowFault>
    requires right { IsRight store.old engine.old.held }
    requires operands { IsEntry store.old entry }
    ensures right { IsRight store.new engine.new.held }
    ensures keeps { Keeps store.old store.new }
    ensures answer { IfOk result (λ r. IsDiagram store.new r (entry_value store.old entry)) }
{
    let _ = store.levels(); // For the proof.
    let answers = engine.wave(store, &[entry])?;
    Ok(answers[0])
}

/// Returns the diagram of an operation on two literals whose nodes have diagrams.
fn build_operation<R: Threads + Wait + Sync, G: Monitor>(
    engine: &mut Engine<'_, R, WindowBound<'_, G>>,
    store: &mut Store,
    graph: &Graph,
    window: &Window,
    refs: &[Ref],
    operation: (Op, Literal, Literal),
) -> Result<Ref, WindowFault>
    requires built { AreDiagramsOver graph.now window.now store.old refs.now }
    requires right { IsRight store.old engine.old.held }
    ensures right { IsRight store.new engine.new.held }
    ensures keeps { Keeps store.old store.new }
    ensures built { IfOk result (IsOperationOver graph.now window.now store.new operation.0 operation.1 operation.2) }
{
    let (op, first, second) = operation;
    let Some(f) = literal_diagram(graph, store, window, refs, first) else {
        return Err(WindowFault::Incomplete);
    };
    let Some(g) = literal_diagram(graph, store, window, refs, second) else {
        return Err(WindowFault::Incomplete);
    };
    let answer = operate(engine, store, (op, f, g))?;
    Ok(answer)
}

/// Returns the diagram of the node at the next place, whose operands have diagrams.
fn build_node<R: Threads + Wait + Sync, G: Monitor>(
    engine: &mut Engine<'_, R, WindowBound<'_, G>>,
    store: &mut Store,
    graph: &Graph,
    window: &Window,
    refs: &[Ref],
    node: u32,
) -> Result<Ref, WindowFault>
    requires built { AreDiagramsOver graph.now window.now store.old refs.now }
    requires right { IsRight store.old engine.old.held }
    requires at { slice_get window.now.nodes (length refs.now) ≡ Some node }
    requires above { window.now.cut ≤ length refs.now }
    ensures right { IsRight store.new engine.new.held }
    ensures keeps { Keeps store.old store.new }
    ensures built { IfOk result (IsDiagramOver graph.now window.now store.new (node_literal node)) }
{
    let _ = window.leaves(); // For the proof.
    if node as usize >= graph.len() {
        return Err(WindowFault::Incomplete);
    }
    match graph.node(node) {
        Node::Constant => Ok(Ref::FALSE),
        Node::Variable(_) => Err(WindowFault::Incomplete),
        Node::And(a, b) => build_operation(engine, store, graph, window, refs, (Op::And, a, b)),
        Node::Xor(a, b) => build_operation(engine, store, graph, window, refs, (Op::Xor, a, b)),
    }
}

/// Builds the diagrams of the nodes above the leaves, each after its operands. Fails with OverBudget if more than
/// `most_requests` requests were expanded.
pub(crate) fn build_above<R: Threads + Wait + Sync, G: Monitor>(
    engine: &mut Engine<'_, R, WindowBound<'_, G>>,
    store: &mut Store,
    graph: &Graph,
    window: &Window,
    refs: &mut Vec<Ref>,
    most_requests: u64,
) -> Result<(), WindowFault>
    requires built { AreDiagramsOver graph.now window.now store.old refs.old.items }
    requires right { IsRight store.old engine.old.held }
    requires each { length refs.old.items ≡ window.now.cut }
    ensures built { OnOk result (AreDiagramsOver graph.now window.now store.new refs.new.items) }
{
    let before = engine.expanded();
    let cut = window.leaves();
    let nodes = window.nodes();
    for place in cut..nodes.len() {
        let _ = store.levels(); // For the proof.
        let built = build_node(engine, store, graph, window, refs.as_slice(), nodes[place])?;
        let Ok(()) = refs.push(built) else {
            return Err(WindowFault::OutOfMemory);
        };
        if engine.expanded().wrapping_sub(before) > most_requests {
            return Err(WindowFault::OverBudget);
        }
    }
    Ok(())
}
