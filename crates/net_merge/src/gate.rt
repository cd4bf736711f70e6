//! The literal of a gate: a fold of its operands' literals, and its complement for the kinds that have one.
ghost use Rattle.std.specs.Prelude.{◌≡◌, Bool, List, All, IfOk, map};
ghost use Rattle.net_bench.specs.Labels.{all_ones, folded, is_complemented, odd, some_one, value_of};
ghost use Rattle.pair_graph.specs.Graphs.{HasNode, IsGraph, KeepsNodes, inverted_if, value};

use crate::merged_graph::MergedGraph;
use expand_work::Monitor;
use net_bench::netlist::Kind;
use pair_graph::{GraphFault, Literal};
use std::sync::Wait;
use std::thread::Threads;

/// The And of these literals, or of their complements if `complemented` is true.
fn and_all<R: Threads + Wait + Sync, G: Monitor>(
    graph: &mut MergedGraph<'_, R, G>,
    operands: &[Literal],
    complemented: bool,
) -> Result<Literal, GraphFault>
    requires operands { All (HasNode graph.old) operands.now }
    ensures value { IfOk result (λ l. (x : List Bool) →
        value graph.new x l ≡ all_ones (map (λ o. inverted_if complemented (value graph.old x o)) operands.now)) }
    ensures has { IfOk result (HasNode graph.new) }
    ensures sound { IsGraph graph.new }
    ensures keeps { KeepsNodes graph.old graph.new }
{
    let _ = graph.len(); // For the proof.
    let mut answer = Literal::TRUE;
    for operand in operands {
        answer = graph.and_of(answer, operand.complement_if(complemented))?;
    }
    Ok(answer)
}

/// The Or of literals.
fn or_all<R: Threads + Wait + Sync, G: Monitor>(
    graph: &mut MergedGraph<'_, R, G>,
    operands: &[Literal],
) -> Result<Literal, GraphFault>
    requires operands { All (HasNode graph.old) operands.now }
    ensures value { IfOk result (λ l. (x : List Bool) → value graph.new x l ≡ some_one (map (value graph.old x) operands.now)) }
    ensures has { IfOk result (HasNode graph.new) }
    ensures sound { IsGraph graph.new }
    ensures keeps { KeepsNodes graph.old graph.new }
{
    let none = and_all(graph, operands, true)?;
    Ok(none.negate())
}

/// The Xor of literals.
fn xor_all<R: Threads + Wait + Sync, G: Monitor>(
    graph: &mut MergedGraph<'_, R, G>,
    operands: &[Literal],
) -> Result<Literal, GraphFault>
    requires operands { All (HasNode graph.old) operands.now }
    ensures value { IfOk result (λ l. (x : List Bool) → value graph.new x l ≡ odd (map (value graph.old x) operands.now)) }
    ensures has { IfOk result (HasNode graph.new) }
    ensures sound { IsGraph graph.new }
    ensures keeps { KeepsNodes graph.old graph.new }
{
    let _ = graph.len(); // For the proof.
    let mut answer = Literal::FALSE;
    for operand in operands {
        answer = graph.xor_of(answer, *operand)?;
    }
    Ok(answer)
}

/// Whether a gate's value is the complement of the folded one.
fn is_complemented(kind: Kind) -> bool
    ensures { result ≡ is_complemented kind }
{
    matches!(kind, Kind::Nand | Kind::Nor | Kind::Xnor | Kind::Not)
}

/// The literal of the operation that folds the operands of a gate of this kind: And, Or or Xor.
fn folded_literal<R: Threads + Wait + Sync, G: Monitor>(
    graph: &mut MergedGraph<'_, R, G>,
    kind: Kind,
    operands: &[Literal],
) -> Result<Literal, GraphFault>
    requires operands { All (HasNode graph.old) operands.now }
    ensures value { IfOk result (λ l. (x : List Bool) → value graph.new x l ≡ folded kind (map (value graph.old x) operands.now)) }
    ensures has { IfOk result (HasNode graph.new) }
    ensures sound { IsGraph graph.new }
    ensures keeps { KeepsNodes graph.old graph.new }
{
    match kind {
        Kind::And | Kind::Nand | Kind::Not | Kind::Buff | Kind::Dff => {
            and_all(graph, operands, false)
        }
        Kind::Or | Kind::Nor => or_all(graph, operands),
        Kind::Xor | Kind::Xnor => xor_all(graph, operands),
    }
}

/// The literal of a gate: at every assignment it has the gate's value for the values of its operands' literals. No node
/// is lost, also if the graph refuses a new one.
pub(crate) fn gate_literal<R: Threads + Wait + Sync, G: Monitor>(
    graph: &mut MergedGraph<'_, R, G>,
    kind: Kind,
    operands: &[Literal],
) -> Result<Literal, GraphFault>
    requires operands { All (HasNode graph.old) operands.now }
    ensures value { IfOk result (λ l. (x : List Bool) → value graph.new x l ≡ value_of kind (map (value graph.old x) operands.now)) }
    ensures has { IfOk result (HasNode graph.new) }
    ensures sound { IsGraph graph.new }
    ensures keeps { KeepsNodes graph.old graph.new }
{
    let folded = folded_literal(graph, kind, operands)?;
    Ok(folded.complement_if(is_complemented(kind)))
}
