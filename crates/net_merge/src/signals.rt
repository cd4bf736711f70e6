//! A literal for each signal of a netlist: first for the variables, then for the gates by rising rank.
ghost use Rattle.std.specs.Prelude.{◌≡◌, ◌<◌, Bool, List, IfOk, OnOk, length, map, slice_index, slice_index_or, slice_set};
ghost use Rattle.net_bench.specs.Circuit.{circuit, variables_of};
ghost use Rattle.net_bench.specs.Labels.{value_of};
ghost use Rattle.net_simulate.specs.Schedules.{Equation, IsSchedule};
ghost use Rattle.pair_graph.specs.Graphs.{HasNode, IsGraph, KeepsNodes, value};
ghost use Rattle.net_merge.specs.Merging.{AreSettled};
ghost use Rattle.net_merge.specs.SignalLiterals.{AreGatesDone, AreSignalLiterals, AreVariablesDone, HaveNodes, literal_at};

use crate::gate::gate_literal;
use crate::merged_graph::MergedGraph;
use expand_work::Monitor;
use net_bench::netlist::{Netlist, Signal};
use net_simulate::{Schedule, schedule_of};
use pair_graph::{GraphFault, Literal};
use std::alloc::{AllocError, Global};
use std::sync::Wait;
use std::thread::Threads;

/// A netlist with the levels of its variables.
#[derive(Clone, Copy, Drop)]
pub struct LevelledNetlist<'a> {
    pub net: &'a Netlist,
    /// For the signal of each variable its level. A signal beyond the end has level 0.
    pub levels: &'a [u32],
}

/// The literal of a signal; the constant 0 beyond the end.
pub(crate) fn literal_of(literals: &[Literal], signal: Signal) -> Literal
    ensures { result ≡ literal_at literals.now signal }
{
    match literals.get(signal.number() as usize) {
        Some(literal) => *literal,
        None => Literal::FALSE,
    }
}

/// The level of a signal; 0 beyond the end.
fn level_of(levels: &[u32], signal: Signal) -> u32
    ensures { result ≡ slice_index levels.now signal }
{
    match levels.get(signal.number() as usize) {
        Some(level) => *level,
        None => 0,
    }
}

/// Sets the literal of a signal. Beyond the end nothing is written.
#[tactic(auto, using(crate::proofs::Past::set_past))]
fn put(literals: &mut [Literal], signal: Signal, literal: Literal)
    ensures { literals.new ≡ slice_set literals.old signal literal }
{
    let place = signal.number() as usize;
    if place >= literals.len() {
        return;
    }
    literals[place] = literal;
}

/// The literals of signals, in their order.
fn operand_literals(
    alloc: Global,
    literals: &[Literal],
    signals: &[Signal],
) -> Result<Vec<Literal>, AllocError>
    ensures { IfOk result (λ found. found.items ≡ map (literal_at literals.now) signals.now) }
{
    let mut found = Vec::new(alloc);
    for signal in signals {
        found.push(literal_of(literals, *signal))?;
    }
    Ok(found)
}

/// Gives the variables of a netlist their literals.
fn add_variables<R: Threads + Wait + Sync, G: Monitor>(
    netlist: &LevelledNetlist<'_>,
    graph: &mut MergedGraph<'_, R, G>,
    literals: &mut [Literal],
) -> Result<(), GraphFault>
    requires start { AreVariablesDone (circuit netlist.now.net.now) (slice_index netlist.now.levels.now) graph.old 0 literals.old }
    ensures done { OnOk result (AreVariablesDone (circuit netlist.now.net.now) (slice_index netlist.now.levels.now) graph.new
        (length (variables_of (circuit netlist.now.net.now))) literals.new) }
    ensures keeps { KeepsNodes graph.old graph.new }
    ensures sound { IsGraph graph.new }
{
    let _ = graph.len(); // For the proof.
    let variables = netlist.net.variables();
    for place in 0..variables.len() {
        let signal = variables[place];
        let literal = graph.variable(level_of(netlist.levels, signal))?;
        put(literals, signal, literal);
    }
    Ok(())
}

/// The literal of the gate at a place of a schedule, from those of its operands.
fn scheduled_literal<R: Threads + Wait + Sync, G: Monitor>(
    alloc: Global,
    graph: &mut MergedGraph<'_, R, G>,
    schedule: &Schedule,
    place: usize,
    literals: &[Literal],
) -> Result<Literal, GraphFault>
    requires place { place < length schedule.now }
    requires has { HaveNodes graph.old literals.now }
    ensures value { IfOk result (λ l. (d : Equation) (x : List Bool) → let e = slice_index_or schedule.now place d in
        value graph.new x l ≡ value_of e.kind (map (λ s. value graph.old x (literal_at literals.now s)) e.operands)) }
    ensures has { IfOk result (HasNode graph.new) }
    ensures sound { IsGraph graph.new }
    ensures keeps { KeepsNodes graph.old graph.new }
{
    let _ = graph.len(); // For the proof.
    let gate = schedule.gate(place);
    let operands = operand_literals(alloc, literals, gate.operands)?;
    let literal = gate_literal(graph, gate.kind, operands.as_slice())?;
    Ok(literal)
}

/// Gives the gates of a netlist their literals, in the order of its schedule.
fn add_gates<R: Threads + Wait + Sync, G: Monitor>(
    alloc: Global,
    netlist: &LevelledNetlist<'_>,
    schedule: &Schedule,
    graph: &mut MergedGraph<'_, R, G>,
    literals: &mut [Literal],
) -> Result<(), GraphFault>
    requires schedule { IsSchedule netlist.now.net.now schedule.now }
    requires start { AreGatesDone (circuit netlist.now.net.now) (slice_index netlist.now.levels.now) schedule.now graph.old 0 literals.old }
    ensures done { OnOk result (AreSignalLiterals (circuit netlist.now.net.now) (slice_index netlist.now.levels.now) graph.new literals.new) }
    ensures keeps { KeepsNodes graph.old graph.new }
    ensures sound { IsGraph graph.new }
{
    let _ = (graph.len(), netlist.net.count()); // For the proof.
    for place in 0..schedule.len() {
        let literal = scheduled_literal(alloc, graph, schedule, place, literals)?;
        put(literals, schedule.gate(place).out, literal);
    }
    Ok(())
}

/// The representatives of literals.
fn settled_literals<R: Threads + Wait + Sync, G: Monitor>(
    alloc: Global,
    graph: &mut MergedGraph<'_, R, G>,
    literals: &[Literal],
) -> Result<Vec<Literal>, AllocError>
    ensures settled { IfOk result (λ v. AreSettled graph.old literals.now v.items) }
    ensures unchanged { graph.new ≡ graph.old }
{
    let _ = graph.len(); // For the proof.
    let mut settled = Vec::new(alloc);
    for place in 0..literals.len() {
        let literal = graph.settled(literals[place])?;
        settled.push(literal)?;
    }
    Ok(settled)
}

/// Adds a netlist to the graph, and returns the literal of each signal. Nodes and literals that are there already are kept.
pub(crate) fn add_netlist<R: Threads + Wait + Sync, G: Monitor>(
    alloc: Global,
    netlist: &LevelledNetlist<'_>,
    graph: &mut MergedGraph<'_, R, G>,
) -> Result<Vec<Literal>, GraphFault>
    ensures literals { IfOk result (λ ls. AreSignalLiterals (circuit netlist.now.net.now) (slice_index netlist.now.levels.now) graph.new
        ls.items) }
    ensures keeps { KeepsNodes graph.old graph.new }
    ensures sound { IsGraph graph.new }
{
    let _ = graph.len(); // For the proof.
    let net = netlist.net;
    let schedule = schedule_of(alloc, net)?;
    let mut literals = Vec::from_elem(alloc, Literal::FALSE, net.count())?;
    let slice = literals.as_mut_slice();
    add_variables(netlist, graph, slice)?;
    add_gates(alloc, netlist, &schedule, graph, slice)?;
    let settled = settled_literals(alloc, graph, slice)?;
    Ok(settled)
}
