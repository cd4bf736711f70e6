//! The netlists that are built together, and the references of their signals.
ghost use Rattle.std.specs.Prelude.{◌≡◌, ◌<◌, ◌≤◌, ℕ, Contains, length, map, IfOk, OnOk, All};
ghost use Rattle.net_bench.specs.Circuit.{circuit, greatest, variables_of};
ghost use Rattle.gate_plan.specs.Plans.{IsPlan, plan_steps, plan_copies, plan_folds};
ghost use Rattle.gate_plan.specs.Building.{PlannedNet, circuits_of, ranks_of, folds_at, input_level, AddsPlannedNet, AreInputs, ArePlannedNets};
ghost use Rattle.gate_plan.specs.Building.{AreCopied, ForEachNetlist, IsCopyBelow, IsStepBelow, answered_all, asked, copied_all};

use crate::circuits::Circuits;
use crate::folds::{add_entries, copy_all, take_answers};
use crate::inputs::input_references;
use crate::steps::{CopyStep, Plan, Step};
use dd_store::Ref;
use net_bench::netlist::Netlist;
use net_order::netlist_role::NetlistRole;
use net_order::pairing::Pairing;
use req_table::Op;
use std::alloc::{AllocError, Global};
use std::marker::Model;

/// A reference for each signal of a netlist, by number. It is the signal's diagram once the signal's rank is built.
#[derive(Drop)]
pub struct NetlistDiagrams {
    references: Vec<Ref>,
}

impl Model for NetlistDiagrams {
    ghost use Rattle.std.specs.Prelude.{List};
    ghost use Rattle.dd_store.specs.declared.reference.Ref.{Ref};

    ghost Value = { List Ref };

    ghost view = { λ d. d.references.items };
}

impl NetlistDiagrams {
    /// Returns the references by signal.
    pub fn as_slice(&self) -> &[Ref]
        ensures { result.now ≡ self.now }
    {
        self.references.as_slice()
    }

    /// Gives each gate with one operand its operand's reference, or the complement.
    fn copy(&mut self, copies: &[CopyStep])
        requires { All (IsCopyBelow (length self.old)) copies.now }
        ensures { self.new ≡ copied_all self.old copies.now }
    {
        copy_all(&mut self.references, copies);
    }

    /// Gives each step's gate the answer of the step's operation.
    pub fn take(&mut self, steps: &[Step], answers: &[Ref])
        requires below { All (IsStepBelow (length self.old)) steps.now }
        requires one_answer_per_step { length answers.now ≡ length steps.now }
        ensures { self.new ≡ answered_all self.old steps.now answers.now }
    {
        take_answers(&mut self.references, steps, answers);
    }
}

/// One of the netlists that are built over the variables of a pairing, with the plan of its gates.
#[derive(Drop)]
pub struct PlannedNetlist<'a> {
    netlist: &'a Netlist,
    pairing: &'a Pairing,
    which: NetlistRole,
    plan: Plan,
}

impl<'a> Model for PlannedNetlist<'a> {
    ghost use Rattle.gate_plan.specs.Building.{PlannedNet};

    ghost Value = { PlannedNet };

    ghost view = { λ s. record { net = s.netlist.now; which = s.which; pairing = s.pairing.now; plan = s.plan } };
}

impl<'a> PlannedNetlist<'a> {
    /// Returns a netlist of a pairing, with the plan of its gates. Fails if memory is refused.
    fn new(
        alloc: Global,
        netlist: &'a Netlist,
        pairing: &'a Pairing,
        which: NetlistRole,
    ) -> Result<PlannedNetlist<'a>, AllocError>
        ensures plan { IfOk result (λ side. IsPlan netlist.entry.now side.plan) }
        ensures fields { IfOk result (λ side.
            side ≡ record { net = netlist.entry.now; which = which; pairing = pairing.entry.now; plan = side.plan }) }
    {
        let plan = Plan::new(alloc, netlist)?;
        Ok(PlannedNetlist {
            netlist,
            pairing,
            which,
            plan,
        })
    }

    /// Returns the greatest rank of a gate.
    fn ranks(&self) -> usize
        ensures { result ≡ length self.now.plan }
    {
        self.plan.ranks()
    }

    /// Returns a reference for each signal: the variable of an input or register, and False for each gate.
    fn inputs(&self, alloc: Global, variables: &[Ref]) -> Result<Vec<Ref>, AllocError>
        requires { (s : ℕ) → Contains (variables_of (circuit self.now.net)) s → input_level self.now s < length variables.now }
        ensures { IfOk result (λ v. AreInputs self.now.net (input_level self.now) variables.now v.items) }
    {
        input_references(alloc, self.netlist, self.pairing, self.which, variables)
    }

    /// Returns the copies of a rank, none after the last rank.
    fn copies(&self, rank: usize) -> &[CopyStep]
        requires first { 1 ≤ rank }
        requires plan { IsPlan self.now.net self.now.plan }
        ensures { result.now ≡ plan_copies self.now.net self.now.net.gates rank }
    {
        if rank <= self.ranks() {
            self.plan.copies(rank)
        } else {
            &[]
        }
    }

    /// Returns the number of folds of a rank, 0 after the last rank.
    fn folds(&self, rank: usize) -> usize
        requires first { 1 ≤ rank }
        requires plan { IsPlan self.now.net self.now.plan }
        ensures { result ≡ plan_folds self.now.net self.now.net.gates rank }
    {
        if rank <= self.ranks() {
            self.plan.folds(rank)
        } else {
            0
        }
    }

    /// Returns the steps of a rank and a fold number, none after the last fold.
    pub fn steps(&self, rank: usize, fold: usize) -> &[Step]
        requires first { 1 ≤ rank }
        requires plan { IsPlan self.now.net self.now.plan }
        ensures { result.now ≡ plan_steps self.now.net self.now.net.gates rank fold }
    {
        if fold < self.folds(rank) {
            self.plan.steps(rank, fold)
        } else {
            &[]
        }
    }
}

/// Adds a netlist of a pairing, with the plan of its gates, at the end of a list.
fn add_side<'a>(
    alloc: Global,
    sides: &mut Vec<PlannedNetlist<'a>>,
    netlist: &'a Netlist,
    pairing: &'a Pairing,
    which: NetlistRole,
) -> Result<(), AllocError>
    ensures { OnOk result (AddsPlannedNet sides.old.items netlist.entry.now which pairing.entry.now sides.new.items) }
{
    let side = PlannedNetlist::new(alloc, netlist, pairing, which)?;
    sides.push(side)?;
    Ok(())
}

/// Returns the netlists of a pairing, each with the plan of its gates: the first, the second, and the condition if
/// there is one.
pub fn sides_of<'a>(
    alloc: Global,
    circuits: &Circuits<'a>,
) -> Result<Vec<PlannedNetlist<'a>>, AllocError>
    ensures { let c = circuits_of circuits.now in IfOk result (λ sides. ArePlannedNets c.first c.second c.given c.pairing sides.items) }
{
    let pairing = circuits.pairing;
    let mut sides = Vec::new(alloc);
    add_side(
        alloc,
        &mut sides,
        circuits.first,
        pairing,
        NetlistRole::First,
    )?;
    add_side(
        alloc,
        &mut sides,
        circuits.second,
        pairing,
        NetlistRole::Second,
    )?;
    if let Some(given) = circuits.given {
        add_side(alloc, &mut sides, given, pairing, NetlistRole::Given)?;
    }
    Ok(sides)
}

/// Returns the greatest rank of a gate of all netlists.
pub fn last_rank(sides: &[PlannedNetlist<'_>]) -> usize
    ensures { result ≡ greatest (map ranks_of sides.now) }
{
    let mut last = 0;
    for i in 0..sides.len() {
        let side = &sides[i];
        last = side.ranks().max(last);
    }
    last
}

/// Returns the greatest number of folds of a rank in any netlist.
pub fn most_folds(sides: &[PlannedNetlist<'_>], rank: usize) -> usize
    requires first { 1 ≤ rank }
    requires plans { (one : PlannedNet) → Contains sides.now one → IsPlan one.net one.plan }
    ensures { result ≡ greatest (map (folds_at rank) sides.now) }
{
    let mut most = 0;
    for i in 0..sides.len() {
        let side = &sides[i];
        most = side.folds(rank).max(most);
    }
    most
}

/// Returns the references of all netlists before the first rank.
pub fn input_diagrams(
    alloc: Global,
    sides: &[PlannedNetlist<'_>],
    variables: &[Ref],
) -> Result<Vec<NetlistDiagrams>, AllocError>
    requires { (one : PlannedNet) → Contains sides.now one → (s : ℕ) → Contains (variables_of (circuit one.net)) s
        → input_level one s < length variables.now }
    ensures { IfOk result (λ built. ForEachNetlist (λ one refs. AreInputs one.net (input_level one) variables.now refs) sides.now built.items) }
{
    let mut built = Vec::new(alloc);
    for i in 0..sides.len() {
        let side = &sides[i];
        let references = side.inputs(alloc, variables)?;
        built.push(NetlistDiagrams { references })?;
    }
    Ok(built)
}

/// Does the copies of a rank in all netlists.
pub fn copy_rank(sides: &[PlannedNetlist<'_>], built: &mut [NetlistDiagrams], rank: usize)
    requires first { 1 ≤ rank }
    requires plans { (one : PlannedNet) → Contains sides.now one → IsPlan one.net one.plan }
    requires below { ForEachNetlist (λ one refs. All (IsCopyBelow (length refs)) (plan_copies one.net one.net.gates rank)) sides.now built.old }
    ensures { AreCopied sides.now built.old built.new rank }
{
    for i in 0..sides.len() {
        let side = &sides[i];
        let diagrams = &mut built[i];
        diagrams.copy(side.copies(rank));
    }
}

/// Returns the operations of the steps of a rank and a fold number, netlist after netlist.
pub fn entries_of(
    alloc: Global,
    sides: &[PlannedNetlist<'_>],
    built: &[NetlistDiagrams],
    rank: usize,
    fold: usize,
) -> Result<Vec<(Op, Ref, Ref)>, AllocError>
    requires first { 1 ≤ rank }
    requires plans { (one : PlannedNet) → Contains sides.now one → IsPlan one.net one.plan }
    requires below { ForEachNetlist (λ one refs. All (IsStepBelow (length refs)) (plan_steps one.net one.net.gates rank fold)) sides.now built.now }
    ensures { IfOk result (λ entries. entries.items ≡ asked sides.now built.now rank fold) }
{
    let mut entries = Vec::new(alloc);
    for i in 0..sides.len() {
        let side = &sides[i];
        let diagrams = &built[i];
        add_entries(&mut entries, diagrams.as_slice(), side.steps(rank, fold))?;
    }
    Ok(entries)
}
