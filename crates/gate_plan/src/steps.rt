//! Plans: the steps of the folds of a netlist's gates, by rank. A gate of several operands is a
//! left fold: a chain of operations on two.
ghost use Rattle.std.specs.Prelude.{◌≡◌, ◌<◌, ◌≤◌, length, map, replicate, IfOk, OnOk};
ghost use Rattle.net_bench.specs.Labels.{is_complemented};
ghost use Rattle.gate_plan.specs.Plans.{IsPlan, rank_at, steps_at, plain_op, last_op, folds_of, step_of, copy_of, AddsAt, AddsSteps};
ghost use Rattle.gate_plan.specs.Plans.{AddsGate, no_steps};

use net_bench::netlist::{GateLine, Kind, Netlist, Signal};
use req_table::Op;
use std::alloc::{AllocError, Global};
use std::marker::Model;

/// One step of a gate's fold: the value of `out` becomes that of the operation on `first` and `second`.
#[derive(Clone, Copy, Debug, PartialEq, Eq)]
pub struct Step {
    /// The gate's signal.
    pub out: Signal,
    pub op: Op,
    /// If it is None, the fold goes on from the value that `out` has so far.
    pub first: Option<Signal>,
    /// The operand that this step adds to the fold.
    pub second: Signal,
}

/// A gate of one operand: it has the value of the operand, or its complement if `complement` is set. It needs no
/// operation.
#[derive(Clone, Copy, Debug, PartialEq, Eq)]
pub struct CopyStep {
    pub out: Signal,
    pub of: Signal,
    pub complement: bool,
}

/// Returns the operation of each step of a gate's fold but the last.
fn plain_op(kind: Kind) -> Op
    ensures { result ≡ plain_op kind }
{
    match kind {
        Kind::And | Kind::Nand | Kind::Not | Kind::Buff | Kind::Dff => Op::And,
        Kind::Or | Kind::Nor => Op::Or,
        Kind::Xor | Kind::Xnor => Op::Xor,
    }
}

/// Returns the operation of a gate's last step, in which NAND, NOR and XNOR complement.
fn last_op(kind: Kind) -> Op
    ensures { result ≡ last_op kind }
{
    match kind {
        Kind::And | Kind::Buff | Kind::Dff => Op::And,
        Kind::Nand | Kind::Not => Op::Nand,
        Kind::Or => Op::Or,
        Kind::Nor => Op::Nor,
        Kind::Xor => Op::Xor,
        Kind::Xnor => Op::Xnor,
    }
}

fn is_complemented(kind: Kind) -> bool
    ensures { result ≡ is_complemented kind }
{
    matches!(kind, Kind::Nand | Kind::Nor | Kind::Xnor | Kind::Not)
}

/// Returns the copy that a gate is, if it has one operand.
fn copy_of(gate: &GateLine) -> Option<CopyStep>
    requires { 0 < length gate.now.operands }
    ensures { result ≡ copy_of gate.now }
{
    let operands = gate.operands.as_slice();
    if operands.len() == 1 {
        Some(CopyStep {
            out: gate.out,
            of: operands[0],
            complement: is_complemented(gate.kind),
        })
    } else {
        None
    }
}

/// Returns the number of steps of a gate's fold.
fn folds_of(gate: &GateLine) -> usize
    requires { 0 < length gate.now.operands }
    ensures { result ≡ folds_of gate.now }
{
    let operands = gate.operands.as_slice();
    operands.len() - 1
}

/// Returns step `fold` of a gate's fold, if it has one.
fn step_of(gate: &GateLine, fold: usize) -> Option<Step>
    requires { 0 < length gate.now.operands }
    ensures { result ≡ step_of gate.now fold }
{
    if fold >= folds_of(gate) {
        return None;
    }
    let operands = gate.operands.as_slice();
    let is_last = fold + 2 == operands.len();
    Some(Step {
        out: gate.out,
        op: if is_last {
            last_op(gate.kind)
        } else {
            plain_op(gate.kind)
        },
        first: if fold == 0 { Some(operands[0]) } else { None },
        second: operands[fold + 1],
    })
}

/// Adds an item to the list at a place. If there are only lists before the place, a new one is made.
fn add_at<T: Drop>(
    alloc: Global,
    lists: &mut Vec<Vec<T>>,
    place: usize,
    item: T,
) -> Result<(), AllocError>
    requires { place ≤ length lists.old.items }
    ensures { OnOk result (AddsAt (map (λ row. row.items) lists.old.items) place item (map (λ row. row.items) lists.new.items)) }
{
    if place == lists.len() {
        lists.push(Vec::new(alloc))?;
    }
    lists[place].push(item)?;
    Ok(())
}

/// Adds the steps of a gate to the lists of steps by fold number.
fn add_steps(alloc: Global, folds: &mut Vec<Vec<Step>>, gate: &GateLine) -> Result<(), AllocError>
    requires { 0 < length gate.now.operands }
    ensures { OnOk result (AddsSteps (map (λ row. row.items) folds.old.items) gate.now (map (λ row. row.items) folds.new.items)) }
{
    let operands = gate.operands.as_slice();
    for fold in 0..operands.len() {
        if let Some(step) = step_of(gate, fold) {
            add_at(alloc, folds, fold, step)?;
        }
    }
    Ok(())
}

/// The copies and steps of the gates of one rank.
#[derive(Drop)]
struct RankPlan {
    copies: Vec<CopyStep>,
    folds: Vec<Vec<Step>>,
}

impl Model for RankPlan {
    ghost use Rattle.std.specs.Prelude.{map};
    ghost use Rattle.gate_plan.specs.Plans.{RankSteps};

    ghost Value = { RankSteps };

    ghost view = { λ r. record { copies = r.copies.items; folds = map (λ row. row.items) r.folds.items } };
}

impl RankPlan {
    fn new(alloc: Global) -> RankPlan
        ensures { result ≡ no_steps }
    {
        RankPlan {
            copies: Vec::new(alloc),
            folds: Vec::new(alloc),
        }
    }

    /// Adds the copy or the steps of a gate.
    fn add_gate(&mut self, alloc: Global, gate: &GateLine) -> Result<(), AllocError>
        requires { 0 < length gate.now.operands }
        ensures { OnOk result (AddsGate self.old gate.now self.new) }
    {
        if let Some(copied) = copy_of(gate) {
            self.copies.push(copied)?;
        }
        add_steps(alloc, &mut self.folds, gate)
    }
}

/// Returns `count` ranks without gates.
fn empty_ranks(alloc: Global, count: usize) -> Result<Vec<RankPlan>, AllocError>
    ensures { IfOk result (λ v. v.items ≡ replicate count no_steps) }
{
    let mut ranks = Vec::new(alloc);
    for _ in 0..count {
        ranks.push(RankPlan::new(alloc))?;
    }
    Ok(ranks)
}

/// The copies and steps of all gates of a netlist: by rank the copies, and for each fold number the steps.
#[derive(Drop)]
pub struct Plan {
    ranks: Vec<RankPlan>,
}

impl Model for Plan {
    ghost use Rattle.std.specs.Prelude.{List};
    ghost use Rattle.gate_plan.specs.Plans.{RankSteps};

    ghost Value = { List RankSteps };

    ghost view = { λ p. p.ranks.items };
}

impl Plan {
    /// Makes the plan of a netlist, in time that is linear in its gates and operands. Fails if memory is refused.
    pub fn new(alloc: Global, netlist: &Netlist) -> Result<Plan, AllocError>
        ensures { IfOk result (λ p. IsPlan netlist.now p) }
    {
        let mut ranks = empty_ranks(alloc, netlist.highest_rank())?;
        for gate in netlist.gates() {
            let rank = netlist.rank(gate.out) as usize;
            ranks[rank - 1].add_gate(alloc, gate)?;
        }
        Ok(Plan { ranks })
    }

    /// Returns the greatest rank of a gate.
    pub fn ranks(&self) -> usize
        ensures { result ≡ length self.now }
    {
        self.ranks.len()
    }

    /// Returns how many fold numbers the gates of a rank have: 0 if there are only copies.
    pub fn folds(&self, rank: usize) -> usize
        requires first { 1 ≤ rank }
        requires last { rank ≤ length self.now }
        ensures { result ≡ length (rank_at self.now rank).folds }
    {
        self.ranks[rank - 1].folds.len()
    }

    /// Returns the steps of a rank and a fold number, in the order of the text.
    pub fn steps(&self, rank: usize, fold: usize) -> &[Step]
        requires first { 1 ≤ rank }
        requires last { rank ≤ length self.now }
        requires fold { fold < length (rank_at self.now rank).folds }
        ensures { result.now ≡ steps_at self.now rank fold }
    {
        self.ranks[rank - 1].folds[fold].as_slice()
    }

    /// Returns the copies of a rank, in the order of the text.
    pub fn copies(&self, rank: usize) -> &[CopyStep]
        requires first { 1 ≤ rank }
        requires last { rank ≤ length self.now }
        ensures { result.now ≡ (rank_at self.now rank).copies }
    {
        self.ranks[rank - 1].copies.as_slice()
    }
}
