//! The netlists that are compared, and their evaluation at a block of assignments.
ghost use Rattle.std.specs.Prelude.{◌≡◌, ◌<◌, ◌↔◌, ℕ, true, Option, length, IfOk};
ghost use Rattle.net_bench.specs.Circuit.{Circuit, circuit};
ghost use Rattle.net_bench.specs.Labels.{Computes};
ghost use Rattle.net_order.specs.Order.{NamingModel, condition, first_level, given_level};
ghost use Rattle.net_simulate.specs.Columns.{bit_in_block, column};
ghost use Rattle.net_patterns.specs.Differences.{HoldsAt, IsDifferenceAt, IsPairOf};
ghost use Rattle.net_patterns.specs.Simulated.{AreApart, AreKept, AreOf, HaveOutput, IsKeptCondition, IsOfCondition, first_bit};

use crate::simulator::Simulator;
use net_bench::netlist::Netlist;
use net_order::naming::Naming;
use net_order::netlist_role::NetlistRole;
use net_simulate::{Block, all_bits};
use std::alloc::{AllocError, Global};

/// Two netlists, a condition if there is one, and the naming that pairs their variables.
#[derive(Clone, Copy, Drop)]
pub struct Netlists<'a, 'n> {
    pub first: &'a Netlist,
    pub second: &'a Netlist,
    pub given: Option<&'a Netlist>,
    pub naming: &'n Naming,
}

/// The same, prepared for evaluation.
#[derive(Drop)]
pub(crate) struct Sides<'a> {
    pub(crate) first: Simulator<'a>,
    pub(crate) second: Simulator<'a>,
    pub(crate) given: Option<Simulator<'a>>,
}

/// The condition, prepared for evaluation, if there is one.
fn condition_of<'a>(
    alloc: Global,
    given: Option<&'a Netlist>,
    naming: &Naming,
) -> Result<Option<Simulator<'a>>, AllocError>
    ensures { IfOk result (IsOfCondition (condition given.entry) (given_level naming.now)) }
{
    match given {
        None => Ok(None),
        Some(net) => Ok(Some(Simulator::new(alloc, net, naming, NetlistRole::Given)?)),
    }
}

/// The netlists and the condition, prepared for evaluation. Time and memory are linear in them.
pub(crate) fn sides_of<'a>(
    alloc: Global,
    netlists: &Netlists<'a, '_>,
) -> Result<Sides<'a>, AllocError>
    ensures { IfOk result (λ s. AreOf (circuit netlists.now.first.now) (circuit netlists.now.second.now)
        (condition netlists.now.given) netlists.now.naming.now s) }
{
    let first = Simulator::new(alloc, netlists.first, netlists.naming, NetlistRole::First)?;
    let second = Simulator::new(alloc, netlists.second, netlists.naming, NetlistRole::Second)?;
    let given = condition_of(alloc, netlists.given, netlists.naming)?;
    Ok(Sides {
        first,
        second,
        given,
    })
}

/// Evaluates the condition at the assignments of a block. The result has a 1 for each assignment at which it holds.
fn evaluate_condition(given: &mut Option<Simulator<'_>>, at: &[Block]) -> Block
    requires { HaveOutput given.old }
    ensures kept { IsKeptCondition given.old given.new }
    ensures holds { (c : Option Circuit) (p : NamingModel) → IsOfCondition c (given_level p) given.old
        → (i : ℕ) → i < 512 → (bit_in_block i result ≡ true) ↔ HoldsAt c p (column bit_in_block i at.now) }
{
    match given {
        None => all_bits(),
        Some(condition) => {
            condition.evaluate(at);
            condition.output()
        }
    }
}

/// Evaluates all netlists at the assignments of a block, whose bits are given by level. The result has a 1 for each
/// assignment at which the condition holds.
pub(crate) fn evaluate(sides: &mut Sides<'_>, at: &[Block]) -> Block
    requires { HaveOutput sides.old.given }
    ensures kept { AreKept sides.old sides.new }
    // A pair differs at an assignment exactly if its values do in that bit.
    ensures shown { (a b : Circuit) (given : Option Circuit) (p : NamingModel) → AreOf a b given p sides.old
        → (pair : ℕ × ℕ) → IsPairOf a b pair → length at.now ≡ length p.names → (i : ℕ) → i < 512
        → IsDifferenceAt a b given p pair (column bit_in_block i at.now) ↔ AreApart sides.new result pair i }
    // In that bit its first signal has the value of its function.
    ensures first { (a b : Circuit) (given : Option Circuit) (p : NamingModel) → AreOf a b given p sides.old
        → (pair : ℕ × ℕ) (i : ℕ) → i < 512
        → Computes a (first_level p) pair.0 (column bit_in_block i at.now) (first_bit sides.new pair i) }
{
    sides.first.evaluate(at);
    sides.second.evaluate(at);
    evaluate_condition(&mut sides.given, at)
}
