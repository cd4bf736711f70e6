//! The variables below signals, as depth-first walks with a stack of their own meet them. A walk opens each gate once.
ghost use Rattle.std.specs.Prelude.{◌≡◌, ◌<◌, ◌==◌, ◌∷◌, ◌++◌, [], length, map, fold, find, reverse, OnOk, IfOk, MatchOption, All, IsTrue};
ghost use Rattle.std.specs.Prelude.{None};
ghost use Rattle.net_bench.specs.Circuit.{IsNet, circuit, variables_of};
ghost use Rattle.net_order.specs.Order.{below, is_member, met, met_below, in_walk_order, with_number};
ghost use Rattle.net_order.specs.Walk.{AreOrderedOperands, IsWalkToOutcome, IsBetweenWalks, IsStepsOf, IsWalk, entered, outcome, steps_left};

use crate::falling_rank::by_rank;
use crate::roots::roots_of;
use net_bench::netlist::{Netlist, Role, Signal};
use std::alloc::{AllocError, Global};

/// In which order a walk takes the operands of a gate.
#[derive(Clone, Copy, Debug, PartialEq, Eq)]
pub enum OperandOrder {
    /// From left to right.
    Written,
    /// By falling rank, those of equal rank from left to right.
    ByRank,
}

/// An item of the stack: a signal that is still to be entered, or a gate whose operands have been walked when its turn comes.
#[derive(Clone, Copy, Debug)]
pub enum Frame {
    Enter(u32),
    Leave(u32),
}

/// A netlist with the order in which walks take operands.
#[derive(Drop)]
pub struct OrderedNetlist<'a> {
    pub net: &'a Netlist,
    pub operand_order: OperandOrder,
    /// For each gate its operands in the order in which walks take them.
    pub steps: Vec<Vec<Signal>>,
}

/// The operands of a gate in the order in which walks take them.
fn in_walk_order(
    alloc: Global,
    net: &Netlist,
    operand_order: OperandOrder,
    operands: &[Signal],
) -> Result<Vec<Signal>, AllocError>
    requires { All (λ s. s < length net.now.names) operands.now }
    ensures { IfOk result (λ v. v.items ≡ in_walk_order operand_order (circuit net.now) operands.now) }
{
    match operand_order {
        OperandOrder::Written => Vec::from_slice(alloc, operands),
        OperandOrder::ByRank => by_rank(alloc, net, operands),
    }
}

/// Appends a list.
fn push_list(lists: &mut Vec<Vec<Signal>>, list: Vec<Signal>) -> Result<(), AllocError>
    ensures { OnOk result (map (λ l. l.items) lists.new.items ≡ map (λ l. l.items) lists.old.items ++ list.items ∷ []) }
{
    lists.push(list)?;
    Ok(())
}

/// For each gate its operands in the order in which walks take them.
fn all_in_walk_order(
    alloc: Global,
    net: &Netlist,
    operand_order: OperandOrder,
) -> Result<Vec<Vec<Signal>>, AllocError>
    ensures sound { IsNet net.now }
    ensures lists { IfOk result (λ v. map (λ l. l.items) v.items ≡ map (λ g. in_walk_order operand_order (circuit net.now) g.operands) net.now.gates) }
{
    let mut steps = Vec::new(alloc);
    let gates = net.gates();
    for gate in gates {
        let list = in_walk_order(alloc, net, operand_order, gate.operands.as_slice())?;
        push_list(&mut steps, list)?;
    }
    Ok(steps)
}

/// The netlist, for walks that take operands in this order.
pub fn ordered_netlist<'a>(
    alloc: Global,
    net: &'a Netlist,
    operand_order: OperandOrder,
) -> Result<OrderedNetlist<'a>, AllocError>
    ensures net { IfOk result (λ p. p.net.now ≡ net.now) }
    ensures operand_order { IfOk result (λ p. p.operand_order ≡ operand_order) }
    ensures ordered_net { IfOk result (λ p. AreOrderedOperands operand_order net.now (map (λ l. l.items) p.steps.items)) }
{
    let steps = all_in_walk_order(alloc, net, operand_order)?;
    Ok(OrderedNetlist {
        net,
        operand_order,
        steps,
    })
}

/// Puts the operands on the stack, so that the first is on top.
fn push_operands(stack: &mut Vec<Frame>, operands: &[Signal]) -> Result<(), AllocError>
    ensures { OnOk result (reverse stack.new.items ≡ entered operands.now (reverse stack.old.items)) }
{
    let mut i = operands.len();
    while i > 0 {
        i -= 1;
        stack.push(Frame::Enter(operands[i].number()))?;
    }
    Ok(())
}

/// The operands of the signal's gate in the order in which walks take them; None for a variable.
fn walk_operands<'a>(ordered_net: &'a OrderedNetlist<'_>, signal: u32) -> Option<&'a [Signal]>
    requires in_bounds { signal < length ordered_net.now.net.now.names }
    requires ordered_net { AreOrderedOperands ordered_net.now.operand_order ordered_net.now.net.now (map (λ l. l.items) ordered_net.now.steps.items) }
    ensures { MatchOption result (find (λ g. g.out == signal) ordered_net.now.net.now.gates ≡ None)
        (λ os. IsStepsOf ordered_net.now.operand_order (circuit ordered_net.now.net.now) signal os.now) }
{
    let Role::Gate(place) = ordered_net.net.role(Signal::of(signal)) else {
        return None;
    };
    match ordered_net.steps.get(place as usize) {
        Some(list) => Some(list.as_slice()),
        None => None,
    }
}

/// Enters a signal. If it was seen before, nothing is to be done; a new variable is found; a gate is opened.
fn enter(
    ordered_net: &OrderedNetlist<'_>,
    found: &mut Vec<Signal>,
    seen: &mut Vec<bool>,
    stack: &mut Vec<Frame>,
    signal: u32,
) -> Result<(), AllocError>
    requires ordered_net { AreOrderedOperands ordered_net.now.operand_order ordered_net.now.net.now (map (λ l. l.items) ordered_net.now.steps.items) }
    requires walking { IsWalkToOutcome ordered_net.now.operand_order (circuit ordered_net.now.net.now) found.old.items seen.old.items
        (Frame.Enter signal ∷ reverse stack.old.items) }
    ensures walking { OnOk result (IsWalk ordered_net.now.operand_order (circuit ordered_net.now.net.now)
        (outcome ordered_net.now.operand_order (circuit ordered_net.now.net.now) found.old.items
        (Frame.Enter signal ∷ reverse stack.old.items)) found.new.items seen.new.items (reverse stack.new.items)) }
    ensures fewer_steps_left { OnOk result (steps_left ordered_net.now.operand_order (circuit ordered_net.now.net.now) (reverse stack.new.items) < steps_left ordered_net.now.operand_order
        (circuit ordered_net.now.net.now) (Frame.Enter signal ∷ reverse stack.old.items)) }
{
    if seen[signal as usize] {
        return Ok(());
    }
    match walk_operands(ordered_net, signal) {
        None => {
            found.push(Signal::of(signal))?;
            seen[signal as usize] = true;
            Ok(())
        }
        Some(operands) => {
            stack.push(Frame::Leave(signal))?;
            push_operands(stack, operands)?;
            Ok(())
        }
    }
}

/// Walks below a signal, and appends the variables to `found` that no walk before has met. `seen` has the signals that are done.
pub fn walk_below(
    alloc: Global,
    ordered_net: &OrderedNetlist<'_>,
    found: &mut Vec<Signal>,
    seen: &mut Vec<bool>,
    root: u32,
) -> Result<(), AllocError>
    requires ordered_net { AreOrderedOperands ordered_net.now.operand_order ordered_net.now.net.now (map (λ l. l.items) ordered_net.now.steps.items) }
    requires in_bounds { root < length ordered_net.now.net.now.names }
    requires between_walks { IsBetweenWalks ordered_net.now.operand_order (circuit ordered_net.now.net.now) found.old.items seen.old.items }
    ensures between_walks { OnOk result (IsBetweenWalks ordered_net.now.operand_order (circuit ordered_net.now.net.now) found.new.items seen.new.items) }
    ensures found { OnOk result (found.new.items ≡ fold with_number found.old.items
        (below ordered_net.now.operand_order (circuit ordered_net.now.net.now) root)) }
{
    let mut stack = Vec::new(alloc);
    stack.push(Frame::Enter(root))?;
    while let Some(frame) = stack.pop() {
        match frame {
            Frame::Enter(signal) => {
                enter(ordered_net, found, seen, &mut stack, signal)?;
            }
            Frame::Leave(signal) => seen[signal as usize] = true,
        }
    }
    Ok(())
}

/// Which signals have been seen when no walk has begun: none.
pub fn none_seen(alloc: Global, ordered_net: &OrderedNetlist<'_>) -> Result<Vec<bool>, AllocError>
    ensures { IfOk result (λ v. IsBetweenWalks ordered_net.now.operand_order (circuit ordered_net.now.net.now) [] v.items) }
{
    Vec::from_elem(alloc, false, ordered_net.net.count())
}

/// The variables below one signal, in the order in which a walk meets them.
pub fn met_below(
    alloc: Global,
    ordered_net: &OrderedNetlist<'_>,
    root: u32,
) -> Result<Vec<Signal>, AllocError>
    requires ordered_net { AreOrderedOperands ordered_net.now.operand_order ordered_net.now.net.now (map (λ l. l.items) ordered_net.now.steps.items) }
    requires in_bounds { root < length ordered_net.now.net.now.names }
    ensures { IfOk result (λ v. v.items ≡ met_below ordered_net.now.operand_order (circuit ordered_net.now.net.now) root) }
{
    let mut found = Vec::new(alloc);
    let mut seen = none_seen(alloc, ordered_net)?;
    walk_below(alloc, ordered_net, &mut found, &mut seen, root)?;
    Ok(found)
}

/// The variables below all outputs and next states, in the order in which walks meet them, with operands from left to right.
pub fn met(alloc: Global, net: &Netlist) -> Result<Vec<Signal>, AllocError>
    ensures met { IfOk result (λ v. v.items ≡ met (circuit net.now)) }
    ensures known { IfOk result (λ v. All (λ s. s < length net.now.names) v.items) }
    ensures variables { IfOk result (λ v. All (λ s. IsTrue (is_member s (variables_of (circuit net.now)))) v.items) }
{
    let ordered_net = ordered_netlist(alloc, net, OperandOrder::Written)?;
    let mut found = Vec::new(alloc);
    let mut seen = none_seen(alloc, &ordered_net)?;
    let roots = roots_of(alloc, net)?;
    let roots = roots.as_slice();
    for root in roots {
        walk_below(alloc, &ordered_net, &mut found, &mut seen, root.number())?;
    }
    Ok(found)
}
