//! The three orders of this crate.
ghost use Rattle.std.specs.Prelude.{◌≡◌, IfErr, IfOk, length};
ghost use Rattle.std.specs.List.Sorted.{IsPermutation};
ghost use Rattle.net_bench.specs.Circuit.{circuit};
ghost use Rattle.net_order.specs.Force.{numbers_below};
ghost use Rattle.net_order.specs.Order.{IsFit, condition, variables_in};
ghost use Rattle.group_order.specs.Orders.{IsOrderBy, IsOrderFault, force_groups_numbers, msb_first_numbers, selectors_of, weighed_below, weights_numbers};

use crate::fan_out::{fan_out, put_selectors_first, selectors};
use crate::free_force::free_numbers;
use crate::groups::{group_labels, put_groups_together};
use crate::listing::listed;
use crate::name_keys::{falling_numbers, rising_numbers};
use crate::sides::{IndexedNetlist, sides_of};
use crate::tables::completed;
use crate::weight_order::weighed;
use net_bench::netlist::Netlist;
use net_names::names::Names;
use net_names::order::{Match, Order, OrderFault};
use net_order::pairing::pair;
use std::alloc::{AllocError, Global};

/// For each variable whether it is a selector.
fn selectors_of(
    alloc: Global,
    count: usize,
    sides: &[IndexedNetlist<'_>],
) -> Result<Vec<bool>, AllocError>
    ensures { IfOk result (λ v. v.items ≡ selectors_of count sides.now) }
{
    let counts = fan_out(alloc, count, sides)?;
    selectors(alloc, counts.as_slice())
}

/// The variables by falling number at the end of their names, then each group moved together, then selectors moved to the front.
#[tactic(auto, unfolding(crate::specs::Orders::msb_first_numbers))]
fn msb_first_numbers(
    alloc: Global,
    names: &Names,
    sides: &[IndexedNetlist<'_>],
) -> Result<Vec<usize>, AllocError>
    ensures rule { IfOk result (λ v. v.items ≡ msb_first_numbers names.now sides.now) }
    ensures moved { IfOk result (λ v. IsPermutation (numbers_below (length names.now)) v.items) }
{
    let chosen = selectors_of(alloc, names.len(), sides)?;
    let labels = group_labels(alloc, names.len(), sides)?;
    let mut order = falling_numbers(alloc, names)?;
    put_groups_together(alloc, labels.as_slice(), &mut order)?;
    put_selectors_first(alloc, chosen.as_slice(), &mut order)?;
    Ok(order)
}

/// The variables in the order of FORCE without selectors, then each group moved together.
#[tactic(auto, unfolding(crate::specs::Orders::force_groups_numbers))]
fn force_groups_numbers(
    alloc: Global,
    names: &Names,
    sides: &[IndexedNetlist<'_>],
) -> Result<Vec<usize>, AllocError>
    ensures rule { IfOk result (λ v. v.items ≡ force_groups_numbers names.now sides.now) }
    ensures moved { IfOk result (λ v. IsPermutation (numbers_below (length names.now)) v.items) }
{
    let chosen = selectors_of(alloc, names.len(), sides)?;
    let labels = group_labels(alloc, names.len(), sides)?;
    let begun = rising_numbers(alloc, names)?;
    let mut order = free_numbers(alloc, chosen.as_slice(), begun.as_slice(), sides)?;
    put_groups_together(alloc, labels.as_slice(), &mut order)?;
    Ok(order)
}

/// Order `msb-first`, by falling number at the end of names: the most significant bits of all buses first. Variables
/// that an exclusive or of two joins are in one group, which is moved together; selectors, whose fan-out is far above
/// that of others, come first.
pub fn msb_first(
    alloc: Global,
    first: &Netlist,
    second: &Netlist,
    given: Option<&Netlist>,
    how: Match,
) -> Result<Order, OrderFault>
    ensures rule { IfOk result (IsOrderBy msb_first_numbers how first.now second.now given.entry) }
    // Each variable is there once, so `pair` accepts the list.
    ensures each_once { IfOk result (IsFit (variables_in how (circuit first.now) (circuit second.now) (condition given.entry))) }
    ensures refused { IfErr result (IsOrderFault how first.now second.now given.entry) }
{
    let declared = pair(alloc, first, second, given, how, &Order::Declared)?;
    let sides = sides_of(alloc, declared.naming(), first, second, given)?;
    let numbers = msb_first_numbers(alloc, declared.names(), sides.as_slice())?;
    let order = listed(alloc, declared.names(), numbers.as_slice())?;
    Ok(order)
}

/// Order `force-groups`, by FORCE (Aloul, Markov and Sakallah 2003) without selectors, which begins by rising number at
/// the end of names: the selectors first, and then the others, from the last to the first. Then each group of variables
/// that an exclusive or of two joins is moved together.
pub fn force_groups(
    alloc: Global,
    first: &Netlist,
    second: &Netlist,
    given: Option<&Netlist>,
    how: Match,
) -> Result<Order, OrderFault>
    ensures rule { IfOk result (IsOrderBy force_groups_numbers how first.now second.now given.entry) }
    // Each variable is there once, so `pair` accepts the list.
    ensures each_once { IfOk result (IsFit (variables_in how (circuit first.now) (circuit second.now) (condition given.entry))) }
    ensures refused { IfErr result (IsOrderFault how first.now second.now given.entry) }
{
    let declared = pair(alloc, first, second, given, how, &Order::Declared)?;
    let sides = sides_of(alloc, declared.naming(), first, second, given)?;
    let numbers = force_groups_numbers(alloc, declared.names(), sides.as_slice())?;
    let order = listed(alloc, declared.names(), numbers.as_slice())?;
    Ok(order)
}

/// The variables below the roots of the first two netlists, by dynamic weight assignment.
fn weighed_below(
    alloc: Global,
    count: usize,
    sides: &[IndexedNetlist<'_>],
) -> Result<Vec<usize>, AllocError>
    ensures { IfOk result (λ v. v.items ≡ weighed_below count sides.now) }
{
    if sides.len() < 2 {
        return Ok(Vec::new(alloc));
    }
    weighed(alloc, count, &sides[0], &sides[1])
}

/// The variables by dynamic weight assignment, those below no root last, then each group moved together.
#[tactic(auto, unfolding(crate::specs::Orders::weights_numbers))]
fn weights_numbers(
    alloc: Global,
    names: &Names,
    sides: &[IndexedNetlist<'_>],
) -> Result<Vec<usize>, AllocError>
    ensures rule { IfOk result (λ v. v.items ≡ weights_numbers names.now sides.now) }
    ensures moved { IfOk result (λ v. IsPermutation (numbers_below (length names.now)) v.items) }
{
    let labels = group_labels(alloc, names.len(), sides)?;
    let found = weighed_below(alloc, names.len(), sides)?;
    let mut order = completed(alloc, names.len(), found.as_slice())?;
    put_groups_together(alloc, labels.as_slice(), &mut order)?;
    Ok(order)
}

/// Order `weights`, by dynamic weight assignment (Minato, Ishiura and Yajima 1990). Below each root of the netlist with
/// fewer gates, and then of the other, the variable that gets the greatest part of the root's weight is placed first;
/// then weights are assigned anew without it. So that this takes no more than about 1,000,000 visits of gates, from
/// there on one assignment places all variables that remain below a root; a gate counts once more for each 32 of its
/// operands. Then each group of variables that an exclusive or of two joins is moved together.
pub fn weights(
    alloc: Global,
    first: &Netlist,
    second: &Netlist,
    given: Option<&Netlist>,
    how: Match,
) -> Result<Order, OrderFault>
    ensures rule { IfOk result (IsOrderBy weights_numbers how first.now second.now given.entry) }
    // Each variable is there once, so `pair` accepts the list.
    ensures each_once { IfOk result (IsFit (variables_in how (circuit first.now) (circuit second.now) (condition given.entry))) }
    ensures refused { IfErr result (IsOrderFault how first.now second.now given.entry) }
{
    let declared = pair(alloc, first, second, given, how, &Order::Declared)?;
    let sides = sides_of(alloc, declared.naming(), first, second, given)?;
    let numbers = weights_numbers(alloc, declared.names(), sides.as_slice())?;
    let order = listed(alloc, declared.names(), numbers.as_slice())?;
    Ok(order)
}
