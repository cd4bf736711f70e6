//! Interleaved orders: a variable that a walk meets for the first time goes right after the one that it met before.
//! After Fujii, Ootomo and Hori, "Interleaving based variable ordering methods for ordered binary decision diagrams",
//! ICCAD 1993. Each walk enters the gates of earlier walks again: without that, the order of c2670 takes five times as
//! many nodes (docs/decisions/orders-and-attempts.md).
ghost use Rattle.std.specs.Prelude.{◌≡◌, ℕ, ◌<◌, ◌≤◌, length, map, All, OnOk, IfOk, IfErr, Some, None, insert, slice_index};
ghost use Rattle.net_bench.specs.Circuit.{circuit, variables_of};
ghost use Rattle.net_order.specs.Order.{declared, interleaved, numbered, put_after, interleave_walk, interleave_netlist, with_variable, interleaved_numbers};
ghost use Rattle.net_order.specs.Tables.{AreKnown, AreMembershipFlags, with_names};

use crate::falling_rank::by_rank;
use crate::levels::{Levels, levels_on};
use crate::roots::roots_of;
use crate::side::NamedNetlist;
use crate::variables::{MAX_VARIABLES, add_all};
use crate::walk::{OperandOrder, met_below, none_seen, ordered_netlist, walk_below};
use net_bench::name_table::NameTable;
use net_bench::netlist::{Netlist, Signal};
use net_names::order::OrderFault;
use std::alloc::{AllocError, Global};

/// The place right after a variable; the end if the order does not have it.
fn place_after(order: &[u32], last: u32) -> usize
    ensures in_bounds { result ≤ length order.now }
    ensures inserts_after { (v : ℕ) → insert order.now result v ≡ put_after (Some last) v order.now }
{
    for i in 0..order.len() {
        if order[i] == last {
            return i + 1;
        }
    }
    order.len()
}

/// Inserts a variable right after another, or at the front if there is no other.
fn put_after(order: &mut Vec<u32>, last: Option<u32>, variable: u32) -> Result<(), AllocError>
    ensures { OnOk result (order.new.items ≡ put_after last variable order.old.items) }
{
    let place = match last {
        Some(last) => place_after(order.as_slice(), last),
        None => 0,
    };
    match order.insert(place, variable) {
        Ok(()) => Ok(()),
        Err(_) => Err(AllocError),
    }
}

/// Inserts a variable right after the other one, unless the order has it. `seen` says which variables the order has.
fn add(
    order: &mut Vec<u32>,
    seen: &mut Vec<bool>,
    last: Option<u32>,
    variable: u32,
) -> Result<(), AllocError>
    requires low { variable < length seen.old.items }
    requires visited { AreMembershipFlags seen.old.items order.old.items }
    ensures visited { OnOk result (AreMembershipFlags seen.new.items order.new.items) }
    ensures len { OnOk result (length seen.new.items ≡ length seen.old.items) }
    ensures added { OnOk result (order.new.items ≡ with_variable last variable order.old.items) }
{
    if seen[variable as usize] {
        return Ok(());
    }
    put_after(order, last, variable)?;
    seen[variable as usize] = true;
    Ok(())
}

/// Inserts the variables that one walk has met. `seen` says which variables the order has.
fn interleave_walk(
    order: &mut Vec<u32>,
    seen: &mut Vec<bool>,
    variables: &Levels,
    met: &[Signal],
) -> Result<(), AllocError>
    requires low { All (λ s. slice_index variables.now s < length seen.old.items) met.now }
    requires visited { AreMembershipFlags seen.old.items order.old.items }
    ensures visited { OnOk result (AreMembershipFlags seen.new.items order.new.items) }
    ensures len { OnOk result (length seen.new.items ≡ length seen.old.items) }
    ensures interleaved_numbers { OnOk result (order.new.items ≡ interleave_walk order.old.items None (map (slice_index variables.now) met.now)) }
{
    let mut last = None;
    for signal in met {
        let variable = variables.at(*signal);
        add(order, seen, last, variable)?;
        last = Some(variable);
    }
    Ok(())
}

/// Interleaves a netlist with the order. Only the walks that meet a variable which no walk before them has met are made
/// again and inserted: any other would change nothing.
fn interleave_netlist(
    alloc: Global,
    order: &mut Vec<u32>,
    seen: &mut Vec<bool>,
    net: &Netlist,
    variables: &Levels,
) -> Result<(), AllocError>
    requires low { All (λ s. slice_index variables.now s < length seen.old.items) (variables_of (circuit net.now)) }
    requires visited { AreMembershipFlags seen.old.items order.old.items }
    ensures visited { OnOk result (AreMembershipFlags seen.new.items order.new.items) }
    ensures len { OnOk result (length seen.new.items ≡ length seen.old.items) }
    ensures interleaved_numbers { OnOk result (order.new.items ≡ interleave_netlist (circuit net.now) (slice_index variables.now) order.old.items) }
{
    let ordered_net = ordered_netlist(alloc, net, OperandOrder::ByRank)?;
    let roots = roots_of(alloc, net)?;
    let ranked = by_rank(alloc, net, roots.as_slice())?;
    let ranked = ranked.as_slice();
    let mut found = Vec::new(alloc);
    let mut walked = none_seen(alloc, &ordered_net)?;
    for root in ranked {
        let before = found.len();
        walk_below(alloc, &ordered_net, &mut found, &mut walked, root.number())?;
        if found.len() > before {
            let met = met_below(alloc, &ordered_net, root.number())?;
            interleave_walk(order, seen, variables, met.as_slice())?;
        }
    }
    Ok(())
}

/// Appends the names of these variables to the table, if they are not there yet.
fn add_variables(
    alloc: Global,
    table: &mut NameTable,
    variables: &NameTable,
    order: &[u32],
) -> Result<(), AllocError>
    requires { All (λ v. v < length variables.now) order.now }
    ensures { OnOk result (table.new ≡ with_names table.old (numbered variables.now order.now)) }
{
    for variable in order {
        table.intern(alloc, variables.name(*variable))?;
    }
    Ok(())
}

/// The numbers of the variables that walks meet, in interleaved order: the first netlist's walks, then the second's.
fn interleaved_numbers(
    alloc: Global,
    sides: &[NamedNetlist<'_>],
    variables: &NameTable,
) -> Result<Vec<u32>, AllocError>
    requires { AreKnown variables.now sides.now }
    ensures interleaved_numbers { IfOk result (λ v. v.items ≡ interleaved_numbers variables.now sides.now) }
    ensures low { IfOk result (λ v. All (λ k. k < length variables.now) v.items) }
{
    let mut order = Vec::new(alloc);
    let mut seen = Vec::from_elem(alloc, false, variables.len())?;
    for i in 0..sides.len() {
        let side = &sides[i];
        let numbers = levels_on(alloc, variables, side)?;
        interleave_netlist(alloc, &mut order, &mut seen, side.net(), &numbers)?;
    }
    Ok(order)
}

/// The variables in interleaved order, then those that no walk meets, as they are declared.
pub fn interleaved_table(
    alloc: Global,
    sides: &[NamedNetlist<'_>],
    given: &[NamedNetlist<'_>],
    variables: &NameTable,
) -> Result<NameTable, OrderFault>
    requires all { variables.now ≡ declared sides.now given.now }
    requires few { length variables.now ≤ MAX_VARIABLES }
    ensures ok { IfOk result (λ t. t ≡ interleaved sides.now given.now) }
    ensures few { IfOk result (λ t. length t ≤ MAX_VARIABLES) }
    ensures err { IfErr result (λ fault. fault ≡ OrderFault.OutOfMemory) }
{
    let order = interleaved_numbers(alloc, sides, variables)?;
    let mut table = NameTable::new(alloc);
    add_variables(alloc, &mut table, variables, order.as_slice())?;
    add_all(alloc, &mut table, sides, given)?;
    Ok(table)
}
