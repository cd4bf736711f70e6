// The inner signals that have the same name in both netlists, and different values.
ghost use Rattle.std.specs.Prelude.{◌≡◌, ◌<◌, ◌++◌, [], length, filter_map, option_to_list, slice_index_or, All, IfOk, OnOk};
ghost use Rattle.net_explain.specs.Explaining.{differ, differing, inner_at, is_inner, line_of};

use crate::simulation::Simulation;
use net_bench::netlist::{Netlist, Role, Signal};
use net_simulate::gates_by_rank;
use std::alloc::{AllocError, Global};

/// An inner signal that differs: a gate's signal of the first netlist, the one of the same name in the second, and the
/// lines of both gates.
#[derive(Clone, Copy, Drop, Debug, PartialEq, Eq)]
pub struct InnerSignal {
    pub first: Signal,
    pub second: Signal,
    /// The value in the first netlist. In the second it is the complement.
    pub value: bool,
    pub first_line: u32,
    pub second_line: u32,
}

/// The line of the signal's gate; None if it has none.
fn line_of(net: &Netlist, signal: Signal) -> Option<u32>
    requires { signal < length net.now.names }
    ensures { result ≡ line_of net.now signal }
{
    match net.role(signal) {
        Role::Gate(place) => Some(net.gates()[place as usize].line),
        _ => None,
    }
}

/// Whether two values are different.
fn differ(first: bool, second: bool) -> bool
    ensures { result ≡ differ first second }
{
    if first { !second } else { second }
}

/// Whether both are inner signals that differ: below the two signals that are compared, not these two, and of different values.
fn is_inner(seen: &Simulation, other: &Simulation, first: Signal, second: Signal) -> bool
    ensures { result ≡ is_inner seen.now other.now first second }
{
    let is_pair = first.number() == seen.root().number()
        && second.number() == other.root().number();
    seen.has_below(first)
        && other.has_below(second)
        && !is_pair
        && differ(seen.value(first), other.value(second))
}

/// The name of a signal.
#[tactic(auto, using(crate::proofs::Names::name_at))]
pub fn name_of<'a>(net: &'a Netlist, signal: Signal) -> &'a [u8]
    requires { signal < length net.now.names }
    ensures { result.now ≡ slice_index_or net.now.names signal [] }
{
    net.name(signal)
}

/// The signal with the one of the same name in the second netlist, if both are inner signals that differ and have gates.
fn inner_at(
    first: &Netlist,
    second: &Netlist,
    seen: &Simulation,
    other: &Simulation,
    signal: Signal,
) -> Option<InnerSignal>
    requires { signal < length first.now.names }
    ensures { result ≡ inner_at first.now second.now seen.now other.now signal }
{
    let partner = second.find(name_of(first, signal))?;
    if !is_inner(seen, other, signal, partner) {
        return None;
    }
    let first_line = line_of(first, signal)?;
    let second_line = line_of(second, partner)?;
    Some(InnerSignal {
        first: signal,
        second: partner,
        value: seen.value(signal),
        first_line,
        second_line,
    })
}

/// Appends an inner signal, if there is one.
fn add(found: &mut Vec<InnerSignal>, inner: Option<InnerSignal>) -> Result<(), AllocError>
    ensures { OnOk result (found.new.items ≡ found.old.items ++ option_to_list inner) }
{
    if let Some(inner) = inner {
        found.push(inner)?;
    }
    Ok(())
}

/// Appends the inner signals of a row that differ.
fn add_row(
    first: &Netlist,
    second: &Netlist,
    seen: &Simulation,
    other: &Simulation,
    row: &[Signal],
    found: &mut Vec<InnerSignal>,
) -> Result<(), AllocError>
    requires { All (λ s. s < length first.now.names) row.now }
    ensures { OnOk result (found.new.items ≡ found.old.items ++ filter_map (inner_at first.now second.now seen.now other.now) row.now) }
{
    for place in 0..row.len() {
        add(found, inner_at(first, second, seen, other, row[place]))?;
    }
    Ok(())
}

/// The inner signals that differ, by rising rank in the first netlist, those of one rank in the order of its text.
pub fn differing(
    alloc: Global,
    first: &Netlist,
    second: &Netlist,
    seen: &Simulation,
    other: &Simulation,
) -> Result<Vec<InnerSignal>, AllocError>
    ensures inner { IfOk result (λ v. v.items ≡ differing first.now second.now seen.now other.now) }
    // All of them are signals of their netlists.
    ensures first { IfOk result (λ v. All (λ i. i.first < length first.now.names) v.items) }
    ensures second { IfOk result (λ v. All (λ i. i.second < length second.now.names) v.items) }
{
    let table = gates_by_rank(alloc, first)?;
    let rows = table.as_slice();
    let mut found = Vec::new(alloc);
    for place in 0..rows.len() {
        add_row(
            first,
            second,
            seen,
            other,
            rows[place].as_slice(),
            &mut found,
        )?;
    }
    Ok(found)
}
