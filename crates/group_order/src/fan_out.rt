//! The fan-out of variables, and which of them are selectors: those whose fan-out is far above that of most others.
ghost use Rattle.std.specs.Prelude.{◌≡◌, slice_get, IfOk, OnOk};
ghost use Rattle.group_order.specs.FanOut.{by_falling_size, fan_out, greater_of, is_selector, selector_key, selectors, stands_for, uses_on, wider};
ghost use Rattle.group_order.specs.FanOut.{widest_gap, with_selectors_first, with_stand, with_stand_of, with_use, with_uses};

use crate::sides::{IndexedNetlist, gate_at, put_variable, variable_at};
use crate::tables::add_one;
use net_bench::netlist::GateLine;
use net_order::tables::{number_at, sort_by_table};
use std::alloc::{AllocError, Global};

/// Two neighbours in the list of all fan-outs by falling size. A gap is the wider, the greater `above` is as a multiple
/// of `below`.
#[derive(Clone, Copy, Debug, PartialEq, Eq)]
pub struct Gap {
    pub above: u64,
    /// At least 1, so that a fan-out of 0 counts as 1.
    pub below: u64,
}

/// If the gate has one operand, its signal gets the variable of its operand.
fn put_stand(stands: &mut Vec<Option<u32>>, gate: &GateLine)
    ensures { stands.new.items ≡ with_stand stands.old.items gate.now }
{
    let operands = gate.operands.as_slice();
    if operands.len() == 1 {
        let variable = variable_at(stands.as_slice(), operands[0]);
        put_variable(stands, gate.out, variable);
    }
}

/// The same for the gate at a place; nothing if there is none.
fn put_stand_at(stands: &mut Vec<Option<u32>>, gates: &[GateLine], place: usize)
    ensures { stands.new.items ≡ with_stand_of stands.old.items (slice_get gates.now place) }
{
    match gate_at(gates, place) {
        Some(gate) => put_stand(stands, gate),
        None => {}
    }
}

/// For each signal the variable that it has the value of, or the complement: a variable itself, or a gate of one
/// operand above it.
#[tactic(auto, unfolding(crate::specs::FanOut::stands_for))]
fn stands_for(alloc: Global, side: &IndexedNetlist<'_>) -> Result<Vec<Option<u32>>, AllocError>
    ensures { IfOk result (λ v. v.items ≡ stands_for side.now) }
{
    let gates = side.net().gates();
    let mut stands = Vec::from_slice(alloc, side.variables())?;
    for place in side.by_rank() {
        put_stand_at(&mut stands, gates, *place);
    }
    Ok(stands)
}

/// Counts one more use of a variable.
fn count_use(counts: &mut Vec<u64>, variable: Option<u32>)
    ensures { counts.new.items ≡ with_use counts.old.items variable }
{
    match variable {
        Some(variable) => add_one(counts, variable as usize),
        None => {}
    }
}

/// Counts the uses of variables by a gate's operands. A gate of one operand uses nothing: a gate that reads it uses its variable.
fn count_uses(counts: &mut Vec<u64>, stands: &[Option<u32>], gate: &GateLine)
    ensures { counts.new.items ≡ with_uses stands.now counts.old.items gate.now }
{
    let operands = gate.operands.as_slice();
    if operands.len() == 1 {
        return;
    }
    for operand in operands {
        count_use(counts, variable_at(stands, *operand));
    }
}

/// For each variable the number of its uses as an operand in a netlist, directly or through gates of one operand.
#[tactic(auto, unfolding(crate::specs::FanOut::uses_on))]
fn uses_on(alloc: Global, count: usize, side: &IndexedNetlist<'_>) -> Result<Vec<u64>, AllocError>
    ensures { IfOk result (λ v. v.items ≡ uses_on count side.now) }
{
    let stands = stands_for(alloc, side)?;
    let stands = stands.as_slice();
    let mut counts = Vec::from_elem(alloc, 0u64, count)?;
    let gates = side.net().gates();
    for gate in gates {
        count_uses(&mut counts, stands, gate);
    }
    Ok(counts)
}

/// For each number below `count` the greater of its entries in the two tables.
#[tactic(auto, unfolding(crate::specs::FanOut::greater_of))]
fn greater_of(
    alloc: Global,
    count: usize,
    table: &[u64],
    other: &[u64],
) -> Result<Vec<u64>, AllocError>
    ensures { IfOk result (λ v. v.items ≡ greater_of count table.now other.now) }
{
    let mut greater = Vec::with_capacity(alloc, count)?;
    for place in 0..count {
        greater.push(number_at(table, place).max(number_at(other, place)))?;
    }
    Ok(greater)
}

/// The fan-out of each variable: the number of its uses in the netlist that uses it most.
#[tactic(auto, unfolding(crate::specs::FanOut::fan_out))]
pub fn fan_out(
    alloc: Global,
    count: usize,
    sides: &[IndexedNetlist<'_>],
) -> Result<Vec<u64>, AllocError>
    ensures { IfOk result (λ v. v.items ≡ fan_out count sides.now) }
{
    let mut most = Vec::from_elem(alloc, 0u64, count)?;
    for i in 0..sides.len() {
        let side = &sides[i];
        let uses = uses_on(alloc, count, side)?;
        most = greater_of(alloc, count, most.as_slice(), uses.as_slice())?;
    }
    Ok(most)
}

/// The wider of a gap and the one between these numbers; if both are equally wide, the gap. The first gap has to be at
/// least twofold.
fn wider(best: Option<Gap>, above: u64, below: u64) -> Option<Gap>
    ensures { result ≡ wider best above below }
{
    let is_wider = match best {
        None => u128::from(below) * 2 <= u128::from(above),
        Some(gap) => {
            u128::from(gap.above) * u128::from(below) < u128::from(above) * u128::from(gap.below)
        }
    };
    if is_wider {
        Some(Gap { above, below })
    } else {
        best
    }
}

/// The numbers by falling size.
#[tactic(auto, unfolding(crate::specs::FanOut::by_falling_size))]
fn by_falling_size(alloc: Global, numbers: &[u64]) -> Result<Vec<u64>, AllocError>
    ensures { IfOk result (λ v. v.items ≡ by_falling_size numbers.now) }
{
    let mut sorted = Vec::from_slice(alloc, numbers)?;
    sorted.sort_by_key(|number| *number)?;
    sorted.reverse();
    Ok(sorted)
}

/// The widest gap in the upper half of the numbers, the first of several; None if no number is at least twice the next.
#[tactic(auto, unfolding(crate::specs::FanOut::widest_gap))]
fn widest_gap(alloc: Global, numbers: &[u64]) -> Result<Option<Gap>, AllocError>
    ensures { IfOk result (λ gap. gap ≡ widest_gap numbers.now) }
{
    let falling = by_falling_size(alloc, numbers)?;
    let falling = falling.as_slice();
    let mut best = None;
    for place in 0..numbers.len() / 2 {
        let below = number_at(falling, place + 1).max(1);
        best = wider(best, number_at(falling, place), below);
    }
    Ok(best)
}

/// Whether a fan-out is above the gap, which makes its variable a selector.
fn is_selector(gap: Option<Gap>, count: u64) -> bool
    ensures { result ≡ is_selector gap count }
{
    match gap {
        None => false,
        Some(gap) => gap.above <= count,
    }
}

/// For each variable whether its fan-out makes it a selector.
#[tactic(auto, unfolding(crate::specs::FanOut::selectors))]
pub fn selectors(alloc: Global, counts: &[u64]) -> Result<Vec<bool>, AllocError>
    ensures { IfOk result (λ v. v.items ≡ selectors counts.now) }
{
    let gap = widest_gap(alloc, counts)?;
    counts
        .iter()
        .map(|count| is_selector(gap, *count))
        .collect(alloc)
}

/// A sort key that puts selectors before all others.
fn selector_key(chosen: bool) -> u64
    ensures { result ≡ selector_key chosen }
{
    if chosen { 0 } else { 1 }
}

/// Moves the selectors to the front of an order. Otherwise the order is unchanged.
#[tactic(auto, unfolding(crate::specs::FanOut::with_selectors_first))]
pub fn put_selectors_first(
    alloc: Global,
    chosen: &[bool],
    order: &mut Vec<usize>,
) -> Result<(), AllocError>
    ensures { OnOk result (order.new.items ≡ with_selectors_first chosen.now order.old.items) }
{
    let keys: Vec<u64> = chosen
        .iter()
        .map(|chosen| selector_key(*chosen))
        .collect(alloc)?;
    sort_by_table(order, keys.as_slice())
}
