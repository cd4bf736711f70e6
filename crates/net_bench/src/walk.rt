// The heights of the gates, by one depth-first walk with a stack of the gates that wait for an operand. A height is 1
// more than a rank, so that 0 says that a signal has none (yet). A gate that depends on a cycle never gets one.
ghost use Rattle.std.specs.Prelude.{◌≡◌, ℕ, ◌<◌, ◌≤◌, [], ◌∷◌, map, length, reverse, slice_get, slice_index, slice_index_or, All, OnOk};
ghost use Rattle.std.specs.Prelude.{true, false};
ghost use Rattle.net_bench.specs.Circuit.{greatest};
ghost use Rattle.net_bench.specs.Heights.{all_ranked, gate_place, operands_at, out_at, steps_left, AreHeights, HasOneGateEach, IsDriven};
ghost use Rattle.net_bench.specs.Heights.{IsRanking, HasHeightIfOperandsHave};

use crate::netlist::{GateLine, Role, Signal};
use crate::symbols::Symbol;
use std::alloc::{AllocError, Global};

/// The height of the signal; 0 if it has none.
pub fn height_of(heights: &[u32], signal: Signal) -> u32
    ensures { result ≡ slice_index heights.now signal }
{
    match heights.get(signal.number() as usize) {
        Some(height) => *height,
        None => 0,
    }
}

/// The greatest height of these signals; 0 if there are none.
fn greatest_height(heights: &[u32], signals: &[Signal]) -> u32
    ensures { result ≡ greatest (map (slice_index heights.now) signals.now) }
{
    let mut most = 0;
    let mut rest = signals;
    while let Some((signal, after)) = rest.split_first() {
        let height = height_of(heights, *signal);
        if height > most {
            most = height;
        }
        rest = after;
    }
    most
}

/// Gives the gate at this place its height, unless it has one. All its operands have heights.
#[tactic(auto, using(crate::proofs::Heights::small, crate::proofs::Heights::ranked_more))]
fn set_gate_height(gates: &[GateLine], place: usize, heights: &mut [u32])
    requires in_bounds { place < length gates.now }
    requires few { length heights.old ≤ 1000000 }
    requires outs { All (λ g. g.out < length heights.old) gates.now }
    requires one_gate { HasOneGateEach gates.now }
    requires sound { AreHeights gates.now heights.old }
    requires all { all_ranked heights.old (operands_at gates.now place) ≡ true }
    ensures sound { AreHeights gates.now heights.new }
    ensures kept { (s : ℕ) → 0 < slice_index heights.old s → slice_index heights.new s ≡ slice_index heights.old s }
    ensures ranked { 0 < slice_index heights.new (out_at gates.now place) }
{
    let gate = &gates[place];
    if height_of(heights, gate.out) != 0 {
        return;
    }
    let most = greatest_height(heights, gate.operands.as_slice());
    heights[gate.out.number() as usize] = most + 1;
}

/// The place of the signal's gate; None if it has no gate.
fn gate_of(symbols: &[Symbol], signal: Signal) -> Option<usize>
    ensures { result ≡ gate_place (slice_get symbols.now signal) }
{
    match symbols.get(signal.number() as usize) {
        Some(
            Symbol {
                role: Role::Gate(place),
                ..
            },
        ) => Some(*place as usize),
        _ => None,
    }
}

/// A gate on the stack, and how many of its operands have been passed: these have heights.
#[derive(Clone, Copy, Debug)]
pub struct WaitingGate {
    pub place: usize,
    pub passed: usize,
}

/// One step of the gate on top of the stack. It passes an operand that has a height, or waits for the gate of one that
/// has none, or gets its own height after the last operand. If the operand's gate was begun before and has no height,
/// both depend on a cycle: then the gate leaves the stack without a height.
fn advance(
    gates: &[GateLine],
    symbols: &[Symbol],
    gate: WaitingGate,
    heights: &mut [u32],
    begun: &mut [bool],
    waiting: &mut Vec<WaitingGate>,
) -> Result<(), AllocError>
    requires few { length heights.old ≤ 1000000 }
    requires outs { All (λ g. g.out < length heights.old) gates.now }
    requires operands { All (λ g. All (λ s. s < length heights.old) g.operands) gates.now }
    requires one_gate { HasOneGateEach gates.now }
    requires driven { (s : ℕ) → s < length heights.old → slice_index heights.old s ≡ 0 → IsDriven gates.now symbols.now s }
    requires ranking { IsRanking gates.now heights.old begun.old (gate ∷ reverse waiting.old.items) }
    ensures ranking { OnOk result (IsRanking gates.now heights.new begun.new (reverse waiting.new.items)) }
    ensures kept { OnOk result ((s : ℕ) → 0 < slice_index heights.old s → slice_index heights.new s ≡ slice_index heights.old s) }
    ensures begun_stay { OnOk result ((p : ℕ) → slice_index_or begun.old p false ≡ true → slice_index_or begun.new p false ≡ true) }
    ensures fewer_steps_left { OnOk result (steps_left gates.now begun.new (reverse waiting.new.items) < steps_left gates.now begun.old
        (gate ∷ reverse waiting.old.items)) }
{
    let Some(operand) = gates[gate.place].operands.as_slice().get(gate.passed) else {
        set_gate_height(gates, gate.place, heights);
        return Ok(());
    };
    if height_of(heights, *operand) != 0 {
        waiting.push(WaitingGate {
            place: gate.place,
            passed: gate.passed + 1,
        })?;
        return Ok(());
    }
    let Some(below) = gate_of(symbols, *operand) else {
        return Ok(());
    };
    if begun[below] {
        return Ok(());
    }
    begun[below] = true;
    waiting.push(gate)?;
    waiting.push(WaitingGate {
        place: below,
        passed: 0,
    })?;
    Ok(())
}

/// Gives heights to the gate at this place and those below it, each after its operands, except to those that depend on a cycle.
fn set_heights_below(
    alloc: Global,
    gates: &[GateLine],
    symbols: &[Symbol],
    start: usize,
    heights: &mut [u32],
    begun: &mut [bool],
) -> Result<(), AllocError>
    requires in_bounds { start < length gates.now }
    requires few { length heights.old ≤ 1000000 }
    requires outs { All (λ g. g.out < length heights.old) gates.now }
    requires operands { All (λ g. All (λ s. s < length heights.old) g.operands) gates.now }
    requires one_gate { HasOneGateEach gates.now }
    requires driven { (s : ℕ) → s < length heights.old → slice_index heights.old s ≡ 0 → IsDriven gates.now symbols.now s }
    requires ranking { IsRanking gates.now heights.old begun.old [] }
    ensures ranking { OnOk result (IsRanking gates.now heights.new begun.new []) }
    ensures kept { OnOk result ((s : ℕ) → 0 < slice_index heights.old s → slice_index heights.new s ≡ slice_index heights.old s) }
    ensures begun_stay { OnOk result ((p : ℕ) → slice_index_or begun.old p false ≡ true → slice_index_or begun.new p false ≡ true) }
    ensures begun { OnOk result (slice_index_or begun.new start false ≡ true) }
{
    if begun[start] {
        return Ok(());
    }
    begun[start] = true;
    let mut waiting: Vec<WaitingGate> = Vec::new(alloc);
    waiting.push(WaitingGate {
        place: start,
        passed: 0,
    })?;
    'steps: while let Some(gate) = waiting.pop() {
        advance(gates, symbols, gate, heights, begun, &mut waiting)?;
    }
    Ok(())
}

/// Gives a height to each gate that does not depend on a cycle.
pub fn set_heights(
    alloc: Global,
    gates: &[GateLine],
    symbols: &[Symbol],
    heights: &mut [u32],
) -> Result<(), AllocError>
    requires few { length heights.old ≤ 1000000 }
    requires outs { All (λ g. g.out < length heights.old) gates.now }
    requires operands { All (λ g. All (λ s. s < length heights.old) g.operands) gates.now }
    requires one_gate { HasOneGateEach gates.now }
    requires driven { (s : ℕ) → s < length heights.old → slice_index heights.old s ≡ 0 → IsDriven gates.now symbols.now s }
    requires sound { AreHeights gates.now heights.old }
    ensures sound { OnOk result (AreHeights gates.now heights.new) }
    ensures kept { OnOk result ((s : ℕ) → 0 < slice_index heights.old s → slice_index heights.new s ≡ slice_index heights.old s) }
    ensures settled { OnOk result (All (HasHeightIfOperandsHave heights.new) gates.now) }
{
    let mut begun: Vec<bool> = vec![in alloc; false; gates.len()]?;
    for place in 0..gates.len() {
        set_heights_below(alloc, gates, symbols, place, heights, begun.as_mut_slice())?;
    }
    Ok(())
}
