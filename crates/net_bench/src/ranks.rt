// The ranks of the signals, or the first gate that depends on a cycle of gates; and the greatest rank.
ghost use Rattle.std.specs.Prelude.{◌≡◌, ◌≢◌, ◌⊎◌, ℕ, ◌+◌, ◌-◌, ◌<◌, ◌≤◌, length, Contains, slice_index, All, IfOk, IfErr, OnOk};
ghost use Rattle.net_bench.specs.declared.netlist.GateLine.{GateLine};
ghost use Rattle.net_bench.specs.Circuit.{Circuit, AreRanks, highest_rank, variables_of};
ghost use Rattle.net_bench.specs.Fault.{FirstEndless};
ghost use Rattle.net_bench.specs.declared.fault.BenchFault.TheVariants.{Cycle};
ghost use Rattle.net_bench.specs.Heights.{unranked, unranked_line, HasOneGateEach, IsDriven};

use crate::fault::BenchFault;
use crate::netlist::{GateLine, Netlist, Signal};
use crate::symbols::Symbol;
use crate::walk::{height_of, set_heights};
use std::alloc::Global;

/// The line of the first gate without a height; None if each has one.
fn unranked_line(heights: &[u32], gates: &[GateLine]) -> Option<u32>
    ensures { result ≡ unranked_line heights.now gates.now }
{
    let mut rest = gates;
    while let Some((gate, after)) = rest.split_first() {
        if height_of(heights, gate.out) == 0 {
            return Some(gate.line);
        }
        rest = after;
    }
    None
}

/// Gives the signal the height 1, which is that of a variable.
#[tactic(auto, using(crate::proofs::Heights::input_low))]
fn set_variable_height(heights: &mut [u32], signal: Signal)
    requires in_bounds { signal < length heights.old }
    requires one { (s : ℕ) → slice_index heights.old s ≤ 1 }
    requires low { (s : ℕ) → slice_index heights.old s + unranked heights.old ≤ length heights.old }
    ensures here { slice_index heights.new signal ≡ 1 }
    ensures one { (s : ℕ) → slice_index heights.new s ≤ 1 }
    ensures others { (s : ℕ) → s ≢ signal → slice_index heights.new s ≡ slice_index heights.old s }
    ensures low { (s : ℕ) → slice_index heights.new s + unranked heights.new ≤ length heights.new }
{
    if height_of(heights, signal) == 0 {
        heights[signal.number() as usize] = 1;
        return;
    }
}

/// Gives each variable the height 1. No signal has a height yet.
fn set_variable_heights(heights: &mut [u32], variables: &[Signal])
    requires in_bounds { All (λ s. s < length heights.old) variables.now }
    requires none { (s : ℕ) → slice_index heights.old s ≡ 0 }
    requires count { unranked heights.old ≤ length heights.old }
    ensures variables { All (λ s. slice_index heights.new s ≡ 1) variables.now }
    ensures others { (s : ℕ) → All (λ i. s ≢ i) variables.now → slice_index heights.new s ≡ 0 }
    ensures low { (s : ℕ) → slice_index heights.new s + unranked heights.new ≤ length heights.new }
{
    for variable in variables {
        set_variable_height(heights, *variable);
    }
}

/// Turns heights into ranks: each becomes 1 less, and 0 remains 0.
fn lower(heights: &mut [u32])
    ensures { (s : ℕ) → slice_index heights.new s ≡ slice_index heights.old s - 1 }
{
    for height in heights.iter_mut() {
        *height = height.saturating_sub(1);
    }
}

/// The ranks of the signals, or the line of the first gate that depends on a cycle (an endless chain of operands starts at it).
#[tactic(auto, using(crate::proofs::Heights::none_yet, crate::proofs::Heights::all_unranked))]
pub fn ranks_of(
    alloc: Global,
    symbols: &[Symbol],
    variables: &[Signal],
    gates: &[GateLine],
) -> Result<Vec<u32>, BenchFault>
    requires few { length symbols.now ≤ 1000000 }
    requires variables { All (λ s. s < length symbols.now) variables.now }
    requires outs { All (λ g. g.out < length symbols.now) gates.now }
    requires operands { All (λ g. All (λ s. s < length symbols.now) g.operands) gates.now }
    requires some { All (λ g. 0 < length g.operands) gates.now }
    requires apart { All (λ i. All (λ g. g.out ≢ i) gates.now) variables.now }
    requires one_gate { HasOneGateEach gates.now }
    requires defined { (s : ℕ) → s < length symbols.now → Contains variables.now s ⊎ ((g : GateLine) × Contains gates.now g × (g.out ≡ s)) }
    requires driven { (s : ℕ) → s < length symbols.now → Contains variables.now s ⊎ IsDriven gates.now symbols.now s }
    ensures ranks { IfOk result (λ v. (c : Circuit) → length c.names ≡ length symbols.now → variables_of c ≡ variables.now
        → c.gates ≡ gates.now → AreRanks c v.items) }
    ensures cycle { IfErr result (λ e. (e ≡ BenchFault.OutOfMemory)
        ⊎ ((line : ℕ) × (e ≡ Cycle line) × ((c : Circuit) → c.gates ≡ gates.now → FirstEndless c line))) }
{
    let mut heights: Vec<u32> = match vec![in alloc; 0; symbols.len()] {
        Ok(heights) => heights,
        Err(_) => return Err(BenchFault::OutOfMemory),
    };
    match rank_all(alloc, heights.as_mut_slice(), symbols, variables, gates) {
        Ok(()) => Ok(heights),
        Err(fault) => Err(fault),
    }
}

/// The same, into a list of ranks that holds zeros. While they are sought it holds heights.
#[tactic(auto, using(crate::proofs::Settled::inputs_sound))]
fn rank_all(
    alloc: Global,
    ranks: &mut [u32],
    symbols: &[Symbol],
    variables: &[Signal],
    gates: &[GateLine],
) -> Result<(), BenchFault>
    requires none { (s : ℕ) → slice_index ranks.old s ≡ 0 }
    requires count { unranked ranks.old ≤ length ranks.old }
    requires few { length ranks.old ≤ 1000000 }
    requires variables { All (λ s. s < length ranks.old) variables.now }
    requires outs { All (λ g. g.out < length ranks.old) gates.now }
    requires operands { All (λ g. All (λ s. s < length ranks.old) g.operands) gates.now }
    requires some { All (λ g. 0 < length g.operands) gates.now }
    requires apart { All (λ i. All (λ g. g.out ≢ i) gates.now) variables.now }
    requires one_gate { HasOneGateEach gates.now }
    requires defined { (s : ℕ) → s < length ranks.old → Contains variables.now s ⊎ ((g : GateLine) × Contains gates.now g × (g.out ≡ s)) }
    requires driven { (s : ℕ) → s < length ranks.old → Contains variables.now s ⊎ IsDriven gates.now symbols.now s }
    ensures ranks { OnOk result ((c : Circuit) → length c.names ≡ length ranks.old → variables_of c ≡ variables.now → c.gates ≡ gates.now
        → AreRanks c ranks.new) }
    ensures cycle { IfErr result (λ e. (e ≡ BenchFault.OutOfMemory)
        ⊎ ((line : ℕ) × (e ≡ Cycle line) × ((c : Circuit) → c.gates ≡ gates.now → FirstEndless c line))) }
{
    set_variable_heights(ranks, variables);
    match set_heights(alloc, gates, symbols, ranks) {
        Ok(()) => {}
        Err(_) => return Err(BenchFault::OutOfMemory),
    }
    match unranked_line(ranks, gates) {
        Some(line) => Err(BenchFault::Cycle { line }),
        None => {
            lower(ranks);
            Ok(())
        }
    }
}

impl Netlist {
    /// The greatest rank of a gate; 0 if there is none.
    pub fn highest_rank(&self) -> usize
        ensures value { result ≡ highest_rank self.now }
    {
        let mut highest = 0;
        for gate in self.gates() {
            let rank = self.rank(gate.out) as usize;
            if rank > highest {
                highest = rank;
            }
        }
        highest
    }
}
