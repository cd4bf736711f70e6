//! One netlist that is evaluated at blocks of assignments.
ghost use Rattle.std.specs.Prelude.{◌≡◌, ◌<◌, ℕ, length, map, slice_index, IfOk};
ghost use Rattle.net_bench.specs.Circuit.{IsNet, circuit, variables_of};
ghost use Rattle.net_bench.specs.Labels.{bit_of};
ghost use Rattle.net_simulate.specs.Columns.{AreLabellings, bit_in_block, column};
ghost use Rattle.net_order.specs.Order.{level_in};
ghost use Rattle.net_patterns.specs.Simulated.{IsKept};

use net_bench::netlist::{Netlist, Signal};
use net_order::naming::Naming;
use net_order::netlist_role::NetlistRole;
use net_simulate::{Block, Schedule, no_bits, schedule_of, simulate};
use std::alloc::{AllocError, Global};
use std::marker::Model;

/// A netlist with its gates by rank, the level of each variable, and the value of each signal at the 512 assignments of the last block.
#[derive(Drop)]
pub(crate) struct Simulator<'a> {
    net: &'a Netlist,
    schedule: Schedule,
    levels: Vec<u32>,
    values: Vec<Block>,
}

impl<'a> Model for Simulator<'a> {
    ghost use Rattle.net_patterns.specs.Prepared.{IsPrepared, SimulatorModel};

    ghost Value = { SimulatorModel };

    ghost view = { λ s. record { net = s.net.now; levels = s.levels.items; values = s.values.items } };

    ghost invariant = { λ s. IsPrepared s.net.now s.schedule s.levels.items s.values.items };
}

/// The level of each variable of a netlist, in the order of its variables.
fn levels_of(
    alloc: Global,
    net: &Netlist,
    naming: &Naming,
    part: NetlistRole,
) -> Result<Vec<u32>, AllocError>
    ensures { IfOk result (λ v. v.items ≡ map (level_in naming.now part) (variables_of (circuit net.now))) }
{
    let variables = net.variables();
    let mut levels = Vec::new(alloc);
    for place in 0..variables.len() {
        levels.push(naming.level(part, variables[place]))?;
    }
    Ok(levels)
}

impl<'a> Simulator<'a> {
    /// The netlist, prepared for evaluation. Time and memory are linear in it.
    pub(crate) fn new(
        alloc: Global,
        net: &'a Netlist,
        naming: &Naming,
        part: NetlistRole,
    ) -> Result<Simulator<'a>, AllocError>
        ensures net { IfOk result (λ s. s.net ≡ net.entry.now) }
        ensures levels { IfOk result (λ s. s.levels ≡ map (level_in naming.now part) (variables_of (circuit net.entry.now))) }
    {
        let schedule = schedule_of(alloc, net)?;
        let levels = levels_of(alloc, net, naming, part)?;
        let values = Vec::from_elem(alloc, no_bits(), net.count())?;
        Ok(Simulator {
            net,
            schedule,
            levels,
            values,
        })
    }

    /// Evaluates all signals at the assignments of a block, whose bits are given by level. No memory is allocated.
    pub(crate) fn evaluate(&mut self, at: &[Block])
        ensures kept { IsKept self.old self.new }
        ensures sound { IsNet self.new.net }
        ensures values { (level : ℕ → ℕ) → map level (variables_of (circuit self.old.net)) ≡ self.old.levels
            → AreLabellings bit_in_block 512 self.old.net level at.now self.new.values }
    {
        let _ = self.net.count(); // For the proof.
        simulate(
            self.net,
            &self.schedule,
            self.levels.as_slice(),
            at,
            self.values.as_mut_slice(),
        );
    }

    /// The value of a signal at the assignments of the block evaluated last.
    pub(crate) fn value(&self, signal: Signal) -> Block
        requires { signal < length self.now.net.names }
        ensures { (i : ℕ) → i < 512 → bit_in_block i result ≡ bit_of (column bit_in_block i self.now.values) signal }
    {
        self.values[signal.number() as usize]
    }

    /// The value of the first output.
    pub(crate) fn output(&self) -> Block
        requires { 0 < length self.now.net.outputs }
        ensures { (i : ℕ) → i < 512 → bit_in_block i result ≡ bit_of (column bit_in_block i self.now.values) (slice_index self.now.net.outputs 0) }
    {
        self.value(self.net.outputs()[0])
    }
}
