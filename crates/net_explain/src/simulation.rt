// One netlist at an assignment, with what is below the signal that is compared.
ghost use Rattle.std.specs.Prelude.{◌≡◌, ◌<◌, length, IfOk};
ghost use Rattle.net_bench.specs.Circuit.{IsNet};
ghost use Rattle.net_bench.specs.Labels.{bit_of};
ghost use Rattle.net_explain.specs.Explaining.{IsSimulation};

use crate::below::visited_below;
use crate::bits::bit_at;
use crate::evaluate::values;
use net_bench::netlist::{Netlist, Signal};
use net_order::naming::Naming;
use net_order::netlist_role::NetlistRole;
use std::alloc::{AllocError, Global};
use std::marker::Model;

/// The values of all signals at an assignment, and which signals are below the root, both by signal.
#[derive(Drop)]
pub struct Simulation {
    root: Signal,
    values: Vec<bool>,
    below: Vec<bool>,
}

impl Model for Simulation {
    ghost use Rattle.net_explain.specs.Explaining.{SimulationModel};

    ghost Value = { SimulationModel };

    ghost view = { λ v. record { root = v.root; values = v.values.items; below = v.below.items } };
}

impl Simulation {
    /// The simulation of one netlist of a naming.
    pub fn new(
        alloc: Global,
        net: &Netlist,
        naming: &Naming,
        which: NetlistRole,
        at: &[bool],
        root: Signal,
    ) -> Result<Simulation, AllocError>
        requires { root < length net.now.names }
        ensures simulated { IfOk result (IsSimulation net.now naming.now which at.now root) }
        ensures sound { IsNet net.now }
    {
        let values = values(alloc, net, naming, which, at)?;
        let below = visited_below(alloc, net, root)?;
        Ok(Simulation {
            root,
            values,
            below,
        })
    }

    /// The signal that is compared.
    pub fn root(&self) -> Signal
        ensures { result ≡ self.now.root }
    {
        self.root
    }

    /// The value of a signal.
    pub fn value(&self, signal: Signal) -> bool
        ensures { result ≡ bit_of self.now.values signal }
    {
        bit_at(self.values.as_slice(), signal.number())
    }

    /// Whether a signal is below the root.
    pub fn has_below(&self, signal: Signal) -> bool
        ensures { result ≡ bit_of self.now.below signal }
    {
        bit_at(self.below.as_slice(), signal.number())
    }
}
