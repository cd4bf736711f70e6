//! The gates of a netlist in the order in which they are evaluated.
ghost use Rattle.std.specs.Prelude.{◌≡◌, ◌==◌, ◌<◌, ◌∷◌, ◌++◌, [], length, slice_get, Some, OnOk};

use net_bench::netlist::{GateLine, Kind, Signal};
use std::alloc::{AllocError, Global};
use std::marker::Model;

/// A gate, with the range of its operands in the list of the operands of all gates.
#[derive(Clone, Copy, Drop)]
pub(crate) struct GateStep {
    out: Signal,
    kind: Kind,
    from: usize,
    to: usize,
}

/// A gate without its line, as it is evaluated.
#[derive(Clone, Copy, Drop)]
pub struct Gate<'a> {
    pub out: Signal,
    pub kind: Kind,
    pub operands: &'a [Signal],
}

/// Gates in an order, with all operands in one list. An evaluation reads both lists from front to end, without look-ups.
#[derive(Drop)]
pub struct Schedule {
    steps: Vec<GateStep>,
    operands: Vec<Signal>,
}

impl Model for Schedule {
    ghost use Rattle.std.specs.Prelude.{List, map, All};
    ghost use Rattle.net_simulate.specs.Schedules.{Equation, IsInRange, equation_at};

    ghost Value = { List Equation };

    ghost view = { λ s. map (equation_at s.operands.items) s.steps.items };

    ghost invariant = { λ s. All (IsInRange s.operands.items) s.steps.items };
}

impl Schedule {
    ghost use Rattle.net_simulate.specs.Schedules.{equation_of};

    /// A schedule without gates.
    pub(crate) fn new(alloc: Global) -> Schedule
        ensures { result ≡ [] }
    {
        Schedule {
            steps: Vec::new(alloc),
            operands: Vec::new(alloc),
        }
    }

    /// Appends a gate.
    pub(crate) fn push(&mut self, gate: &GateLine) -> Result<(), AllocError>
        ensures { OnOk result (self.new ≡ self.old ++ equation_of gate.now ∷ []) }
    {
        let from = self.operands.len();
        self.operands.extend_from_slice(gate.operands.as_slice())?;
        let to = self.operands.len();
        self.steps.push(GateStep {
            out: gate.out,
            kind: gate.kind,
            from,
            to,
        })?;
        Ok(())
    }

    /// The number of gates.
    pub fn len(&self) -> usize
        ensures { result ≡ length self.now }
    {
        self.steps.len()
    }

    /// Whether there are no gates.
    pub fn is_empty(&self) -> bool
        ensures { result ≡ (length self.now == 0) }
    {
        self.steps.is_empty()
    }

    /// The gate at a place.
    pub fn gate(&self, place: usize) -> Gate<'_>
        requires { place < length self.now }
        ensures { slice_get self.now place ≡ Some (record { out = result.out; kind = result.kind; operands = result.operands.now }) }
    {
        let step = self.steps[place];
        Gate {
            out: step.out,
            kind: step.kind,
            operands: &self.operands[step.from..step.to],
        }
    }
}
