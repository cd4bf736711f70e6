//! The explanation of a difference: which inner signals differ at an assignment.
ghost use Rattle.std.specs.Prelude.{◌≡◌, ◌<◌, length, All, IfOk};
ghost use Rattle.net_explain.specs.Explaining.{AreGateCounts, IsExplanation, IsGateCount};

use crate::below::visited_below;
use crate::bits::bit_at;
use crate::differing::{InnerSignal, differing};
use crate::simulation::Simulation;
use net_bench::netlist::{Netlist, Signal};
use net_order::naming::Naming;
use net_order::netlist_role::NetlistRole;
use std::alloc::{AllocError, Global};
use std::marker::Model;

/// How many gates are below a signal, and how many of these are outside the cone of another signal, that is, not below it.
#[derive(Clone, Copy, Drop, Debug, PartialEq, Eq)]
pub struct GateCount {
    pub all: usize,
    pub outside: usize,
}

/// Which inner signals of a pair differ, and for each netlist how many gates are below the pair but outside the cone of
/// the first of them: no such gate makes that one differ.
#[derive(Drop)]
pub struct Explanation {
    inner: Vec<InnerSignal>,
    gate_counts: Option<(GateCount, GateCount)>,
}

impl Model for Explanation {
    ghost use Rattle.net_explain.specs.Explaining.{ExplanationModel};

    ghost Value = { ExplanationModel };

    ghost view = { λ e. record { inner = e.inner.items; gate_counts = e.gate_counts } };
}

impl Explanation {
    /// The inner signals that differ, by rising rank in the first netlist, those of one rank in the order of its text.
    pub fn inner(&self) -> &[InnerSignal]
        ensures { result.now ≡ self.now.inner }
    {
        self.inner.as_slice()
    }

    /// For each netlist, the gates below the pair's signal, and those of them outside the cone of the first inner
    /// signal; None if none differs.
    pub fn gate_counts(&self) -> Option<(GateCount, GateCount)>
        ensures { result ≡ self.now.gate_counts }
    {
        self.gate_counts
    }
}

/// The gates below the root of the simulation, and those of them that are not below `low`.
fn gate_count_of(
    alloc: Global,
    net: &Netlist,
    seen: &Simulation,
    low: Signal,
) -> Result<GateCount, AllocError>
    requires { low < length net.now.names }
    ensures { IfOk result (IsGateCount net.now seen.now low) }
{
    let visited = visited_below(alloc, net, low)?;
    let mut all = 0;
    let mut outside = 0;
    for gate in net.gates() {
        if seen.has_below(gate.out) {
            all += 1;
            if !bit_at(visited.as_slice(), gate.out.number()) {
                outside += 1;
            }
        }
    }
    Ok(GateCount { all, outside })
}

/// The gate counts of both netlists for the first of the inner signals; None if there is none.
fn gate_counts_of(
    alloc: Global,
    first: &Netlist,
    second: &Netlist,
    seen: &Simulation,
    other: &Simulation,
    inner: &[InnerSignal],
) -> Result<Option<(GateCount, GateCount)>, AllocError>
    requires first { All (λ i. i.first < length first.now.names) inner.now }
    requires second { All (λ i. i.second < length second.now.names) inner.now }
    ensures { IfOk result (AreGateCounts first.now second.now seen.now other.now inner.now) }
{
    if inner.is_empty() {
        return Ok(None);
    }
    let lowest = inner[0];
    let outside = gate_count_of(alloc, first, seen, lowest.first)?;
    let other = gate_count_of(alloc, second, other, lowest.second)?;
    Ok(Some((outside, other)))
}

/// Explains why two signals differ at an assignment: by the signals of gates below them that have the same name and
/// different values. Variables are left out, and so is the pair itself. Time and memory are linear in the netlists.
pub fn explain(
    alloc: Global,
    first: &Netlist,
    second: &Netlist,
    naming: &Naming,
    pair: (Signal, Signal),
    at: &[bool],
) -> Result<Explanation, AllocError>
    requires first { pair.0 < length first.now.names }
    requires second { pair.1 < length second.now.names }
    // The answer explains the pair: it has exactly the inner signals that differ, in their order.
    ensures explains { IfOk result (IsExplanation first.now second.now naming.now pair at.now) }
    ensures known { IfOk result (λ e. All (λ i. i.first < length first.now.names) e.inner) }
{
    let (root, partner) = pair;
    let seen = Simulation::new(alloc, first, naming, NetlistRole::First, at, root)?;
    let other = Simulation::new(alloc, second, naming, NetlistRole::Second, at, partner)?;
    let inner = differing(alloc, first, second, &seen, &other)?;
    let gate_counts = gate_counts_of(alloc, first, second, &seen, &other, inner.as_slice())?;
    Ok(Explanation { inner, gate_counts })
}
