// The signals below a root, by a depth-first walk with a stack of its own, which visits each signal once.
ghost use Rattle.std.specs.Prelude.{◌≡◌, ◌⊎◌, ◌<◌, ◌+◌, ℕ, ◌++◌, ◌∷◌, [], length, All, Contains, IfOk, OnOk};
ghost use Rattle.net_bench.specs.Circuit.{IsNet};
ghost use Rattle.net_cone.specs.Walk.{AreBelow, IsVisited, IsWalkBelow, KeepsVisited, unvisited};

use net_bench::netlist::{Netlist, Role, Signal};
use std::alloc::{AllocError, Global};

/// Flags a signal as visited and puts it on the stack, unless it was visited before.
#[tactic(auto, using(crate::proofs::Visiting::unvisited_set, crate::proofs::Visiting::kept_set, crate::proofs::Visiting::only_set, crate::proofs::Visiting::visited_here, crate::proofs::Visiting::still))]
fn visit(seen: &mut [bool], waiting: &mut Vec<Signal>, signal: Signal) -> Result<(), AllocError>
    requires in_bounds { signal < length seen.old }
    ensures signal_visited { OnOk result (IsVisited seen.new signal) }
    ensures kept { OnOk result (KeepsVisited seen.old seen.new) }
    ensures new_ones_wait { OnOk result ((s : ℕ) → IsVisited seen.new s → IsVisited seen.old s ⊎ ((s ≡ signal) × Contains waiting.new.items s)) }
    ensures waiting { OnOk result ((s : ℕ) → Contains waiting.old.items s → Contains waiting.new.items s) }
    ensures visited { OnOk result (All (λ s. IsVisited seen.old s) waiting.old.items → All (λ s. IsVisited seen.new s) waiting.new.items) }
    ensures steps { OnOk result (unvisited seen.new + length waiting.new.items ≡ unvisited seen.old + length waiting.old.items) }
{
    let place = signal.number() as usize;
    if seen[place] {
        return Ok(());
    }
    waiting.push(signal)?;
    seen[place] = true;
    Ok(())
}

/// Visits these signals, one after the other.
#[tactic(auto, using(crate::proofs::Walking::contained_at))]
fn visit_all(
    seen: &mut [bool],
    waiting: &mut Vec<Signal>,
    signals: &[Signal],
) -> Result<(), AllocError>
    requires in_bounds { All (λ s. s < length seen.old) signals.now }
    ensures signals_visited { OnOk result (All (λ s. IsVisited seen.new s) signals.now) }
    ensures kept { OnOk result (KeepsVisited seen.old seen.new) }
    ensures new_ones_wait { OnOk result ((s : ℕ) → IsVisited seen.new s
        → IsVisited seen.old s ⊎ (Contains signals.now s × Contains waiting.new.items s)) }
    ensures waiting { OnOk result ((s : ℕ) → Contains waiting.old.items s → Contains waiting.new.items s) }
    ensures visited { OnOk result (All (λ s. IsVisited seen.old s) waiting.old.items → All (λ s. IsVisited seen.new s) waiting.new.items) }
    ensures steps { OnOk result (unvisited seen.new + length waiting.new.items ≡ unvisited seen.old + length waiting.old.items) }
{
    for place in 0..signals.len() {
        visit(seen, waiting, signals[place])?;
    }
    Ok(())
}

/// Takes a signal that has left the stack: visits the operands of its gate, if it has one. The root is only for the contract.
fn visit_operands(
    net: &Netlist,
    root: Signal,
    seen: &mut [bool],
    waiting: &mut Vec<Signal>,
    signal: Signal,
) -> Result<(), AllocError>
    requires in_bounds { signal < length net.now.names }
    requires walking { IsWalkBelow net.now root seen.old (waiting.old.items ++ signal ∷ []) }
    ensures walking { OnOk result (IsWalkBelow net.now root seen.new waiting.new.items) }
    ensures new_ones_wait { OnOk result ((s : ℕ) → IsVisited seen.new s → IsVisited seen.old s ⊎ Contains waiting.new.items s) }
    ensures waiting { OnOk result ((s : ℕ) → Contains waiting.old.items s → Contains waiting.new.items s) }
    ensures steps { OnOk result (unvisited seen.new + length waiting.new.items ≡ unvisited seen.old + length waiting.old.items) }
{
    let _ = root; // For the proof.
    let Role::Gate(place) = net.role(signal) else {
        return Ok(());
    };
    let gates = net.gates();
    visit_all(seen, waiting, gates[place as usize].operands.as_slice())?;
    Ok(())
}

/// Visits the signals below the root, and appends each of them to `met`.
#[tactic(auto, using(crate::proofs::Walking::begun, crate::proofs::Walking::ended, crate::proofs::Walking::taken))]
pub fn visit_below(
    alloc: Global,
    net: &Netlist,
    root: Signal,
    seen: &mut [bool],
    met: &mut Vec<Signal>,
) -> Result<(), AllocError>
    requires in_bounds { root < length net.now.names }
    requires one_per_signal { length seen.old ≡ length net.now.names }
    requires none_visited { (s : ℕ) → IsVisited seen.old s → ⊥ }
    requires sound { IsNet net.now }
    ensures below { OnOk result (AreBelow net.now root seen.new) }
    ensures met { OnOk result ((s : ℕ) → IsVisited seen.new s → Contains met.new.items s) }
    ensures in_bounds { OnOk result (All (λ s. s < length net.now.names) met.old.items → All (λ s. s < length net.now.names) met.new.items) }
{
    let mut waiting = Vec::new(alloc);
    visit(seen, &mut waiting, root)?;
    while let Some(signal) = waiting.pop() {
        met.push(signal)?;
        visit_operands(net, root, seen, &mut waiting, signal)?;
    }
    Ok(())
}

/// For each signal whether it is below the root. Time and memory are linear in the netlist.
#[tactic(auto, using(crate::proofs::Walking::none_seen))]
pub fn seen_below(alloc: Global, net: &Netlist, root: Signal) -> Result<Vec<bool>, AllocError>
    requires { root < length net.now.names }
    ensures below { IfOk result (λ v. AreBelow net.now root v.items) }
    ensures sound { IsNet net.now }
{
    let mut seen = Vec::from_elem(alloc, false, net.count())?;
    let mut met = Vec::new(alloc);
    visit_below(alloc, net, root, seen.as_mut_slice(), &mut met)?;
    Ok(seen)
}
