// How many gates are below signals. Each walk clears the flags that it has set, so that it reads and writes no more than it meets.
ghost use Rattle.std.specs.Prelude.{◌≡◌, ◌<◌, ◌≤◌, ◌+◌, ℕ, length, All, Contains, IfOk};
ghost use Rattle.std.specs.List.{AllZip};
ghost use Rattle.net_bench.specs.Circuit.{IsNet, circuit};
ghost use Rattle.net_cone.specs.Cones.{HasGates};
ghost use Rattle.net_cone.specs.Walk.{IsVisited, gates_visited};

use crate::below::visit_below;
use net_bench::netlist::{Netlist, Role, Signal};
use std::alloc::{AllocError, Global};

/// Clears the flag of a signal. Returns 1 if it was set and the signal is a gate's, otherwise 0.
fn unvisit(net: &Netlist, seen: &mut [bool], signal: Signal) -> u64
    requires in_bounds { signal < length net.now.names }
    requires one_per_signal { length seen.old ≡ length net.now.names }
    ensures none_visited { IsVisited seen.new signal → ⊥ }
    ensures no_new_ones { (s : ℕ) → IsVisited seen.new s → IsVisited seen.old s }
    ensures gates { result + gates_visited seen.new net.now.gates ≡ gates_visited seen.old net.now.gates }
    ensures one { result ≤ 1 }
{
    let place = signal.number() as usize;
    if !seen[place] {
        return 0;
    }
    seen[place] = false;
    match net.role(signal) {
        Role::Gate(_) => 1,
        _ => 0,
    }
}

/// Clears the flags of these signals, and returns how many gates had them set.
fn unvisit_all(net: &Netlist, seen: &mut [bool], met: &[Signal]) -> u64
    requires in_bounds { All (λ s. s < length net.now.names) met.now }
    requires one_per_signal { length seen.old ≡ length net.now.names }
    requires met { (s : ℕ) → IsVisited seen.old s → Contains met.now s }
    ensures none_visited { (s : ℕ) → IsVisited seen.new s → ⊥ }
    ensures gates { result ≡ gates_visited seen.old net.now.gates }
{
    let mut gates = 0;
    for place in 0..met.len() {
        gates += unvisit(net, seen, met[place]);
    }
    gates
}

/// How many gates are below the root. Before and after, no flag is set.
fn count_below(
    alloc: Global,
    net: &Netlist,
    root: Signal,
    seen: &mut [bool],
) -> Result<u64, AllocError>
    requires in_bounds { root < length net.now.names }
    requires one_per_signal { length seen.old ≡ length net.now.names }
    requires none_visited { (s : ℕ) → IsVisited seen.old s → ⊥ }
    requires sound { IsNet net.now }
    ensures gates { IfOk result (HasGates (circuit net.now) root) }
    ensures none_visited { IfOk result (λ gates. (s : ℕ) → IsVisited seen.new s → ⊥) }
{
    let mut met = Vec::new(alloc);
    visit_below(alloc, net, root, seen, &mut met)?;
    Ok(unvisit_all(net, seen, met.as_slice()))
}

/// How many gates are below each of the roots. Before and after each of them, no flag is set.
fn counts_below(
    alloc: Global,
    net: &Netlist,
    roots: &[Signal],
    seen: &mut [bool],
) -> Result<Vec<u64>, AllocError>
    requires in_bounds { All (λ s. s < length net.now.names) roots.now }
    requires one_per_signal { length seen.old ≡ length net.now.names }
    requires none_visited { (s : ℕ) → IsVisited seen.old s → ⊥ }
    requires sound { IsNet net.now }
    ensures { IfOk result (λ v. AllZip (HasGates (circuit net.now)) roots.now v.items) }
{
    let mut counts = Vec::new(alloc);
    for place in 0..roots.len() {
        counts.push(count_below(alloc, net, roots[place], seen)?)?;
    }
    Ok(counts)
}

/// How many gates are below each of the signals, themselves included. Time is that of the walks and one look at the
/// netlist; memory is linear in the netlist and in the number of signals.
#[tactic(auto, using(crate::proofs::Walking::none_seen))]
pub fn gates_below(alloc: Global, net: &Netlist, roots: &[Signal]) -> Result<Vec<u64>, AllocError>
    requires { All (λ s. s < length net.now.names) roots.now }
    ensures { IfOk result (λ v. AllZip (HasGates (circuit net.now)) roots.now v.items) }
{
    let mut seen = Vec::from_elem(alloc, false, net.count())?;
    counts_below(alloc, net, roots, seen.as_mut_slice())
}
