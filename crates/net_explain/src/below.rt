// Which signals are below a root.
ghost use Rattle.std.specs.Prelude.{◌≡◌, ◌<◌, ◌↔◌, ◌⊎◌, ℕ, length, All, Contains, IfOk, true};
ghost use Rattle.net_bench.specs.Labels.{bit_of};
ghost use Rattle.net_explain.specs.Explaining.{AreBelowFlags};

use net_bench::netlist::{Netlist, Signal};
use net_cone::{cone_of, gate_signals, own_names};
use std::alloc::{AllocError, Global};

/// Sets the flags of these signals.
fn set_flags(visited: &mut [bool], signals: &[Signal])
    requires { All (λ s. s < length visited.old) signals.now }
    ensures { (s : ℕ) → (bit_of visited.new s ≡ true) ↔ ((bit_of visited.old s ≡ true) ⊎ Contains signals.now s) }
{
    for place in 0..signals.len() {
        visited[signals[place].number() as usize] = true;
    }
}

/// For each signal whether it is below the root: the root itself, an operand of its gate, and so on. Time and memory
/// are linear in the netlist.
pub fn visited_below(alloc: Global, net: &Netlist, root: Signal) -> Result<Vec<bool>, AllocError>
    requires { root < length net.now.names }
    ensures { IfOk result (λ v. AreBelowFlags net.now root v.items) }
{
    let names = own_names(alloc, net)?;
    let gates = gate_signals(alloc, net)?;
    let cone = cone_of(alloc, net, root, names.as_slice(), gates.as_slice())?;
    let mut visited = Vec::from_elem(alloc, false, net.count())?;
    set_flags(visited.as_mut_slice(), cone.sources());
    Ok(visited)
}
