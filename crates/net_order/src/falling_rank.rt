//! Signals by falling rank, the order in which interleaving takes them.
ghost use Rattle.std.specs.Prelude.{◌≡◌, ◌<◌, length, All, IfOk, slice_index};
ghost use Rattle.net_bench.specs.Circuit.{circuit};
ghost use Rattle.net_order.specs.Order.{falling, rank_of};

use net_bench::netlist::{Netlist, Signal};
use std::alloc::{AllocError, Global};
use std::cmp::Reverse;

/// The rank of a signal; 0 if the netlist has no such signal.
pub fn rank_at(net: &Netlist, signal: Signal) -> u32
    ensures { result ≡ slice_index net.now.ranks signal }
{
    if (signal.number() as usize) < net.count() {
        net.rank(signal)
    } else {
        0
    }
}

/// The signals by falling rank, those of equal rank from left to right.
pub fn by_rank(alloc: Global, net: &Netlist, signals: &[Signal]) -> Result<Vec<Signal>, AllocError>
    requires { All (λ s. s < length net.now.names) signals.now }
    ensures { IfOk result (λ v. v.items ≡ falling (rank_of (circuit net.now)) signals.now) }
{
    let _ = net.count(); // For the proof.
    let mut sorted = Vec::from_slice(alloc, signals)?;
    sorted.sort_by_key(|signal| Reverse(rank_at(net, *signal)))?;
    Ok(sorted)
}
