// The gates of a netlist by rank.
ghost use Rattle.std.specs.Prelude.{◌≡◌, ◌<◌, [], map, replicate, IfOk};
ghost use Rattle.net_bench.specs.Circuit.{IsNet, highest_rank};
ghost use Rattle.net_simulate.specs.RankRows.{AreRows};

use net_bench::netlist::{Netlist, Signal};
use std::alloc::{AllocError, Global};

/// `count` rows without signals.
fn empty_rows(alloc: Global, count: usize) -> Result<Vec<Vec<Signal>>, AllocError>
    ensures { IfOk result (λ v. map (λ w. w.items) v.items ≡ replicate count []) }
{
    let mut rows = Vec::new(alloc);
    for _ in 0..count {
        rows.push(Vec::new(alloc))?;
    }
    Ok(rows)
}

/// The signals of the gates by rank: a row for each rank, rank 1 first, each in the order of the text. Time and memory
/// are linear.
pub fn gates_by_rank(alloc: Global, net: &Netlist) -> Result<Vec<Vec<Signal>>, AllocError>
    ensures rows { IfOk result (λ v. AreRows net.now (map (λ w. w.items) v.items)) }
    ensures sound { IsNet net.now }
{
    let gates = net.gates();
    let mut rows = empty_rows(alloc, net.highest_rank())?;
    for gate in gates {
        let rank = net.rank(gate.out) as usize;
        rows[rank - 1].push(gate.out)?;
    }
    Ok(rows)
}
