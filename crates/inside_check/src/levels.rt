//! The levels of a netlist's signals in a naming.
ghost use Rattle.std.specs.Prelude.{IfOk};
ghost use Rattle.net_bench.specs.Circuit.{circuit};
ghost use Rattle.inside_check.specs.Levels.{HasLevelsOf};

use net_bench::netlist::{Netlist, Signal};
use net_order::naming::Naming;
use std::alloc::{AllocError, Global};

/// For each signal of the first netlist its level in a naming.
pub(crate) fn first_levels(
    alloc: Global,
    net: &Netlist,
    naming: &Naming,
) -> Result<Vec<u32>, AllocError>
    ensures { IfOk result (λ v. HasLevelsOf (circuit net.now) naming.now.first v.items) }
{
    let mut levels = Vec::new(alloc);
    for number in 0..net.count() {
        levels.push(naming.first_level(Signal::of(number as u32)))?;
    }
    Ok(levels)
}

/// For each signal of the second netlist its level in a naming.
pub(crate) fn second_levels(
    alloc: Global,
    net: &Netlist,
    naming: &Naming,
) -> Result<Vec<u32>, AllocError>
    ensures { IfOk result (λ v. HasLevelsOf (circuit net.now) naming.now.second v.items) }
{
    let mut levels = Vec::new(alloc);
    for number in 0..net.count() {
        levels.push(naming.second_level(Signal::of(number as u32)))?;
    }
    Ok(levels)
}
