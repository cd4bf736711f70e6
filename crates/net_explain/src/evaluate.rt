//! The values of a netlist's signals at an assignment of the variables.
ghost use Rattle.std.specs.Prelude.{◌≡◌, ◌<◌, ℕ, Bool, List, length, map, IfOk};
ghost use Rattle.net_bench.specs.Circuit.{IsNet, circuit, variables_of};
ghost use Rattle.net_bench.specs.Labels.{IsFunctionOf, IsLabelling, bit_of};
ghost use Rattle.net_order.specs.Order.{level_in};

use net_bench::netlist::Netlist;
use net_order::naming::Naming;
use net_order::netlist_role::NetlistRole;
use net_simulate::{schedule_of, simulate};
use std::alloc::{AllocError, Global};

/// The level of each variable of a netlist, in the order of its variables.
fn levels_of(
    alloc: Global,
    net: &Netlist,
    naming: &Naming,
    which: NetlistRole,
) -> Result<Vec<u32>, AllocError>
    ensures { IfOk result (λ v. v.items ≡ map (level_in naming.now which) (variables_of (circuit net.now))) }
{
    let variables = net.variables();
    let mut levels = Vec::new(alloc);
    for place in 0..variables.len() {
        levels.push(naming.level(which, variables[place]))?;
    }
    Ok(levels)
}

/// The value of each signal of one netlist of a naming, by signal, if the variables have these bits, by level. A level
/// beyond the end counts as 0. Time and memory are linear in the netlist.
pub fn values(
    alloc: Global,
    net: &Netlist,
    naming: &Naming,
    which: NetlistRole,
    at: &[bool],
) -> Result<Vec<bool>, AllocError>
    // Each variable has the bit of its level, and each gate its value for its operands' bits.
    ensures labelling { IfOk result (λ v. IsLabelling (circuit net.now) (level_in naming.now which) at.now v.items) }
    // So each signal has the value of its function.
    ensures functions { IfOk result (λ v. (s : ℕ) (f : List Bool → Bool) → s < length net.now.names →
        IsFunctionOf (circuit net.now) (level_in naming.now which) (length at.now) s f → bit_of v.items s ≡ f at.now) }
    ensures sound { IsNet net.now }
{
    let schedule = schedule_of(alloc, net)?;
    let levels = levels_of(alloc, net, naming, which)?;
    let mut bits = Vec::from_elem(alloc, false, net.count())?;
    simulate(net, &schedule, levels.as_slice(), at, bits.as_mut_slice());
    Ok(bits)
}
