//! The names that a naming gives to the variables of a netlist, by signal.
ghost use Rattle.std.specs.Prelude.{◌≡◌, ◌<◌, length, slice_index, All, IfOk};
ghost use Rattle.net_bench.specs.Circuit.{circuit, variables_of};
ghost use Rattle.compare_built.specs.Cones.{AreNamed};
ghost use Rattle.cone_check.specs.ConeRounds.{levels_in, texts};

use net_bench::netlist::{Netlist, Signal};
use net_order::naming::Naming;
use net_order::netlist_role::NetlistRole;
use std::alloc::{AllocError, Global};

/// Returns the level of a variable of this netlist in the naming.
pub fn level_in(naming: &Naming, part: NetlistRole, variable: Signal) -> u32
    ensures { result ≡ slice_index (levels_in part naming.now) variable }
{
    match part {
        NetlistRole::First => naming.first_level(variable),
        NetlistRole::Second => naming.second_level(variable),
        NetlistRole::Given => naming.given_level(variable),
    }
}

/// Returns `count` empty names.
fn no_names(alloc: Global, count: usize) -> Result<Vec<Vec<u8>>, AllocError>
    ensures { IfOk result (λ names. length names.items ≡ count) }
{
    let mut names = Vec::with_capacity(alloc, count)?;
    for _ in 0..count {
        names.push(Vec::new(alloc))?;
    }
    Ok(names)
}

/// Returns by signal the names that the naming gives to the variables of the netlist. Other signals have the empty
/// name. Fails if memory is refused.
pub fn names_in(
    alloc: Global,
    net: &Netlist,
    naming: &Naming,
    part: NetlistRole,
) -> Result<Vec<Vec<u8>>, AllocError>
    requires { All (λ s. slice_index (levels_in part naming.now) s < length naming.now.names) (variables_of (circuit net.now)) }
    ensures { IfOk result (λ names. AreNamed (circuit net.now) (levels_in part naming.now) naming.now (texts names.items)) }
{
    let mut names = no_names(alloc, net.count())?;
    let variables = net.variables();
    for place in 0..variables.len() {
        let variable = variables[place];
        let level = level_in(naming, part, variable) as usize;
        names[variable.number() as usize] = Vec::from_slice(alloc, naming.names().at(level))?;
    }
    Ok(names)
}
