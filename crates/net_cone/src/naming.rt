// The names of a cone's signals. The first byte keeps variables, gates and the output apart.
ghost use Rattle.std.specs.Prelude.{◌≡◌, ◌<◌, ◌∷◌, [], fold, map, length, slice_index_or, All, IfOk, OnOk};
ghost use Rattle.net_bench.specs.Circuit.{with_name};
ghost use Rattle.net_cone.specs.Cones.{AreNames, gate_name, variable_name};
ghost use Rattle.net_cone.specs.Walk.{numbered_name};

use net_bench::name_table::{NameTable, narrow};
use net_bench::netlist::{Netlist, Signal};
use std::alloc::{AllocError, Global};

/// Appends a name, with a byte before it, to the names.
fn intern_prefixed(
    alloc: Global,
    names: &mut NameTable,
    first: u8,
    name: &[u8],
) -> Result<(), AllocError>
    ensures { OnOk result (names.new ≡ with_name names.old (first ∷ name.now)) }
{
    let mut whole = Vec::new(alloc);
    whole.push(first)?;
    whole.extend_from_slice(name)?;
    names.intern(alloc, whole.as_slice())?;
    Ok(())
}

/// Appends the names of these variables to the names, each with a 'v' before it.
pub fn intern_variables(
    alloc: Global,
    names: &mut NameTable,
    variables: &[Signal],
    given: &[Vec<u8>],
) -> Result<(), AllocError>
    requires { All (λ s. s < length given.now) variables.now }
    ensures { OnOk result (names.new ≡ fold with_name names.old (map (variable_name (map (λ w. w.items) given.now)) variables.now)) }
{
    for place in 0..variables.len() {
        let name = given[variables[place].number() as usize].as_slice();
        intern_prefixed(alloc, names, b'v', name)?;
    }
    Ok(())
}

/// The name of a signal.
#[tactic(auto, using(crate::proofs::Numbered::name_at))]
pub fn name_of<'a>(net: &'a Netlist, signal: Signal) -> &'a [u8]
    requires { signal < length net.now.names }
    ensures { result.now ≡ slice_index_or net.now.names signal [] }
{
    net.name(signal)
}

/// Puts the name of the gate of this number to the names.
fn intern_gate(alloc: Global, names: &mut NameTable, number: u32) -> Result<(), AllocError>
    ensures { OnOk result (names.new ≡ with_name names.old (gate_name number)) }
{
    let digits = format!(in alloc; "{number}")?;
    intern_prefixed(alloc, names, b'g', digits.as_bytes())
}

/// Puts the names of gates to the names, by their numbers in the cone.
pub fn intern_gates(
    alloc: Global,
    names: &mut NameTable,
    to: &[u32],
    signals: &[Signal],
) -> Result<(), AllocError>
    requires { All (λ s. s < length to.now) signals.now }
    ensures { OnOk result (names.new ≡ fold with_name names.old (map (numbered_name to.now) signals.now)) }
{
    for place in 0..signals.len() {
        let number = to[signals[place].number() as usize];
        intern_gate(alloc, names, number)?;
    }
    Ok(())
}

/// The names of the netlist's own signals, by signal: the usual argument of `cone_of`.
#[tactic(auto, using(crate::proofs::Numbered::own_named))]
pub fn own_names(alloc: Global, net: &Netlist) -> Result<Vec<Vec<u8>>, AllocError>
    ensures names { IfOk result (λ v. map (λ w. w.items) v.items ≡ net.now.names) }
    ensures named { IfOk result (λ v. AreNames net.now (map (λ w. w.items) v.items)) }
{
    let mut names = Vec::new(alloc);
    for number in 0..net.count() {
        let name = name_of(net, Signal::of(narrow(number)?));
        names.push(Vec::from_slice(alloc, name)?)?;
    }
    Ok(names)
}
