// The cone of a signal, made of the signals below it.
ghost use Rattle.std.specs.Prelude.{◌≡◌, ◌<◌, ◌≤◌, ◌++◌, [], filter, fold, map, length, All, IfOk, OnOk};
ghost use Rattle.net_bench.specs.Assembly.{net_of_parts};
ghost use Rattle.net_bench.specs.Circuit.{circuit, variables_of, with_name};
ghost use Rattle.net_cone.specs.Cones.{AreNames, IsCone, gate_signals};
ghost use Rattle.net_cone.specs.Walk.{HasConeParts, IsNumbering, cone_names, is_visited};

use crate::below::seen_below;
use crate::naming::{intern_gates, intern_variables};
use crate::numbering::{first_numbers, last_gate, number_visited, ranks_of, renumbered_gates};
use net_bench::assembly::Assembly;
use net_bench::name_table::{NameTable, narrow};
use net_bench::netlist::{Netlist, Signal};
use net_bench::reader::netlist_of_parts;
use std::alloc::{AllocError, Global};

/// The most signals of a netlist.
const MAX_SIGNALS: usize = 1_000_000;

/// The cone of a signal: the signal and all that it depends on, as a netlist of its own. Its inputs are the variables
/// that are met, in their order; its gates are the gates that are met, in the order of the text, and last a BUFF of the
/// signal, which is its one output.
#[derive(Drop)]
pub struct Cone {
    pub net: Netlist,
    from: Vec<Signal>,
}

impl Cone {
    /// For each signal of the cone but the last, the signal of the netlist of which it is a copy.
    pub fn sources(&self) -> &[Signal]
        ensures { result.now ≡ self.now.from.items }
    {
        self.from.as_slice()
    }
}

/// The numbering of a cone: `from` has the signal of each number but the last, variables first; `to` has the number of
/// each signal of the netlist that is met; `variables` is how many are variables.
#[derive(Drop)]
pub struct ConeNumbering {
    pub from: Vec<Signal>,
    pub to: Vec<u32>,
    pub variables: usize,
}

/// Numbers the visited signals, variables first, and returns how many of these there are.
fn number_all(
    net: &Netlist,
    seen: &[bool],
    outs: &[Signal],
    from: &mut Vec<Signal>,
    to: &mut [u32],
) -> Result<usize, AllocError>
    requires seen { length seen.now ≡ length to.old }
    requires one_per_signal { length to.old ≡ length net.now.names }
    requires outs { outs.now ≡ gate_signals net.now }
    requires none_numbered { from.old.items ≡ [] }
    ensures numbered { OnOk result (IsNumbering from.new.items to.new) }
    ensures variables { IfOk result (λ n. n ≡ length (filter (is_visited seen.now) (variables_of (circuit net.now)))) }
    ensures from { OnOk result (from.new.items ≡ filter (is_visited seen.now) (variables_of (circuit net.now))
        ++ filter (is_visited seen.now) outs.now) }
{
    number_visited(seen, net.variables(), from, to)?;
    let variables = from.len();
    number_visited(seen, outs, from, to)?;
    Ok(variables)
}

/// The numbering of the visited signals.
fn numbers_of(
    alloc: Global,
    net: &Netlist,
    seen: &[bool],
    outs: &[Signal],
) -> Result<ConeNumbering, AllocError>
    requires seen { length seen.now ≡ length net.now.names }
    requires outs { outs.now ≡ gate_signals net.now }
    ensures one_per_signal { IfOk result (λ v. length v.to.items ≡ length net.now.names) }
    ensures numbered { IfOk result (λ v. IsNumbering v.from.items v.to.items) }
    ensures variables { IfOk result (λ v. v.variables ≡ length (filter (is_visited seen.now) (variables_of (circuit net.now)))) }
    ensures from { IfOk result (λ v. v.from.items ≡ filter (is_visited seen.now) (variables_of (circuit net.now))
        ++ filter (is_visited seen.now) (gate_signals net.now)) }
{
    let mut to = Vec::from_elem(alloc, 0u32, net.count())?;
    let mut from = Vec::new(alloc);
    let variables = number_all(net, seen, outs, &mut from, to.as_mut_slice())?;
    Ok(ConeNumbering {
        from,
        to,
        variables,
    })
}

/// The names of a cone's signals. More names than a netlist may have are refused like memory.
fn names_of(
    alloc: Global,
    from: &[Signal],
    to: &[u32],
    variables: usize,
    given: &[Vec<u8>],
) -> Result<NameTable, AllocError>
    requires variables { variables ≤ length from.now }
    requires given { length given.now ≡ length to.now }
    requires known { All (λ s. s < length to.now) from.now }
    ensures names { IfOk result (λ v. v ≡ fold with_name [] (cone_names (map (λ w. w.items) given.now) to.now variables from.now)) }
    ensures few { IfOk result (λ v. length v ≤ 1000000) }
    ensures short { IfOk result (λ v. length from.now ≤ 1000000) }
{
    if from.len() > MAX_SIGNALS {
        return Err(AllocError);
    }
    let mut names = NameTable::new(alloc);
    let (inputs, gates) = from.split_at(variables);
    intern_variables(alloc, &mut names, inputs, given)?;
    intern_gates(alloc, &mut names, to, gates)?;
    names.intern(alloc, b"o")?;
    if names.len() > MAX_SIGNALS {
        return Err(AllocError);
    }
    Ok(names)
}

/// The parts of a cone, from which its netlist is made.
fn parts_of(
    alloc: Global,
    net: &Netlist,
    root: Signal,
    given: &[Vec<u8>],
    numbers: &ConeNumbering,
) -> Result<Assembly, AllocError>
    requires root { root < length net.now.names }
    requires given { length given.now ≡ length net.now.names }
    requires to { length numbers.now.to.items ≡ length net.now.names }
    requires known { All (λ s. s < length net.now.names) numbers.now.from.items }
    requires variables { numbers.now.variables ≤ length numbers.now.from.items }
    ensures { IfOk result (λ p. HasConeParts net.now root (map (λ w. w.items) given.now) numbers.now (net_of_parts p)) }
{
    let from = numbers.from.as_slice();
    let to = numbers.to.as_slice();
    let names = names_of(alloc, from, to, numbers.variables, given)?;
    let (_, own) = from.split_at(numbers.variables);
    let mut gates = renumbered_gates(alloc, net, own, to)?;
    let out = Signal::of(narrow(from.len())?);
    gates.push(last_gate(alloc, out, to, root)?)?;
    let mut outputs = Vec::new(alloc);
    outputs.push(out)?;
    Ok(Assembly {
        names,
        inputs: first_numbers(alloc, numbers.variables)?,
        outputs,
        gates,
        registers: Vec::new(alloc),
        ranks: ranks_of(alloc, net, from, root)?,
    })
}

/// The cone of a signal of the netlist. Its variables have the names that are given, by signal, with a 'v' before them;
/// its gates have their numbers in the cone, with a 'g' before them; its output is "o". So no two names are the same, and
/// two cones of the same gates over the same variables are the same. The signals of the netlist's gates (`gate_signals`)
/// are an argument, so that one list of them serves many cones. Time and memory are linear in the netlist: a walk over
/// what is met, and one look at each signal. A cone of more signals than a netlist may have is refused like memory.
pub fn cone_of(
    alloc: Global,
    net: &Netlist,
    root: Signal,
    names: &[Vec<u8>],
    outs: &[Signal],
) -> Result<Cone, AllocError>
    requires in_bounds { root < length net.now.names }
    requires names { AreNames net.now (map (λ w. w.items) names.now) }
    requires outs { outs.now ≡ gate_signals net.now }
    ensures { IfOk result (λ c. IsCone net.now root (map (λ w. w.items) names.now) c.net c.from.items) }
{
    let below = seen_below(alloc, net, root)?;
    let seen = below.as_slice();
    let numbers = numbers_of(alloc, net, seen, outs)?;
    let parts = parts_of(alloc, net, root, names, &numbers)?;
    let ConeNumbering { from, .. } = numbers;
    Ok(Cone {
        net: netlist_of_parts(alloc, parts)?,
        from,
    })
}
