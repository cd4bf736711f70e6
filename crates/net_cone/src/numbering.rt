// The numbers of signals in a cone, and gates whose signals are replaced by these numbers.
ghost use Rattle.std.specs.Prelude.{◌≡◌, ◌≢◌, ◌<◌, ℕ, ◌++◌, ◌∷◌, [], filter, map, length, slice_index, slice_index_or, ◌+◌, All, IfOk};
ghost use Rattle.std.specs.Prelude.{OnOk};
ghost use Rattle.net_bench.specs.Circuit.{HaveNoRepeats};
ghost use Rattle.net_cone.specs.Cones.{gate_signals, last_gate};
ghost use Rattle.net_cone.specs.Walk.{IsNumbering, gates_of, is_visited, renumbered};

use net_bench::name_table::narrow;
use net_bench::netlist::{GateLine, Kind, Netlist, Operands, Role, Signal};
use std::alloc::{AllocError, Global};

/// Gives a signal the next number.
fn number(signal: Signal, from: &mut Vec<Signal>, to: &mut [u32]) -> Result<(), AllocError>
    requires in_bounds { signal < length to.old }
    requires fresh { All (λ s. s ≢ signal) from.old.items }
    requires numbered { IsNumbering from.old.items to.old }
    ensures numbered { OnOk result (IsNumbering from.new.items to.new) }
    ensures added { OnOk result (from.new.items ≡ from.old.items ++ signal ∷ []) }
{
    let next = narrow(from.len())?;
    from.push(signal)?;
    to[signal.number() as usize] = next;
    Ok(())
}

/// Gives those of these signals that were visited the next numbers, in their order.
pub fn number_visited(
    seen: &[bool],
    signals: &[Signal],
    from: &mut Vec<Signal>,
    to: &mut [u32],
) -> Result<(), AllocError>
    requires seen { length seen.now ≡ length to.old }
    requires in_bounds { All (λ s. s < length to.old) signals.now }
    requires once { HaveNoRepeats signals.now }
    requires fresh { All (λ s. All (λ t. t ≢ s) from.old.items) signals.now }
    requires numbered { IsNumbering from.old.items to.old }
    ensures numbered { OnOk result (IsNumbering from.new.items to.new) }
    ensures added { OnOk result (from.new.items ≡ from.old.items ++ filter (is_visited seen.now) signals.now) }
{
    for place in 0..signals.len() {
        let signal = signals[place];
        if seen[signal.number() as usize] {
            number(signal, from, to)?;
        }
    }
    Ok(())
}

/// The signals of a netlist's gates, in the order of the text. Time and memory are linear in the netlist.
pub fn gate_signals(alloc: Global, net: &Netlist) -> Result<Vec<Signal>, AllocError>
    ensures { IfOk result (λ v. v.items ≡ gate_signals net.now) }
{
    let mut signals = Vec::new(alloc);
    let gates = net.gates();
    for gate in gates {
        signals.push(gate.out)?;
    }
    Ok(signals)
}

/// The number of a signal in the cone.
fn number_of(to: &[u32], signal: Signal) -> Signal
    requires { signal < length to.now }
    ensures { result ≡ slice_index to.now signal }
{
    Signal::of(to[signal.number() as usize])
}

/// A gate by numbers, without the line of its text.
fn renumbered(alloc: Global, gate: &GateLine, to: &[u32]) -> Result<GateLine, AllocError>
    requires out { gate.now.out < length to.now }
    requires operands { All (λ s. s < length to.now) gate.now.operands }
    ensures { IfOk result (λ g. g ≡ renumbered to.now gate.now) }
{
    let mut operands = Vec::new(alloc);
    let signals = gate.operands.as_slice();
    for signal in signals {
        operands.push(number_of(to, *signal))?;
    }
    Ok(GateLine {
        out: number_of(to, gate.out),
        kind: gate.kind,
        operands: Operands::of(operands),
        line: 0,
    })
}

/// Copies of the gates of these signals, with the numbers of their signals in the cone.
pub fn renumbered_gates(
    alloc: Global,
    net: &Netlist,
    signals: &[Signal],
    to: &[u32],
) -> Result<Vec<GateLine>, AllocError>
    requires signals { All (λ s. s < length net.now.names) signals.now }
    requires numbers { length to.now ≡ length net.now.names }
    ensures { IfOk result (λ v. v.items ≡ map (renumbered to.now) (gates_of net.now.gates signals.now)) }
{
    let mut copies = Vec::new(alloc);
    let gates = net.gates();
    for place in 0..signals.len() {
        if let Role::Gate(gate) = net.role(signals[place]) {
            copies.push(renumbered(alloc, &gates[gate as usize], to)?)?;
        }
    }
    Ok(copies)
}

/// The ranks of a cone's signals: those in the netlist, and for the last gate 1 more than the root's.
pub fn ranks_of(
    alloc: Global,
    net: &Netlist,
    from: &[Signal],
    root: Signal,
) -> Result<Vec<u32>, AllocError>
    requires from { All (λ s. s < length net.now.names) from.now }
    requires root { root < length net.now.names }
    ensures { IfOk result (λ v. v.items ≡ map (slice_index net.now.ranks) from.now ++ (slice_index net.now.ranks root + 1) ∷ []) }
{
    let mut ranks = Vec::new(alloc);
    for signal in from {
        ranks.push(net.rank(*signal))?;
    }
    match net.rank(root).checked_add(1) {
        Some(rank) => ranks.push(rank)?,
        None => return Err(AllocError),
    }
    Ok(ranks)
}

/// The signals from 0 to `count - 1`, which are the cone's inputs.
pub fn first_numbers(alloc: Global, count: usize) -> Result<Vec<Signal>, AllocError>
    ensures count { IfOk result (λ v. length v.items ≡ count) }
    ensures each_is_its_place { IfOk result (λ v. (i d : ℕ) → i < count → slice_index_or v.items i d ≡ i) }
{
    let mut signals = Vec::new(alloc);
    for place in 0..count {
        signals.push(Signal::of(narrow(place)?))?;
    }
    Ok(signals)
}

/// The last gate of a cone: a BUFF of the root. It has no line in a text, so its line is 0.
pub fn last_gate(
    alloc: Global,
    out: Signal,
    to: &[u32],
    root: Signal,
) -> Result<GateLine, AllocError>
    requires { root < length to.now }
    ensures { IfOk result (λ g. g ≡ last_gate out (slice_index to.now root)) }
{
    let mut operands = Vec::new(alloc);
    operands.push(number_of(to, root))?;
    Ok(GateLine {
        out,
        kind: Kind::Buff,
        operands: Operands::of(operands),
        line: 0,
    })
}
