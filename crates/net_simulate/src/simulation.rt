//! The values of a netlist's signals, computed from those of its variables.
ghost use Rattle.std.specs.Prelude.{◌≡◌, ◌<◌, ℕ, Bool, List, length, map, slice_set, slice_index_or, All};
ghost use Rattle.net_bench.specs.Circuit.{IsNet, circuit, variables_of};
ghost use Rattle.net_bench.specs.Labels.{IsFunctionOf, bit_of, value_of};
ghost use Rattle.net_simulate.specs.Columns.{AreLabellings, HaveLevels, KeepsVariables, column};
ghost use Rattle.net_simulate.specs.Schedules.{AreBelow, Equation, HasValue, IsSchedule};

use crate::gates::value_of;
use crate::packing::Packed;
use crate::schedule::Schedule;
use net_bench::netlist::{Netlist, Signal};

/// The value at a place; all 0 beyond the end.
fn value_at<V: Packed>(values: &[V], place: usize) -> V
    ensures { (i : ℕ) → i < V.count → V.bit i result ≡ bit_of (column V.bit i values.now) place }
{
    if place < values.len() {
        values[place]
    } else {
        V::zeros()
    }
}

/// Sets each variable to the value of its level. A register is a variable, as an input is.
fn set_variables<V: Packed>(net: &Netlist, levels: &[u32], at: &[V], values: &mut [V])
    requires each { length values.old ≡ length net.now.names }
    requires levels { length levels.now ≡ length (variables_of (circuit net.now)) }
    ensures { HaveLevels V.bit V.count net.now levels.now at.now values.new }
{
    let variables = net.variables();
    for place in 0..variables.len() {
        let value = value_at(at, levels[place] as usize);
        values[variables[place].number() as usize] = value;
    }
}

/// Sets the value of a signal.
fn put<V: Packed>(values: &mut [V], signal: Signal, value: V)
    requires { signal < length values.old }
    ensures { values.new ≡ slice_set values.old signal value }
{
    values[signal.number() as usize] = value;
}

/// Sets the signal of the gate at this place of the schedule to the value that it has for its operands.
fn set_gate<V: Packed>(schedule: &Schedule, place: usize, values: &mut [V])
    requires place { place < length schedule.now }
    requires inside { AreBelow (length values.old) schedule.now }
    ensures { (d : Equation) (i : ℕ) → i < V.count → let e = slice_index_or schedule.now place d in
        column V.bit i values.new ≡ slice_set (column V.bit i values.old) e.out (value_of e.kind (map (bit_of (column V.bit i values.old)) e.operands)) }
{
    let gate = schedule.gate(place);
    let value = value_of(gate.kind, gate.operands, values);
    put(values, gate.out, value);
}

/// Sets the signals of all gates, in the order of the schedule: by rising rank, so that operands come first.
fn set_gates<V: Packed>(net: &Netlist, schedule: &Schedule, values: &mut [V])
    requires schedule { IsSchedule net.now schedule.now }
    requires each { length values.old ≡ length net.now.names }
    requires sound { IsNet net.now }
    ensures set { (i : ℕ) → i < V.count → All (HasValue (column V.bit i values.new)) schedule.now }
    ensures kept { (i : ℕ) → i < V.count → KeepsVariables net.now (column V.bit i values.old) (column V.bit i values.new) }
{
    for place in 0..schedule.len() {
        set_gate(schedule, place, values);
    }
}

/// Sets the values of all signals from the values of the variables, `at`, which are by level. `levels` has the level of
/// each variable, in the order of the variables. A level beyond the end of `at` counts as all 0. Time is linear in the
/// netlist, and no memory is allocated.
pub fn simulate<V: Packed>(
    net: &Netlist,
    schedule: &Schedule,
    levels: &[u32],
    at: &[V],
    values: &mut [V],
)
    requires schedule { IsSchedule net.now schedule.now }
    requires levels { length levels.now ≡ length (variables_of (circuit net.now)) }
    requires each { length values.old ≡ length net.now.names }
    // Each bit of all values together is the labelling for this bit of the variables.
    ensures labelling { (level : ℕ → ℕ) → map level (variables_of (circuit net.now)) ≡ levels.now
        → AreLabellings V.bit V.count net.now level at.now values.new }
    // So each bit of a signal's value is the value of its function.
    ensures functions { (level : ℕ → ℕ) → map level (variables_of (circuit net.now)) ≡ levels.now → (i : ℕ) → i < V.count
        → (s : ℕ) (f : List Bool → Bool) → s < length net.now.names → IsFunctionOf (circuit net.now) level (length at.now) s f
        → bit_of (column V.bit i values.new) s ≡ f (column V.bit i at.now) }
{
    let _ = net.variables(); // For the proof.
    set_variables(net, levels, at, values);
    set_gates(net, schedule, values);
}
