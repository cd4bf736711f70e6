// Whether two netlists are the same.
ghost use Rattle.std.specs.Prelude.{◌≡◌, ◌<◌, true, [], length, slice_index_or};
ghost use Rattle.net_bench.specs.Circuit.{circuit};

use crate::naming::name_of;
use net_bench::netlist::{GateLine, Kind, Netlist, Signal};

/// Whether two lists of signals are the same.
fn are_same_signals(ones: &[Signal], others: &[Signal]) -> bool
    ensures { result ≡ true → ones.now ≡ others.now }
{
    if ones.len() != others.len() {
        return false;
    }
    for place in 0..ones.len() {
        if ones[place].number() != others[place].number() {
            return false;
        }
    }
    true
}

/// Whether two kinds of gates are the same.
fn is_same_kind(one: Kind, other: Kind) -> bool
    ensures { result ≡ true → one ≡ other }
{
    one == other
}

/// Whether two gates are the same.
fn is_same_gate(one: &GateLine, other: &GateLine) -> bool
    ensures { result ≡ true → one.now ≡ other.now }
{
    if one.out.number() != other.out.number() {
        return false;
    }
    if !is_same_kind(one.kind, other.kind) {
        return false;
    }
    if one.line != other.line {
        return false;
    }
    are_same_signals(one.operands.as_slice(), other.operands.as_slice())
}

/// Whether two lists of gates are the same.
fn are_same_gates(ones: &[GateLine], others: &[GateLine]) -> bool
    ensures { result ≡ true → ones.now ≡ others.now }
{
    if ones.len() != others.len() {
        return false;
    }
    for place in 0..ones.len() {
        if !is_same_gate(&ones[place], &others[place]) {
            return false;
        }
    }
    true
}

/// Whether two names are the same.
fn is_same_name(one: &[u8], other: &[u8]) -> bool
    ensures { result ≡ true → one.now ≡ other.now }
{
    one == other
}

/// Whether the signals of this number have the same name.
fn is_same_name_at(one: &Netlist, other: &Netlist, number: usize) -> bool
    requires first { number < length one.now.names }
    requires second { number < length other.now.names }
    ensures { result ≡ true → slice_index_or one.now.names number [] ≡ slice_index_or other.now.names number [] }
{
    let Ok(number) = u32::try_from(number) else {
        return false;
    };
    let signal = Signal::of(number);
    is_same_name(name_of(one, signal), name_of(other, signal))
}

/// Whether the signals of two netlists have the same names.
fn are_same_names(one: &Netlist, other: &Netlist) -> bool
    ensures { result ≡ true → one.now.names ≡ other.now.names }
{
    let count = one.count();
    if count != other.count() {
        return false;
    }
    for number in 0..count {
        if !is_same_name_at(one, other, number) {
            return false;
        }
    }
    true
}

/// Whether two netlists are the same. Time is linear in them.
pub fn is_same_net(one: &Netlist, other: &Netlist) -> bool
    ensures { result ≡ true → circuit one.now ≡ circuit other.now }
{
    if !are_same_gates(one.gates(), other.gates()) {
        return false;
    }
    if !are_same_gates(one.registers(), other.registers()) {
        return false;
    }
    if !are_same_signals(one.inputs(), other.inputs()) {
        return false;
    }
    if !are_same_signals(one.outputs(), other.outputs()) {
        return false;
    }
    are_same_names(one, other)
}
