//! A hash of each signal, which is the same for signals with the same gates over the same variables. It is only a hint,
//! by which pairs with the same cones are found; no verdict depends on it. So no function has a contract, and each
//! checks its indices, although none is out of range.

use crate::variable_names::level_in;
use net_bench::netlist::{GateLine, Kind, Netlist, Role, Signal};
use net_order::naming::Naming;
use net_order::netlist_role::NetlistRole;
use std::alloc::{AllocError, Global};

/// Mixes two words into a hash of both. The multiplier is 2^64 divided by the golden ratio (Fibonacci hashing).
pub(crate) fn mixed(word: u64, other: u64) -> u64 {
    let product = (word ^ other).wrapping_mul(0x9E37_79B9_7F4A_7C15);
    product ^ (product >> 29)
}

/// Returns the hash of a signal, 0 if none is set.
pub(crate) fn word_at(words: &[u64], signal: Signal) -> u64 {
    let place = signal.number() as usize;
    if place < words.len() { words[place] } else { 0 }
}

/// Sets the hash of a signal.
fn put_word(words: &mut [u64], signal: Signal, word: u64) {
    let place = signal.number() as usize;
    if place < words.len() {
        words[place] = word;
    }
}

/// Returns a number that differs for each kind of gate.
fn number_of(kind: Kind) -> u64 {
    match kind {
        Kind::And => 1,
        Kind::Nand => 2,
        Kind::Or => 3,
        Kind::Nor => 4,
        Kind::Xor => 5,
        Kind::Xnor => 6,
        Kind::Not => 7,
        Kind::Buff => 8,
        Kind::Dff => 9,
    }
}

/// Returns the hash of a gate, from its kind and the hashes of its operands in their order. The rotation makes the
/// order count: two gates with the same operands in another order are not the same gates.
fn word_of(words: &[u64], gate: &GateLine) -> u64 {
    let mut word = mixed(number_of(gate.kind), 0);
    for operand in gate.operands.as_slice() {
        word = mixed(word.rotate_left(7), word_at(words, *operand));
    }
    word
}

/// Returns the rank of a signal, 0 if the netlist does not have it.
fn rank_at(net: &Netlist, signal: Signal) -> u32 {
    if (signal.number() as usize) < net.count() {
        net.rank(signal)
    } else {
        0
    }
}

/// Returns the signals of the gates, by rising rank.
fn by_rank(alloc: Global, net: &Netlist, gates: &[Signal]) -> Result<Vec<Signal>, AllocError> {
    let mut order = Vec::from_slice(alloc, gates)?;
    order.sort_by_key(|signal| rank_at(net, *signal))?;
    Ok(order)
}

/// Sets the hash of a gate's signal. The hashes of its operands are set already, since their ranks are lower.
fn put_gate(net: &Netlist, words: &mut [u64], signal: Signal) {
    if (signal.number() as usize) >= net.count() {
        return;
    }
    let Role::Gate(place) = net.role(signal) else {
        return;
    };
    let gates = net.gates();
    let word = word_of(words, &gates[place as usize]);
    put_word(words, signal, word);
}

/// Returns a hash of each signal of a netlist, by number; `gates` are the signals of its gates. The hash of a variable
/// depends on its level only, so that both netlists can be compared. Takes the time of sorting the gates. Fails if
/// memory is refused.
pub(crate) fn signal_words(
    alloc: Global,
    net: &Netlist,
    gates: &[Signal],
    naming: &Naming,
    part: NetlistRole,
) -> Result<Vec<u64>, AllocError> {
    let mut words = Vec::from_elem(alloc, 0u64, net.count())?;
    for variable in net.variables() {
        let level = u64::from(level_in(naming, part, *variable));
        put_word(words.as_mut_slice(), *variable, mixed(level, 11));
    }
    for signal in by_rank(alloc, net, gates)? {
        put_gate(net, words.as_mut_slice(), signal);
    }
    Ok(words)
}
