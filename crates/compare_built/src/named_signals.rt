//! Outputs and registers of a netlist, found by their names or by name patterns.
ghost use Rattle.std.specs.Prelude.{◌≡◌, ◌↔◌, ◌<◌, true, false, ◌==◌, All, IsTrue, length, map, bytes_eq};
ghost use Rattle.net_bench.specs.Circuit.{circuit};
ghost use Rattle.net_order.specs.Order.{name_of, registers_of};
ghost use Rattle.compare_built.specs.PairSelection.{HasPicked, is_among, is_kind_picked, is_one_picked, is_picked_by};

use crate::name_pattern::matches_name;
use net_bench::netlist::{Netlist, Signal};
use report_text::{PairKind, PairName};

/// Whether two names are the same, byte for byte.
pub fn is_same(name: &[u8], other: &[u8]) -> bool
    ensures { result ≡ bytes_eq name.now other.now }
{
    name == other
}

/// Whether one of these signals has the name.
pub fn has_name(net: &Netlist, signals: &[Signal], name: &[u8]) -> bool
    requires { All (λ s. s < length net.now.names) signals.now }
    ensures { result ≡ is_among (map (name_of (circuit net.now)) signals.now) name.now }
{
    for signal in signals {
        if is_same(name, net.name(*signal)) {
            return true;
        }
    }
    false
}

/// Returns the signals of the registers, in the order of the text.
pub fn registers_of(net: &Netlist) -> &[Signal]
    ensures value { result.now ≡ registers_of (circuit net.now) }
    ensures known { All (λ s. s < length net.now.names) result.now }
{
    net.variables().split_at(net.inputs().len()).1
}

/// Whether a pattern picks a pair of this kind whose name is `name`. A pattern of kind Output picks next states too.
pub fn is_picked_by(kind: PairKind, name: &[u8], pattern: &PairName) -> bool
    ensures { result ≡ is_picked_by kind name.now pattern.now }
{
    is_kind_picked(pattern.role, kind) && matches_name(pattern.name.as_slice(), name)
}

/// Whether a pattern of kind `asked` picks pairs of kind `kind`.
fn is_kind_picked(asked: PairKind, kind: PairKind) -> bool
    ensures { result ≡ is_kind_picked asked kind }
{
    match (asked, kind) {
        (PairKind::Output, _) => true,
        (PairKind::NextState, PairKind::NextState) => true,
        (PairKind::NextState, PairKind::Output) => false,
    }
}

/// Whether a pattern picks one of these signals, taken as pairs of this kind.
fn picks_one(net: &Netlist, kind: PairKind, signals: &[Signal], pattern: &PairName) -> bool
    requires { All (λ s. s < length net.now.names) signals.now }
    ensures { result ≡ is_one_picked (circuit net.now) kind signals.now pattern.now }
{
    for signal in signals {
        if is_picked_by(kind, net.name(*signal), pattern) {
            return true;
        }
    }
    false
}

/// Whether a pattern picks an output or a register of the netlist. One that picks none is probably misspelt, and is
/// refused.
pub fn has_picked(net: &Netlist, pattern: &PairName) -> bool
    ensures { IsTrue result ↔ HasPicked (circuit net.now) pattern.now }
{
    picks_one(net, PairKind::Output, net.outputs(), pattern)
        || picks_one(net, PairKind::NextState, registers_of(net), pattern)
}
