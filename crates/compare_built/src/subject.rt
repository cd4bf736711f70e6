//! The pairs of signals that a comparison compares.

use net_bench::netlist::Signal;
use report_text::PairKind;

/// A pair: a signal of each netlist whose functions are compared. `named` is the first netlist's signal whose name is
/// that of the pair: the output itself, or for a next state the register, whose operand is `first`.
#[derive(Clone, Copy, Drop, Debug)]
pub struct Subject {
    pub role: PairKind,
    pub named: Signal,
    pub first: Signal,
    pub second: Signal,
}
