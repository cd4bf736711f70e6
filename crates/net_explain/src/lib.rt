//! Why two signals differ at an assignment: the inner signals that have the same name in both netlists and different
//! values there. And all values as a VCD.
//!
//! **Promises.** `values` answers a labelling (`labelling`), so each value is that of the signal's function
//! (`functions`). `explain` answers exactly the inner signals that differ, in their order, with the numbers of gates
//! outside the cone of the first of them (`explains`); that these are all of them, and no others, is the law `exact`.
//! `explanation_of` writes the lines, and `vcd_of` the VCD, in which different signals have different identifiers (law
//! `identifiers`).
//!
//! **Only tests show** that ample memory suffices (`netlist_tests`), that an independent reader accepts the VCD, and
//! that values which a test computes for itself are the same (`tests/vcd.py`, `tests/explained.py`). No clause says
//! that time and memory are linear in the netlists.
//!
//! **Begin** with `specs/Explaining`; then read `explanation`, which puts together `simulation` (one netlist's values,
//! and what is below its signal) and `differing`. Evaluation and ranks are those of `net_simulate`.
#![tactic(auto)]

mod below;
mod bits;
mod differing;
mod evaluate;
mod explanation;
pub mod laws;
mod simulation;
mod text;
mod vcd;

pub use differing::InnerSignal;
pub use evaluate::values;
pub use explanation::{Explanation, GateCount, explain};
pub use text::explanation_of;
pub use vcd::vcd_of;
