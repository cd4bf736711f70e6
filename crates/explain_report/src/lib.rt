//! What is reported besides verdicts: explanations of pairs, causes, and all values at a difference as a VCD.
//!
//! **Promises.** `explanations_after` answers the explanations that the settings ask for, in their order. `causes`
//! answers each first inner signal that differs once, with all pairs of which it is the first. `dump` answers the VCD
//! of the first pair that differs, and `form_text` the report in the form that the settings ask for. All of them are
//! for the very assignments that the report has.
//!
//! **Only tests show** that values which a test computes for itself are the same (`tests/explained.py`,
//! `tests/vcd.py`).
//!
//! **Begin** with `specs/Explaining`, `Causing` and `Dumping`; then read `first_differences` and `explanations`.
#![tactic(auto)]

pub mod causes;
pub mod explanations;
mod first_differences;
pub mod report;
pub mod vcd_dump;
