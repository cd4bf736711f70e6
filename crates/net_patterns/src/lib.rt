//! Assignments at which two netlists differ, found without diagrams: patterns, which are tried 512 at a time.
//!
//! **Promises.** `Patterns` are numbered assignments, which follow from the numbers of variables and of gates
//! (`pattern`). `first_differences` answers for each pair the first pattern at which the condition holds and the two
//! functions differ, with the first function's value there, and `None` only if there is none (`AreFirst`). `make_small`
//! answers a counterexample that does not come after the given one (`MakesSmaller`). What a difference says of
//! functions are the laws `functions` and `condition`.
//!
//! **Only tests show** that ample memory suffices, and that a difference becomes smaller if it can. No clause says that
//! time is linear in the netlists for each block.
//!
//! **Begin** with `specs/Patterns` and `Differences`; then read `differences`, with `sides` (what is compared) and
//! `simulator` (one netlist), and `small`.
#![tactic(auto)]

mod apart;
mod candidates;
mod counterexample;
mod differences;
mod drawing;
pub mod laws;
mod patterns;
mod sides;
mod simulator;
mod small;

pub use counterexample::{Counterexample, ShownPattern};
pub use differences::first_differences;
pub use patterns::Patterns;
pub use sides::Netlists;
pub use small::make_small;
