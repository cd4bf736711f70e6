//! The comparison of two netlists in one order of the variables.
//!
//! **Promises.** `comparison::compare` builds the diagrams of both netlists, and of a condition if there is one, and
//! answers the verdict of each pair of outputs and of next states (`ok`): EQUAL exactly if the functions agree wherever
//! the condition holds, and otherwise the least assignment at which they differ. The diagrams stay within the limit of
//! nodes (`within`). It fails with Full only if more nodes are needed (`full`), with TooManyRequests only if a wave has
//! more requests than the monitor allows (`past`), and with Stopped only if the monitor may stop a wave (`stopped`).
//! `compare_as_declared` answers the same verdicts over the variables in another order. The types that all crates of a
//! comparison share are here: `Task`, `Settings`, `Subject`, `CheckFault`.
//!
//! **Only tests show** that nothing is refused if there is ample memory, and what a monitor is notified of during a
//! comparison (`decision_tests`).
//!
//! **Begin** with `specs/Report` and `specs/Conditions`, which define verdicts by functions only; then read
//! `compared_pairs` (which references of the store are compared), `verdicts` (one verdict) and `comparison`.
#![tactic(auto)]

mod arrangement;
pub mod compared_pairs;
pub mod comparison;
mod extras;
pub mod fault;
pub mod found;
pub mod name_pattern;
pub mod named_signals;
pub mod scatter;
pub mod settings;
pub mod strategy;
pub mod subject;
pub mod task;
pub mod unmatched;
mod verdict_order;
mod verdicts;
