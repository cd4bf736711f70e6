//! Pairs that are equal inside: rounds that merge equal signals of two netlists, by windows of gates.
//!
//! **Promises.** `equal_inside` answers for each pair whether it was found equal. If it was, its two functions agree at
//! each assignment (`equal`); if it was not, nothing is known. A condition plays no part: what is equal inside is so
//! everywhere. The only error is refused memory.
//!
//! **Only tests show** which pairs are found, and of what the monitor is notified (`merge_tests`).
//!
//! **Begin** with `inside`; then read `net_merge`, which does the merging.
#![tactic(auto)]

mod inside;
mod levels;
mod pairs;

pub use inside::{Merging, equal_inside};
