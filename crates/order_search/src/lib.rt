//! The search for an order in which two netlists can be compared: attempts within budgets of nodes that grow.
//!
//! **Promises.** `budget_search::find_attempt` answers the verdicts of the first attempt that decides. Each attempt
//! before it was given up: for its nodes, for the requests of a wave, or because the run may stop (`found`). It fails
//! with Full only if each candidate needs more nodes than the limit, with Stopped only if the monitor may stop a wave,
//! and with GivenUp only if each attempt was given up, one of them within the limit for another cause than its nodes
//! (`fault`). Unless a run is stopped, which attempt decides depends on the texts, the matching and the limit, never on
//! the workers. If `search` gives up, it leaves a trial of each order (`trials`), with which `attempts::try_again` goes
//! on within a larger budget. `attempts::try_declared` gives up only if an attempt in declared order was given up
//! (`last`), and `listed_attempt::try_pairing` answers no verdicts only if the attempt in its order was given up
//! (`given_up`).
//!
//! **Only tests show** that nothing is refused if there is ample memory, and what a monitor is notified of about
//! attempts (`decision_tests`).
//!
//! **Begin** with `specs/Trials`; then read `trials` (an order with its pairing), `attempts` (all candidates within one
//! budget) and `budget_search`.
#![tactic(auto)]

mod ahead;
mod ahead_monitor;
mod attempt_end;
pub mod attempts;
mod bounded_monitor;
pub mod budget_search;
pub mod listed_attempt;
pub mod trials;
