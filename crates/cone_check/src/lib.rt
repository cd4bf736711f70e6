//! The comparison of pairs one by one, each by the cones of its two signals, in rounds of budgets that grow.
//!
//! A pair is a `Subject`: two outputs, or two next states. Its *place* is its position among the pairs that are
//! selected. Each pair is compared in an order of its own, but verdicts are reported over all variables in declared
//! order, which the `Naming` of the netlists has; so a *level* is in this crate the place of a variable in the naming.
//! A pair is *left* as long as it has no verdict. Budgets and limits are numbers of nodes.
//!
//! **Promises.** `cone_comparison::verdicts_by_cones` returns a verdict for each pair that is selected (`verdicts`):
//! the verdict of the whole comparison, or a difference that may not be the least, or Undecided. A pair is Undecided
//! only if no pattern shows a difference and it could not be judged: its cones have more variables than a pairing can
//! have, or each attempt at them was given up, or the run may stop. A difference that may not be the least is reported
//! only if the pair could not be judged, or if any difference is asked for. Pairs that are equal inside are Equal at
//! once (`equal`). Several pairs are judged at the same time, each by a thread, and share the workers for their waves;
//! their budgets together are within the limit (`at_once`). In each round those that no pattern shows to differ come
//! first (`order`). The verdicts do not depend on the workers, unless a run is stopped. The function fails only if
//! memory is refused (`ends`).
//!
//! **Only tests show** what a monitor is notified of about rounds (`decision_tests`).
//!
//! **Begin** with `specs/ConeRounds` and `specs/Batches`; then read `pair_cones` (the cones of a pair as a task of
//! their own), `pairs` (one pair within one budget), `batches` (how pairs and workers are dealt), `rounds` (all pairs
//! that are left), `judging_order` (in which order), `equal_cones` (pairs with the same cones, of which one is judged)
//! and `cone_comparison`.
#![tactic(auto)]

mod at_once;
mod batches;
pub mod cone_comparison;
mod equal_cones;
mod judging_order;
pub mod pair_cones;
mod pair_monitor;
mod pairs;
mod remaining;
pub mod rounds;
mod signal_words;
mod variable_names;
