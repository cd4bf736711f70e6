//! Which pairs are compared, and what is known of each before an attempt is made: whether a pattern shows that it
//! differs.
//!
//! **Promises.** `select_pairs` answers the pairs of a filter, and refuses a name pattern only if it picks no output
//! and no register of the first netlist (`unknown`). `facts_of` answers for each of them the first pattern at which it
//! differs, with the first signal's value there, and none only if no pattern shows that it differs (`shown`).
//! `shown_verdict` answers a verdict with an assignment at which the two functions differ and the condition holds; it
//! may not be the least. `weight_order` answers the places of the pairs by falling size of their cones, and
//! `serpentine_share` the share of each in this order, from 1 to the number of shares (`some`, `few`).
//!
//! **Only tests show** that nothing is refused if there is ample memory, what a monitor is notified of, and that an
//! assignment becomes smaller if it can (`pattern_tests`).
//!
//! **Begin** with `specs/PairFacts` and compare_built's `specs/Facts`; then read `facts` and `shown`, which use
//! `pair_selection` and `shares`.
#![tactic(auto)]

mod facts;
mod pair_selection;
mod shares;
mod shown;

pub use facts::{PairFacts, facts_of};
pub use pair_selection::{Selection, select_pairs};
pub use shares::{serpentine_share, weight_order};
pub use shown::shown_verdict;
