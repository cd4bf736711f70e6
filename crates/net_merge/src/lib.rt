//! Two netlists as one graph, with a literal for each signal. Nodes that a window shows equal are merged (Kuehlmann and
//! Krohm, "Equivalence checking using cuts and heaps", DAC 1997).
//!
//! **Promises.** `merge_netlists` answers a literal for each signal of both netlists, which has the signal's values
//! (`first`, `second`): so its values are the signal's function (law `signal_functions`), signals of both netlists that
//! have the same literal have the same function, and complementary literals have complementary functions (law
//! `same_literal`). Which nodes are tried as equal, and by which windows, are hints, of which nothing is promised: only
//! what the judge finds counts.
//!
//! **Only tests show** that ample memory suffices, and what is merged (`merge_tests`).
//!
//! **Begin** with `specs/SignalLiterals`; then read `merged`, and `signals` for the order in which signals get their
//! literals. Nodes are merged in `merged_graph` (`specs/Merging`); `merger` tries what `signatures` propose.
#![tactic(auto)]

mod assignment;
mod batches;
mod gate;
mod guess;
mod laws;
mod learned;
mod learned_word;
mod merged;
mod merged_graph;
mod merger;
mod pair_job;
mod probe;
mod random;
mod representatives;
mod round_work;
mod shown;
mod signals;
mod signatures;
mod window_values;
mod words;

pub use laws::{equivalent_literals, same_literal, signal_functions};
pub use learned::Learned;
pub use merged::{MergeTask, MergedNetlists, merge_netlists};
pub use merger::MergeCounts;
pub use signals::LevelledNetlist;
