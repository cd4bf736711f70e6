//! Tests of the graph of two netlists and of windows over its cuts, by their public calls.
//!
//! They show what no contract can: that calls succeed if memory is ample, that an operation is found by structural
//! hashing, to which windows a cut grows, that a window's diagrams fit in a budget that is large enough, and that workers
//! change nothing. **Begin** with `graphs`.
#![tactic(auto)]

#[cfg(test)]
mod cuts;
#[cfg(test)]
mod graphs;
#[cfg(test)]
mod judging;
#[cfg(test)]
mod merging;
#[cfg(test)]
mod rounds;
#[cfg(test)]
mod truth_tables;
