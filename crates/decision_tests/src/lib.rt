//! Tests of which pairs a comparison decides, in which order, and what a monitor is notified of meanwhile. They are a
//! crate of their own beside `report_tests`, since they do not need `check_tool` and so can be proved beside it.
//!
//! **Begin** with `picks`: which pairs are compared, and in which order. `auto` and `known_pairs` are about what attempts,
//! patterns and merging decide, `monitoring` about what is counted, and `stopping` about runs that are stopped.
#![tactic(auto)]

#[cfg(test)]
mod auto;
#[cfg(test)]
mod known_pairs;
#[cfg(test)]
mod monitoring;
#[cfg(test)]
mod picks;
#[cfg(test)]
mod stopping;
