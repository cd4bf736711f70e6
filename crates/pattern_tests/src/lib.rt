//! Tests of evaluation at many assignments at once, and of the differences that patterns show, by public calls. They
//! are a crate of their own, since a crate with tests is proved twice.
//!
//! They show what no contract of `net_simulate`, `net_patterns` and `pair_facts` can: that calls succeed if memory is
//! ample, the truth tables of each kind of gate, and how small a difference becomes. **Begin** with `tables`.
#![tactic(auto)]

#[cfg(test)]
mod differences;
#[cfg(test)]
mod facts;
#[cfg(test)]
mod names;
#[cfg(test)]
mod tables;
