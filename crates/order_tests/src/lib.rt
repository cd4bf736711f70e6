//! Tests of the orders in which groups are together, by the public calls of `group_order`. They are a crate of their
//! own, since a crate with tests is proved twice.
//!
//! They show what no contract of `group_order` can: that calls succeed if memory is ample; and the orders of small
//! circuits, which another program finds from their definitions. **Begin** with `small`.
#![tactic(auto)]

#[cfg(test)]
mod small;
