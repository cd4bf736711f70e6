//! Tests of the reader, the orders, cones, explanations and renaming, by their public calls. They are a crate of their
//! own, since a crate with tests is proved twice.
//!
//! They show what no contract of `net_bench`, `net_order`, `net_cone`, `net_explain` and `net_rename` can: that calls
//! succeed if memory is ample, what happens with devices that fail at each byte or never end, and that a chain of
//! 999,999 gates is read. **Begin** with `devices` and `netlists`.
#![tactic(auto)]

#[cfg(test)]
mod cones;
#[cfg(test)]
mod devices;
#[cfg(test)]
mod explanations;
#[cfg(test)]
mod netlists;
#[cfg(test)]
mod orders_by_names;
#[cfg(test)]
mod pairings;
#[cfg(test)]
mod renamings;
