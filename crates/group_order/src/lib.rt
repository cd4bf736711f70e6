//! Orders of the variables of two netlists in which variables that an exclusive or joins are neighbours.
//!
//! **Promises.** `msb_first` answers the variables by falling number at the end of their names, `force_groups` in the
//! order of FORCE without selectors, and `weights` by dynamic weight assignment (`rule`). Each has every variable once
//! (`each_once`), so that `net_order::pairing::pair` accepts the list; or the answer is why there is none (`refused`).
//! All three are functions of the texts.
//!
//! **Only tests show** that ample memory suffices. How small an order makes diagrams, and how long it takes to compute,
//! no clause says; docs/ORDERS.md has figures.
//!
//! **Begin** with `specs/Orders`, then `FanOut` (selectors) and `Groups`; then read `orders`.
#![tactic(auto)]

mod fan_out;
mod free_force;
mod groups;
mod listing;
mod name_keys;
mod orders;
mod sides;
mod small_functions;
mod tables;
mod weight_cones;
mod weight_order;
mod weight_step;

pub use orders::{force_groups, msb_first, weights};
