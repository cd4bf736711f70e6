//! The variables of two netlists, orders of them, and which outputs and registers are compared.
//!
//! **Promises.** `pairing::pair` answers the pairing in the order that is asked for: each variable once, the level of
//! each input and register, the pairs, and what has no partner (`paired`); or why there is none (`refused`).
//! `naming::naming_of` answers the same in declared order for any number of variables (`named`, `refused`).
//! `unfit::unfit_name` answers the first name for which a list is no order (`first_misfit`), and none exactly if the
//! list is one (`none`). `force_start` and `force_step` are the parts of FORCE, and `tables` what it sorts by; other
//! orders use them, too.
//!
//! **Only tests show** that ample memory suffices (`netlist_tests`). How small an order makes diagrams nothing shows;
//! docs/ORDERS.md has figures.
//!
//! **Begin** with `specs/Order`, which defines the orders and the pairing over *sides* (two netlists and a condition),
//! and with `Index` and `Force`; then read `pairing`, `side`, `walk` for the orders by walks below outputs, and
//! `force`.
#![tactic(auto)]

mod correspondence;
pub mod edge;
mod extended_order;
pub mod falling_rank;
mod force;
pub mod force_start;
pub mod force_step;
mod hypergraph;
mod index_order;
mod interleave;
mod levels;
mod listed_order;
pub mod naming;
pub mod netlist_role;
pub mod pairing;
pub mod roots;
mod side;
pub mod tables;
pub mod trailing_number;
pub mod unfit;
mod variable_groups;
mod variables;
mod walk;
