//! Names of variables in their order: the orders that have names, lists of names, and order files.
//!
//! **Promises.** `order_file::read_order` answers the names of an order file (`names`) or its first fault (`refused`), and
//! `order_text` such a file. `order_name::OrderName::word` is the word of an order that has a name, and `of_word` the
//! order that a word names.
//!
//! **Only tests show** that ample memory suffices (`netlist_tests`).
//!
//! **Begin** with `specs/OrderText` and `OrderName`; then `order`, which has the types, and `order_file`. What an order of
//! two netlists is `net_order` defines.
#![tactic(auto)]

pub mod names;
pub mod order;
pub mod order_file;
pub mod order_name;
