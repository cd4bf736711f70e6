//! Signals that have other names in the second netlist: a list of pairs of names, and the second text with the first netlist's names.
//!
//! **Promises.** `pair_file::read_pairs` answers the pairs of a file of two names a line (`pairs`), or its first fault
//! (`refused`). `renaming::rename_text` answers the second text, in which each name is the new one and all else is as
//! it is (`renamed`), if the pairs are of both netlists: each name is that of an input, an output or a register of its
//! side and once in its column, and each first name is free in the second netlist (`checked`); or the first cause why
//! they are not (`refused`).
//!
//! **Only tests show** that ample memory suffices (`netlist_tests`).
//!
//! **Begin** with `specs/Renaming`, which defines the new names over the pieces of a text.
#![tactic(auto)]

pub mod fault;
pub mod pair;
pub mod pair_file;
mod ports;
pub mod renaming;
mod tables;
