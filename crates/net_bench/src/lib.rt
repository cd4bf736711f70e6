//! Netlists in the bench format: what a text says, and the reader.
//!
//! **Promises.** `reader::parse_bench` answers the netlist of the text's statements (`accepted`), or the first fault in
//! a defined order, with its line (`refused`), and never both (law `refused_is_none`). `read_bench` does the same for a
//! device; it reads at most one byte more than a text may have (`taken`), and answers `Read` only if the device has
//! failed (`read`). Each accessor of `Netlist` returns its part (`value`) of a netlist that is sound (`sound`). A text
//! has at most one reading (law `one_reading`), the reader's machine accepts and refuses exactly what the grammar does
//! (`machine_is_exact`, `judge_is_exact`), and each netlist has exactly one labelling for given variables
//! (`labellings`).
//!
//! **Only tests show** that ample memory suffices, and what devices do: those that fail at each byte, or never end
//! (`netlist_tests`).
//!
//! **Begin** with the format in `specs/Text`, `Statement` and `Fault`; then `reader`: it takes tokens from `scan`,
//! numbers the names (`name_table`), notes what the statements say by these numbers (`symbols`, `build`), and gives
//! each gate its rank (`ranks`, by one depth-first `walk`).
#![tactic(auto)]

pub mod assembly;
mod build;
pub mod fault;
mod judge;
mod kinds;
pub mod laws;
pub mod name_table;
pub mod netlist;
mod ranks;
pub mod reader;
pub mod scan;
mod symbols;
mod syntax;
mod walk;
