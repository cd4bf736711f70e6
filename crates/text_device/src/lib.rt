//! What a text comes from, and what a report goes to: devices, which may fail.
//!
//! **Promises.** `read_text` answers the whole text of a device (`whole`), within a limit (`within`), or why not (`long`,
//! `read`); it takes at most one byte more (`taken`). A `StdDevice` is a reader or a writer of the standard library, which
//! says what it gives and takes; `InMemory` is a text in memory, which cannot fail.
//!
//! **Only tests show** what is answered at each read that fails (`netlist_tests`), and at each write (`report_tests`).
//!
//! **Begin** with the traits `Source` and `Sink` in `device`.
#![tactic(auto)]

mod device;

pub use device::{Failed, InMemory, Sink, Source, StdDevice, TextFault, read_text};
