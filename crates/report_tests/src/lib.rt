//! Tests of whole comparisons and of the program's runs: over devices that fail, with threads that meet, and of what is
//! reported meanwhile. They are a crate of their own, since a crate with tests is proved twice. Which pairs a comparison
//! decides, `decision_tests` tries. What the built program can show is in tests/.
//!
//! **Begin** with `runs`, over a folder in memory (`memory_folder`), and `failing`, with readers and writers that fail
//! at each byte. `rendezvous` is about threads, and `progress` and `quotations` about standard error.
#![tactic(auto)]

#[cfg(test)]
mod devices;
#[cfg(test)]
mod failing;
#[cfg(test)]
mod memory_folder;
#[cfg(test)]
mod progress;
#[cfg(test)]
mod quotations;
#[cfg(test)]
mod rendezvous;
#[cfg(test)]
mod runs;
