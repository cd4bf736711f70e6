//! A map over the places of a slice by threads.
//!
//! **Promises.** `fork_each` calls a function at each place of a slice, with the place, and leaves there what these calls
//! leave, as one thread would (`ChangesEach`). `fork_if_much` does the same, by threads only if there is much to do.
//!
//! **Only tests show** that the calls are in threads of their own (`wave_tests`).
//!
//! **Begin** with `forks`: all threads are started by the caller's thread, one after the other. `specs/Forks` says what the
//! rest of a slice accepts.
#![tactic(auto)]

mod forks;

pub use forks::{fork_each, fork_if_much};
