//! Netlists evaluated at many assignments at once (bit-parallel simulation).
//!
//! **Promises.** `simulate` sets the values of all signals such that each bit is a labelling (`labelling`). So each bit
//! of a signal's value is its function's value at the assignment of that bit (`functions`), whatever the order of the
//! variables. A value holds one bit (`bool`), 64 (`u64`) or 512 (`Block`). `schedule_of` answers all gates of a netlist
//! by rising rank (`schedule`), `gates_by_rank` the signals of the gates of each rank (`rows`).
//!
//! **Only tests show** that ample memory suffices. No clause says that time is linear in the netlist.
//!
//! **Begin** with `specs/Columns` and `Schedules`; then read `simulation`, `gates` and `schedule`.
#![tactic(auto)]

mod blocks;
mod gates;
mod packing;
mod ranked;
mod schedule;
mod scheduling;
mod simulation;

pub use blocks::{Block, all_bits, no_bits};
pub use packing::Packed;
pub use ranked::gates_by_rank;
pub use schedule::{Gate, Schedule};
pub use scheduling::schedule_of;
pub use simulation::simulate;
