//! The diagrams of the gates of netlists: a plan of steps by rank and fold number, and the building
//! of the diagrams by it.
//!
//! **Promises.** A `Plan` has exactly the steps and copies of the gates, by rank. `build` gives
//! each signal of both netlists and of the condition the diagram of its function (`first`,
//! `second`, `given`), and adds only nodes that are needed (`adds`). It leaves a store that was
//! empty with exactly these, within its limit (`need`, `within`), and fails with Full only if the
//! store is past its limit, or at it and lacks such a node (`fault`). It fails with TooManyRequests
//! only if one wave is past the monitor's bound (`past`, `bounded_needs_no_worker`), and a build
//! that was done had no such wave (`within_bound`); no build has both (`past_or_within`). It is
//! stopped only if its monitor may stop a wave (`stopped`). OutOfMemory leaves a store within its
//! limit that was within it before (`memory`). `conjoin` conjoins references with a condition's
//! (`conjoined`, `adds`, `within_bound`).
//!
//! **Only tests show** that nothing is refused if there is ample memory, and that an operation
//! which both netlists have, at different ranks, makes no request the second time (`wave_tests`).
//!
//! **Begin** with `specs/Folds` and `specs/Plans`, in which a gate is a left fold; then read
//! `steps`, and `building`, which does a wave for each fold number of a rank.
#![tactic(auto)]

mod building;
mod circuits;
mod conjoining;
mod folds;
mod inputs;
mod laws;
mod sides;
mod steps;

pub use building::{CircuitDiagrams, build};
pub use circuits::Circuits;
pub use conjoining::conjoin;
pub use laws::past_or_within;
pub use steps::{CopyStep, Plan, Step};
