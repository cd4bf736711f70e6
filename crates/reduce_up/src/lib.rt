//! The way up of a wave: from the requests to their diagrams, level by level from the last one; and
//! whole waves by workers.
//!
//! **Promises.** `reduce` gives the requests of all levels before `from` their diagrams, in
//! whatever parts their children are (`reduced`), and counts them (`counted`). `wave_by_workers`
//! gives each request its diagram. It adds only nodes that are below the answers, or complements of
//! such, and fails with Full only if the store is over its limit, or at its limit and lacks a node
//! that is wanted (`wave`). Exactly the requests that are reached were expanded (`expanded`), no
//! more than the bound (`few`). OutOfMemory leaves a store within its limit that was within it
//! before (`memory`). If there are more requests than the bound, it fails with NoWorker
//! (`never_too_many_requests`), which leaves the store as it was (`untouched`). A wave is stopped
//! only while it is expanded, and only if its monitor may stop it (`stopped`, `never_stopped`).
//!
//! **Only tests show** from which width on threads share a level (4,096 requests, two workers), how
//! many they are, and that every width gives the answers of workers on one thread (`wave_tests`).
//! That threads read a level from 16,384 requests on, number children from 32,768 and pick diagrams
//! from 65,536 is a matter of time only, and nothing shows it.
//!
//! **Begin** with `up`, which goes from level to level and hands a wide one to `wide` with `reads`,
//! `division` and `picking`. Then read `waves`, for which `numbers` puts places for owners. What a
//! wave is, and what it leaves, is in `specs/Waves`, and the reduction in `specs/ReductionPhase`.
#![tactic(auto)]

mod division;
mod list_pool;
mod lists;
mod numbers;
mod parts;
mod picking;
mod reads;
mod reductions;
mod starts;
mod up;
mod waves;
mod wide;

pub use lists::empty_lists;
pub use reductions::Reductions;
pub use up::{ReductionPhase, reduce, root_answers};
pub use waves::{WaveMemory, wave_by_workers};
