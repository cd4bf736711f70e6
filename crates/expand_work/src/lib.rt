//! The way down of a wave: one worker's loop over the levels, and all workers together, in threads.
//!
//! **Promises.** `work` ends with one worker's part of the wave (`IsWorked`). `expand_parts` does
//! all parts. Together the workers have recorded exactly the requests that the roots ask for, each
//! once, and have noted the places of what they were asked for (`parts`). What their ports have
//! sent and taken is a settled wave, nothing of it was taken of a closed level, and no load was put
//! that the wave does not need (`settled`). The number of requests that were expanded is exact
//! modulo 2^64 (`expanded`), and no more than the bound (`few`). Nodes are no cause of failure
//! (`fault`), and neither is TooManyRequests: workers that find more requests than the bound fail
//! with NoWorker, since they have only stopped and counted nothing exactly
//! (`never_too_many_requests`). A wave is stopped only if its monitor may stop waves (`stopped`). An
//! `EndCounts` counts for each sender the levels that it has ended: `closed` says whether every
//! sender has ended a level (`HaveAllEndedLevel`), `all_closed` whether each has ended all
//! (`HaveAllEnded`).
//! `expand_row` splits the requests of a level, each once (`split`), and passes their children to a
//! `ChildSink`, one after the other (`taken`); workers and the caller's thread both use it.
//!
//! **Only tests show** that two workers are in one level at once, that the stop flag is read when a
//! level begins and while a worker waits, that each worker notifies the `Monitor` of each level
//! once, after it was closed, that workers stop at a bound only if there are more requests, that
//! they expand none beyond it, and that a wave stops before its next level if the run has stopped
//! (`wave_tests`).
//!
//! **Begin** with `worker`, the loop of one worker: send what is due, end the level on each lane,
//! take until the level is closed, expand (`expand`). Then read `team` and `parts`, with
//! `specs/Parts` and `specs/WaveParts`.
#![tactic(auto)]

mod bundle_pool;
mod context;
mod crew;
mod due;
mod end_counts;
mod expand;
mod fault;
mod lists;
mod monitor;
mod part;
mod parts;
mod receive;
mod send;
mod space;
mod splits;
mod tables;
mod team;
mod worker;

pub use bundle_pool::BundlePool;
pub use context::WaveContext;
pub use crew::{Crew, Workers};
pub use end_counts::EndCounts;
pub use expand::{ChildSink, expand_row};
pub use fault::{WaveFault, WorkFault};
pub use lists::PlacesBySender;
pub use monitor::{AttemptEnd, MergeRound, Monitor, NoMonitor};
pub use part::Part;
pub use parts::{Parts, WorkerNotes, expand_parts};
pub use space::{MemoryPool, WorkerMemory};
pub use splits::Splits;
pub use tables::Tables;
pub use worker::work;
