//! Waves that begin on the caller's thread and call the workers in if a level is wide; and the
//! engine, which does one wave after the other. An *entry* of a wave is an operation on two
//! references, an `(Op, Ref, Ref)`. Its *request*, a `Key`, is the operation in normal form
//! (`req_table::requests::normal`), so several entries may have one request. An answer is *held* if
//! the computed table has it. To *expand* a request is to split it into its two children, and to
//! *reduce* it is to find or make its node; docs/ARCHITECTURE.md does a wave by hand.
//!
//! A *bound* is the most requests that a wave may have. As in `Monitor::most_requests`, the
//! greatest `usize` says that there is none, since no wave comes to so many. Counts of requests are
//! modulo 2^64, so that an engine may go on without end.
//!
//! `gate_plan` builds netlists by `Engine::wave_counting_all`, and conjoins with a condition by
//! `wave`, as it has one wave to do; `wave_judge` builds windows by `Engine::wave`, with an engine
//! that forgets before each window. `CacheProbe` is public for `wave_doors`, whose waves by other
//! schedules have a computed table, too.
//!
//! **Promises.** `Engine::wave` gives each entry its diagram, whatever is held, and at whatever
//! level workers are called in (`wave`). Exactly the requests that are reached from the entries
//! without a held answer were expanded, each once, by a count modulo 2^64 (`expanded`); the
//! caller's thread has reduced exactly those above some level, and the workers have expanded the
//! others (`divided`). After the wave the computed table has the answers of the entries (`kept`), a
//! failed wave changes nothing that contracts see of the engine (`refused`), and what is held stays
//! right (`right`). TooManyRequests means more requests than the monitor's bound (`past`,
//! `within_bound`), whether workers were called in or not, and with a bound no thread that cannot
//! be started is a cause of failure (`bounded_needs_no_worker`). A wave is stopped only if the
//! monitor may stop it (`stopped`). OutOfMemory leaves a store within its limit that was within it
//! before (`memory`). `Engine::new` and `forget` hold nothing (`empty`, `right`) and have room for
//! 65,536 answers (`capacity`). With `wave_counting_all` a bound counts the requests of all
//! entries, also of those whose answers are held, so no failure depends on what is held (`past`,
//! `within_bound`). `wave` is a single wave with the caller's computed table. `CacheProbe` knows
//! which entries the computed table answers, and completes the answers and the table after a wave
//! (`CacheProbe::complete_answers`: `answers`, `kept`, `refused`).
//!
//! **Only tests show** that nothing is refused if there is ample memory, and when workers are
//! called in: always, never, and at the levels that the numbers of `NoMonitor` give (`wave_tests`).
//!
//! **Begin** with `engine` and `workspace`. There are three layers. An `Engine` owns a computed
//! table, and adds up the counts of the waves that were done. Its `Runner` does one wave with a
//! table that is handed in, so the function `wave` (`waves`) can hand in its caller's: a
//! `CacheProbe` (`cache_probe`) takes out the entries that are answered already, and keeps the
//! answers of the others at the end. A `Workspace` does the wave of these others, and knows of no
//! table. Such a wave goes `down`; what waits at the first wide level (`sizes`) and below is handed
//! over by `front`; and the levels above are reduced as one part. With a bound the caller's thread
//! does the wave again if the workers have not done their part.
#![tactic(auto)]

mod cache_probe;
mod down;
mod engine;
mod front;
mod sizes;
mod waves;
mod workspace;

pub use cache_probe::CacheProbe;
pub use engine::Engine;
pub use waves::wave;
