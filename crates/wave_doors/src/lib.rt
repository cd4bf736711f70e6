//! Calls for other programs, which this project's program does not link: the records of a wave by
//! threads, the reduction of records, a wave on the caller's thread by any schedule, and children
//! of requests with a computed table.
//!
//! **Promises.** `expand_all` returns the records of exactly the reached requests, each once
//! (`closure`, `settled`), and puts no more loads than that needs (`put`). `reduce` gives the key
//! of each record its diagram (`answers`), adds only nodes of these (`adds`), and says why it fails
//! (`fault`). `wave_on_one_thread` does a wave by any list of choices, with a computed table
//! (`wave`, `kept`, `refused`, `right`). What `child_with_computed` and `split_with_computed`
//! return has the function of the operation, or of the key's cofactor, if the computed table is
//! right (`means`, `low`, `high`).
//!
//! **Only tests show** that nothing is refused if there is ample memory, and when threads share a
//! level (`wave_tests`).
//!
//! **Begin** with the call that you need: `expand`, `levels`, `waves` or `with_computed`.
#![tactic(auto)]

mod expand;
pub mod law;
mod levels;
mod merge;
mod parallel;
mod results;
mod waves;
mod with_computed;

pub use expand::{Expanded, expand_all};
pub use levels::reduce;
pub use results::Results;
pub use waves::wave_on_one_thread;
pub use with_computed::{child_with_computed, split_with_computed};
