//! The workers of a wave as a state machine on one thread, for every list of events. The program
//! does not link it: it is a model of the program's workers, which shows their protocol without
//! threads.
//!
//! **Promises.** `Core::step` does exactly a step of the relation `IsStep` (`ok`); what it takes is
//! of no closed level (`open`). It fails exactly if no state follows by the event, or if memory is
//! refused (`refused`), and then changes nothing (`unchanged`); it counts what it does (`counts`).
//! `run` does events one after the other (`ok`, `refused`), and `drive` ends with a finished core
//! (`driven`, `finished`, `reached`). At any time the law of each lane holds (`taken`: `lane`),
//! what is sent is fair (`sent`: `fair`), and no key has two records (`records`: `once`). A
//! finished core has exactly the requests that the roots reach, each once (`into_records`:
//! `closure`).
//!
//! **Only tests show** that nothing is refused if there is ample memory (`wave_tests`).
//!
//! **Begin** with `specs/Step`, which is the relation, and `specs/Cores`, which is what contracts
//! see; then read `waves` and `machine`.
#![tactic(auto)]

mod events;
mod lists;
mod machine;
mod queues;
mod records;
mod start;
mod waves;

pub use records::Records;
pub use waves::Core;

/// A step of the worker `by`. Send: it sends the first request that is due from it to `to`. End: it puts its next End
/// on the lane of `to`. Take: it takes the first item of its own lane. Expand: it expands the next request of its
/// level. Advance: it goes on to the next level. Keep: it keeps the first request that is due from it to itself, that
/// is, sends and takes it at once without its lane; for that it must have taken all that it has sent to itself.
#[derive(Clone, Copy, Debug)]
pub enum Event {
    Send { by: u32, to: u32 },
    End { by: u32, to: u32 },
    Take { by: u32 },
    Expand { by: u32 },
    Advance { by: u32 },
    Keep { by: u32 },
}

/// Why an event was not done: no state follows by it, and `place` events were done by this core before; or memory was
/// refused.
#[derive(Clone, Copy, Debug, PartialEq, Eq)]
pub enum CoreFault {
    NotAllowed { place: u128 },
    OutOfMemory,
}
