//! A store of the nodes of shared, reduced, ordered binary decision diagrams (Bryant 1986) with
//! complement edges (Brace, Rudell and Bryant 1990). The unique table of each level is divided into
//! 16 shards, which threads share (van Dijk 2016).
//!
//! **Promises.** Every store is ordered and reduced (`Store::levels`: `sound`), and two of its
//! references are equal exactly if they denote the same function (`canonical`). `make` and
//! `variable` return a reference or the cause of refusal (`makes`, `meaning`, `refused`, `full`),
//! and keep all nodes (`extends`). `Ref::negate` is the complement; it makes no node (`value`,
//! `meaning`). `make_all` makes the nodes of many pairs at one level by threads, with the outcome
//! that one thread would have: it returns their references (`answers`), adds their nodes and no
//! others (`grows`), and says why if it fails (`fault`). `add_all` adds nodes in the same way and
//! returns no references (`grows`, `answer`).
//!
//! **Only tests show** that nothing is refused if there is ample memory, and that two threads are
//! in the shards of one level at once (`wave_tests`).
//!
//! **Begin** with docs/CALLING.md and `specs/View`, which is what callers see of a store; then read
//! `specs/Nodes`, which has the store as data, and `store`.
#![tactic(auto)]

use slot_table::Refusal;

mod hashes;
mod level;
mod makers;
mod pairs;
mod reference;
mod size;
mod store;
mod words;

pub use hashes::{ref_hash, shard_of};
pub use level::Watch;
pub use makers::Makers;
pub use reference::{NodeId, Ref, Reference, SHARDS};
pub use store::Store;

/// Why a store has not made a node.
#[derive(Clone, Copy, Debug, PartialEq, Eq)]
pub enum StoreFault {
    /// A new node is needed, and the store has as many as its limit allows.
    Full,
    /// Memory for a table was refused.
    OutOfMemory,
}

impl From<Refusal> for StoreFault {
    ghost use Rattle.std.specs.Prelude.{◌≡◌};
    ghost use Rattle.dd_store.specs.Fault.{fault_of};

    ghost from_gives = { λ refusal fault. fault ≡ fault_of refusal };

    fn from(refusal: Refusal) -> StoreFault {
        match refusal {
            Refusal::Full => StoreFault::Full,
            Refusal::OutOfMemory => StoreFault::OutOfMemory,
        }
    }
}
