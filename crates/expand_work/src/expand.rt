//! Expanding a level: its requests are split, and their children go to where the wave has its next
//! requests. On the caller's thread these are the tables of their levels; with a worker they are
//! what is due from the children's owners.
ghost use Rattle.std.specs.Prelude.{◌≡◌, ℕ, ◌<◌, ◌+◌, ◌%◌, ◌^◌, [], ◌∷◌, ◌++◌, length, filter, replicate, All, IfOk, OnOk};
ghost use Rattle.dd_store.specs.Nodes.{Nodes};
ghost use Rattle.req_table.specs.declared.Child.{Child as ChildValue};
ghost use Rattle.req_table.specs.declared.packed_child.PackedChild.{PackedChild as PlacedValue};
ghost use Rattle.req_table.specs.Keys.{IsKey, IsChildIn, owner as owner_spec};
ghost use Rattle.req_table.specs.Places.{row as at, IsPlaced, AdmitsChild};
ghost use Rattle.req_table.specs.Settled.{round_robin_from};
ghost use Rattle.expand_work.specs.Due.{asked_of, BecomesDue};
ghost use Rattle.expand_work.specs.TakenChildren.{AreTaken};
ghost use Rattle.expand_work.specs.Work.{owned_by, with_levels};

use crate::due::Due;
use crate::{BundlePool, Splits};
use dd_store::Store;
use req_table::requests::{level_of, owner};
use req_table::{Child, Key, PackedChild, Row, Table, Waiting};
use std::alloc::AllocError;

/// Where the children of expanded requests go.
pub trait ChildSink {
    // It can take the children of requests of this store.
    ghost accepts: { Self → Nodes → Type 0 };

    // What the sink is after it has taken a child, and what the row of the child's request has for this child.
    ghost takes: { Self → ChildValue → PlacedValue → Self → Type 0 };

    /// Takes a child, and returns what the row of its request has for it. Fails if memory is refused.
    fn ask(&mut self, store: &Store, asked: Child) -> Result<PackedChild, AllocError>
        requires accepts { accepts self.old store.now }
        requires in_store { IsChildIn store.now asked }
        ensures accepts { OnOk result (accepts self.new store.now) }
        ensures takes { IfOk result (λ p. takes self.old asked p self.new) };
}

/// Requests that wait: a child is admitted to the table of its level, and the row has its place.
impl ChildSink for Waiting {
    ghost accepts = { λ w s. length w ≡ s.levels };

    ghost takes = { λ w c p u. IsPlaced u p c × AdmitsChild w c u };

    #[inline(always)]
    fn ask(&mut self, store: &Store, asked: Child) -> Result<PackedChild, AllocError> {
        let _ = store.levels(); // For the proof.
        match asked {
            Child::Done(answer) => Ok(PackedChild::done(answer)),
            Child::Ask {
                level,
                key,
                complement,
            } => {
                let place = self.admit(level, key)?;
                Ok(PackedChild::ask(level, place, complement))
            }
        }
    }
}

/// What is due from each worker, as a sink of children.
#[derive(Drop)]
pub struct DueByOwner {
    /// By worker the requests that are due from it.
    pub due: Due,
    /// Bundles to be filled.
    pub spare: BundlePool,
    /// The number of workers.
    pub workers: u32,
}

impl DueByOwner {
    // Makes the request due from its owner, and returns the owner.
    #[inline(always)]
    fn push(&mut self, level: u16, key: Key) -> Result<u32, AllocError>
        requires long { length self.old.due ≡ self.old.workers }
        requires some { 0 < self.old.workers }
        ensures owner { IfOk result (λ o. o ≡ owner_spec self.old.workers key) }
        ensures workers { self.new.workers ≡ self.old.workers }
        ensures long { OnOk result (length self.new.due ≡ self.old.workers) }
        ensures grown { OnOk result ((k : ℕ) → k < self.old.workers
            → at self.new.due k ≡ at self.old.due k ++ filter (asked_of self.old.workers k) ((level, key) ∷ [])) }
    {
        let owner = owner(key, self.workers);
        self.due.push(&mut self.spare, owner, level, key)?;
        Ok(owner)
    }
}

/// What is due from workers: a child becomes due from its owner, and the row has the owner in place of the child's
/// place, which only the owner will know.
impl ChildSink for DueByOwner {
    ghost accepts = { λ a _. (length a.due ≡ a.workers) × (0 < a.workers) };

    ghost takes = { BecomesDue };

    #[inline(always)]
    fn ask(&mut self, _store: &Store, asked: Child) -> Result<PackedChild, AllocError> {
        match asked {
            Child::Done(answer) => Ok(PackedChild::done(answer)),
            Child::Ask {
                level,
                key,
                complement,
            } => {
                let owner = self.push(level, key)?;
                Ok(PackedChild::ask(level, owner, complement))
            }
        }
    }
}

/// Expands requests: splits each, asks for its children, the low one before the high one, and adds what the sink
/// returns for them to the row. Counts the requests in `splits`. After a refusal the row and the sink have some of the
/// children.
pub fn expand_row<A: ChildSink>(
    store: &Store,
    keys: &Table,
    asks: &mut A,
    row: &mut Row,
    splits: &mut Splits,
) -> Result<(), AllocError>
    requires keys { All (IsKey store.now) keys.now }
    requires accepts { A.accepts asks.old store.now }
    requires empty { row.old ≡ [] }
    ensures taken { OnOk result (AreTaken A.takes store.now asks.old keys.now row.new asks.new) }
    ensures split { OnOk result (splits.new % 2 ^ 64 ≡ (splits.old + length keys.now) % 2 ^ 64) }
{
    let count = keys.len();
    row.reserve(count)?;
    for place in 0..count {
        let record = splits.split(store, keys.key_at(place));
        let low = asks.ask(store, record.low)?;
        let high = asks.ask(store, record.high)?;
        row.push((low, high))?;
    }
    Ok(())
}

/// Makes a worker's share of the roots due: those whose places are its number modulo the number of workers.
pub fn deal_roots(
    store: &Store,
    roots: &[Key],
    number: u32,
    asks: &mut DueByOwner,
) -> Result<(), AllocError>
    requires number { number < asks.old.workers }
    requires none { asks.old.due ≡ replicate asks.old.workers [] }
    ensures long { OnOk result (length asks.new.due ≡ asks.old.workers) }
    ensures due { OnOk result ((k : ℕ) → k < asks.old.workers
        → at asks.new.due k ≡ with_levels store.now (filter (owned_by asks.old.workers k)
        (round_robin_from asks.old.workers number 0 roots.now))) }
{
    for (place, key) in roots.iter().enumerate() {
        if place % asks.workers as usize == number as usize {
            asks.push(level_of(store, *key), *key)?;
        }
    }
    Ok(())
}
