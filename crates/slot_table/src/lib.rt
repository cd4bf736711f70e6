//! A list of distinct items in the order in which they were added, and an open-addressing hash
//! table that finds the place of an item in this list.
//!
//! **Promises.** A `SlotTable` is a list in which no item is twice (`SlotTable::as_slice`: `all`,
//! `once`). `find` returns an item's place, or none if the item is not there. `find_or_add` finds
//! it, or adds it at the end, or refuses and changes nothing (`IsPlaced`). The number of slots is 0
//! if there are no items; otherwise it is the least power of two that is at least 8 and of which
//! the items fill at most three quarters (`slots`, by `IsSlotCount`). `clear` leaves no items. All
//! this holds for every hash.
//!
//! **Only tests show** that nothing is refused if there is ample memory (`wave_tests`). Nothing
//! shows how many slots a search looks at.
//!
//! **Begin** with `SlotHash`, which is all that an item needs, and with `specs/Placing`. How slots
//! find items is defined in `specs/Probes` and `specs/Stamps`; the code is in `slots`.
#![tactic(auto)]

ghost use Rattle.std.specs.Prelude.{◌≡◌, ◌<◌, ◌+◌, [], ◌^◌, ℕ, true, length, slice_get, Some, MatchOption};
ghost use Rattle.slot_table.specs.Probes.{IsSlotCount};
ghost use Rattle.slot_table.specs.Mixing.{mix_of};
ghost use Rattle.slot_table.specs.Pairs.{pairs-same};
ghost use Rattle.std.proofs.lemmas.Bool.{eqb-true};
ghost use Rattle.slot_table.specs.Lists.{IsIn, IsOnce};
ghost use Rattle.slot_table.specs.Placing.{IsPlaced};

mod slots;

use slots::{ProbeResult, add_at, probe};
pub use slots::{free_slot, next_slot};
use std::alloc::Global;
use std::marker::Model;

/// An item of a `SlotTable`: it has a hash, and an equality that holds of equal values only.
pub trait SlotHash: Copy + Eq {
    ghost slot_hash_of: { Self → ℕ };

    fn slot_hash(&self) -> u64
        ensures { result ≡ slot_hash_of self.now };

    ghost same: { (x y : Self) → Self.eq x y ≡ true → x ≡ y };
}

/// Returns a hash of two words, below 2^32: the upper half of a product. The halves of a first product are exchanged,
/// since the lower bits of a product do not depend on the higher bits of its factors; so the higher bits of both words
/// reach the lower bits of the hash, by which slots are chosen.
pub fn mix(first: u64, second: u64) -> u64
    ensures { result ≡ mix_of first second }
{
    let product = first.wrapping_mul(11400714819323198485);
    let turned = (product ^ second).rotate_left(32);
    turned.wrapping_mul(15485907386658061715) >> 32
}

impl SlotHash for u64 {
    ghost slot_hash_of = { λ x. x };

    fn slot_hash(&self) -> u64 {
        *self
    }

    ghost same = { eqb-true };
}

impl SlotHash for u32 {
    ghost slot_hash_of = { λ x. x };

    fn slot_hash(&self) -> u64 {
        *self as u64
    }

    ghost same = { eqb-true };
}

impl<A: SlotHash, B: SlotHash> SlotHash for (A, B) {
    ghost slot_hash_of = { λ p. mix_of (A.slot_hash_of p.0) (B.slot_hash_of p.1) };

    fn slot_hash(&self) -> u64 {
        mix(self.0.slot_hash(), self.1.slot_hash())
    }

    ghost same = { pairs-same A.eq B.eq A.same B.same };
}

/// Distinct items, each at its place: their numbers in the order of adding, from 0.
#[derive(Drop)]
pub struct SlotTable<T: SlotHash> {
    items: Vec<T>,
    /// A slot is 0 if it is empty. Otherwise it is the stamp of an item: its place and 1 in the lower bits, as many as
    /// number the slots, and above them the tag, the same bits of the item's hash. A search reads only items with the
    /// tag that it looks for.
    slots: Vec<u32>,
}

impl<T: SlotHash> Model for SlotTable<T> {
    ghost use Rattle.std.specs.Prelude.{List, length};

    ghost Value = { List T };

    ghost use Rattle.slot_table.specs.Stamps.{IsTable};

    ghost view = { λ t. t.items.items };

    ghost invariant = { λ t. IsTable T.slot_hash_of t.items.items t.slots.items };
}

/// The place of an item after `find_or_add`.
#[derive(Clone, Copy, Debug, PartialEq, Eq)]
pub enum Admission {
    /// The item was there already, at this place.
    Found(u32),
    /// The item was added at the end, which is this place.
    Added(u32),
}

/// Why an item was not added. The table is as before.
#[derive(Clone, Copy, Debug, PartialEq, Eq)]
pub enum Refusal {
    /// The caller allowed no further item (`room` is 0).
    Full,
    /// Memory for the items or the slots was refused.
    OutOfMemory,
}

impl<T: SlotHash> SlotTable<T> {
    /// Returns a table without items, which takes no memory yet.
    pub fn new(alloc: Global) -> SlotTable<T>
        ensures { result ≡ [] }
    {
        SlotTable {
            items: Vec::new(alloc),
            slots: Vec::new(alloc),
        }
    }

    /// Returns the number of items.
    pub fn len(&self) -> usize
        ensures { result ≡ length self.now }
    {
        self.items.len()
    }

    /// Returns the number of slots, of four bytes each.
    pub fn slots(&self) -> usize
        ensures { IsSlotCount (length self.now) result }
    {
        self.slots.len()
    }

    /// Returns the item at a place.
    pub fn at(&self, place: usize) -> T
        requires { place < length self.now }
        ensures { slice_get self.now place ≡ Some result }
    {
        self.items[place]
    }

    /// Returns all items by place.
    pub fn as_slice(&self) -> &[T]
        ensures all { result.now ≡ self.now }
        ensures once { IsOnce self.now }
    {
        self.items.as_slice()
    }

    /// Returns the place of an item, or none if it is not in the table.
    pub fn find(&self, item: T) -> Option<u32>
        ensures { MatchOption result (IsIn self.now item → ⊥) (λ i. slice_get self.now i ≡ Some item) }
    {
        match probe(self.items.as_slice(), self.slots.as_slice(), item) {
            ProbeResult::Place(place) => Some(place),
            ProbeResult::Slot(_) => None,
        }
    }

    /// Finds an item, or adds it at the end; `room` is how many more items there may be. One search serves both. Fails
    /// with `Full` if the item is absent and `room` is 0, and with `OutOfMemory` if a growth is refused; the table is
    /// then as before.
    #[inline(always)]
    pub fn find_or_add(&mut self, item: T, room: u64) -> Result<Admission, Refusal>
        requires { 0 < room → length self.old + room < 2 ^ 32 }
        ensures { IsPlaced room item self.old result self.new }
    {
        match probe(self.items.as_slice(), self.slots.as_slice(), item) {
            ProbeResult::Place(place) => Ok(Admission::Found(place)),
            ProbeResult::Slot(slot) => {
                if room == 0 {
                    return Err(Refusal::Full);
                }
                let place = self.items.len() as u32;
                match add_at(&mut self.items, &mut self.slots, item, slot) {
                    Ok(()) => Ok(Admission::Added(place)),
                    Err(_) => Err(Refusal::OutOfMemory),
                }
            }
        }
    }

    /// Removes all items and empties the slots, but keeps the memory of both.
    pub fn clear(&mut self)
        ensures { self.new ≡ [] }
    {
        self.items.clear();
        self.slots.clear();
    }
}
