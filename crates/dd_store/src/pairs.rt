//! The unique table of a shard: the children of its nodes, in eight bytes a node as long as all
//! references fit in four bytes each, and in sixteen from the first that does not.
ghost use Rattle.std.specs.Prelude.{◌≡◌, ◌<◌, ◌+◌, ◌^◌, [], length, map, slice_get, Some, MatchOption, MatchResult};
ghost use Rattle.dd_store.specs.Narrow.{AreShortWords, AllShortWords, AreWordsOf, pair_at, pairs_in, AreValid, IsNarrow, DoesNotFit};
ghost use Rattle.slot_table.specs.Lists.{IsIn};
ghost use Rattle.slot_table.specs.Placing.{IsPlaced};
ghost use Rattle.slot_table.specs.Probes.{IsSlotCount};

use crate::reference::Ref;
use slot_table::{Admission, Refusal, SlotTable};
use std::alloc::Global;
use std::marker::Model;

// The bytes that a node takes in the vector of its shard, narrow and wide. The vector keeps room to grow, and the slots
// take 5 to 11 bytes more for each node.
const _: () = prove!(size_of::<(u32, u32)>() == 8);

const _: () = prove!(size_of::<(Ref, Ref)>() == 16);

/// Words below this number fit in four bytes.
const FOUR_BYTES: u64 = 1 << 32;

/// Returns the words of both references in four bytes each, if they fit.
#[inline(always)]
fn words(pair: (Ref, Ref)) -> Option<(u32, u32)>
    ensures { AreWordsOf pair result }
{
    let low = pair.0.word();
    let high = pair.1.word();
    if low < FOUR_BYTES && high < FOUR_BYTES {
        return Some((low as u32, high as u32));
    }
    None
}

/// Returns the references that have these words.
#[inline(always)]
fn references(words: (u32, u32)) -> (Ref, Ref)
    requires { AreShortWords words }
    ensures { result ≡ pair_at words }
{
    (Ref::of_word(words.0 as u64), Ref::of_word(words.1 as u64))
}

/// Returns a table with the same pairs at the same places, in sixteen bytes each.
fn widened(alloc: Global, table: &SlotTable<(u32, u32)>) -> Result<SlotTable<(Ref, Ref)>, Refusal>
    requires words { AllShortWords table.now }
    requires few { length table.now + 1 < 2 ^ 32 }
    ensures { MatchResult result (λ wide. wide ≡ map pair_at table.now) (λ e. e ≡ Refusal.OutOfMemory) }
{
    let mut wide = SlotTable::new(alloc);
    for words in table.as_slice() {
        wide.find_or_add(references(*words), 1)?;
    }
    Ok(wide)
}

/// Finds a pair, or adds it at the end if there is room for one more. It is not inlined, because in most runs all pairs
/// fit in eight bytes.
#[inline(never)]
fn place_wide(
    table: &mut SlotTable<(Ref, Ref)>,
    pair: (Ref, Ref),
    room: u64,
) -> Result<Admission, Refusal>
    requires { 0 < room → length table.old + room < 2 ^ 32 }
    ensures { IsPlaced room pair table.old result table.new }
{
    table.find_or_add(pair, room)
}

/// Distinct pairs of references, by place.
#[derive(Drop)]
enum Pairs {
    /// All pairs fit: each reference is its word in four bytes.
    Narrow(SlotTable<(u32, u32)>),
    /// At least one pair does not fit.
    Wide(SlotTable<(Ref, Ref)>),
}

impl Pairs {
    /// Finds a pair, or adds it at the end if there is room for one more. Returns none, and changes nothing, if the
    /// pair does not fit.
    #[inline(always)]
    fn place(&mut self, pair: (Ref, Ref), room: u64) -> Option<Result<Admission, Refusal>>
        requires valid { AreValid self.old }
        requires room { 0 < room → length (pairs_in self.old) + room < 2 ^ 32 }
        ensures valid { AreValid self.new }
        ensures placed { MatchOption result (DoesNotFit pair self.old self.new)
            (λ r. IsPlaced room pair (pairs_in self.old) r (pairs_in self.new)) }
    {
        match self {
            Pairs::Narrow(table) => match words(pair) {
                Some(words) => Some(table.find_or_add(words, room)),
                None => None,
            },
            Pairs::Wide(table) => Some(place_wide(table, pair, room)),
        }
    }

    /// Adds a pair that does not fit, if there is room for one more. From then on each pair has sixteen bytes.
    #[inline(never)]
    fn widen_and_add(
        &mut self,
        alloc: Global,
        pair: (Ref, Ref),
        room: u64,
    ) -> Result<Admission, Refusal>
        requires valid { AreValid self.old }
        requires four { IsNarrow self.old }
        requires absent { IsIn (pairs_in self.old) pair → ⊥ }
        requires room { 0 < room → length (pairs_in self.old) + room < 2 ^ 32 }
        ensures valid { AreValid self.new }
        ensures placed { IsPlaced room pair (pairs_in self.old) result (pairs_in self.new) }
    {
        if room == 0 {
            return Err(Refusal::Full);
        }
        let mut wide = match self {
            Pairs::Narrow(table) => widened(alloc, table)?,
            Pairs::Wide(_) => unreachable!(),
        };
        let placed = wide.find_or_add(pair, room)?;
        *self = Pairs::Wide(wide);
        Ok(placed)
    }
}

/// The children of a shard's nodes by place, each pair once. The first pair that does not fit widens all.
#[derive(Drop)]
pub(crate) struct PairTable {
    alloc: Global,
    pairs: Pairs,
}

impl Model for PairTable {
    ghost use Rattle.std.specs.Prelude.{List};
    ghost use Rattle.dd_store.specs.Graph.{Pair};

    ghost Value = { List Pair };

    ghost use Rattle.dd_store.specs.Narrow.{pairs_in, AreValid};

    ghost view = { λ t. pairs_in t.pairs };

    ghost invariant = { λ t. AreValid t.pairs };
}

impl PairTable {
    /// Returns a table without pairs, which takes no memory yet.
    pub(crate) fn new(alloc: Global) -> PairTable
        ensures { result ≡ [] }
    {
        PairTable {
            alloc,
            pairs: Pairs::Narrow(SlotTable::new(alloc)),
        }
    }

    /// Returns the number of pairs.
    pub(crate) fn len(&self) -> usize
        ensures { result ≡ length self.now }
    {
        match &self.pairs {
            Pairs::Narrow(table) => table.len(),
            Pairs::Wide(table) => table.len(),
        }
    }

    /// Returns the number of slots.
    pub(crate) fn slots(&self) -> usize
        ensures { IsSlotCount (length self.now) result }
    {
        match &self.pairs {
            Pairs::Narrow(table) => table.slots(),
            Pairs::Wide(table) => table.slots(),
        }
    }

    /// Returns the pair at a place.
    #[inline(always)]
    pub(crate) fn at(&self, place: usize) -> (Ref, Ref)
        requires { place < length self.now }
        ensures { slice_get self.now place ≡ Some result }
    {
        match &self.pairs {
            Pairs::Narrow(table) => references(table.at(place)),
            Pairs::Wide(table) => table.at(place),
        }
    }

    /// Returns the place of a pair, or none if it is not in the table.
    pub(crate) fn find(&self, pair: (Ref, Ref)) -> Option<u32>
        ensures { MatchOption result (IsIn self.now pair → ⊥) (λ i. slice_get self.now i ≡ Some pair) }
    {
        match &self.pairs {
            Pairs::Narrow(table) => match words(pair) {
                Some(words) => table.find(words),
                None => None,
            },
            Pairs::Wide(table) => table.find(pair),
        }
    }

    /// Finds a pair, or adds it at the end; `room` is how many more pairs there may be. A refusal changes nothing.
    #[inline(always)]
    pub(crate) fn find_or_add(&mut self, pair: (Ref, Ref), room: u64) -> Result<Admission, Refusal>
        requires { 0 < room → length self.old + room < 2 ^ 32 }
        ensures { IsPlaced room pair self.old result self.new }
    {
        let (low, high) = pair;
        if let Some(placed) = self.pairs.place((low, high), room) {
            return placed;
        }
        self.pairs.widen_and_add(self.alloc, (low, high), room)
    }
}
