//! The 16 shards of one level, and lists of pairs of children that are added to them: by four
//! threads (`add_lists`), or by `makers`, who also note the reference of each pair.
ghost use Rattle.std.specs.Prelude.{List, ◌≡◌, ◌⊎◌, ◌<◌, ◌≤◌, ◌-◌, ◌^◌, ◌++◌, [], ℕ, length, map, slice_index_or, vec_capacity, Some, All};
ghost use Rattle.std.specs.Prelude.{MatchResult};
ghost use Rattle.std.specs.List.{sum_by, AllZip};
ghost use Rattle.dd_store.specs.declared.reference.Ref.{Ref as RefValue};
ghost use Rattle.dd_store.specs.Graph.{Pair};
ghost use Rattle.dd_store.specs.Growing.{Grows, IsAddListFault};
ghost use Rattle.dd_store.specs.Levels.{IsAdded, IsMakeListFault, IsReferenceAt, list_at, all_at, regular_list, pairs_of, AreWithin, IsFault, HadMemory};
ghost use Rattle.dd_store.specs.declared.level.ShardState.{ShardState as ShardValue};
ghost use Rattle.slot_table.specs.Placing.{IsPlaced};

use crate::StoreFault;
use crate::pairs::PairTable;
use crate::reference::{NodeId, Ref, complement_pair};
use slot_table::{Admission, Refusal};
use std::alloc::Global;
use std::thread::Threads;
use std::{mem, thread};

/// A caller's view of the threads of a call as they come to their shards; it can count them, or check that two of them
/// meet.
pub trait Watch {
    /// Is called once for each shard of a level, by the thread that has the shard, before pairs are added to it.
    fn at_shard(&self, shard: u8, level: u16);
}

/// A shard: the children of its nodes by place, why the last list was not added whole, and the references that a thread
/// has noted for its pairs. `found` is empty between two calls of a store.
#[derive(Drop)]
pub(crate) struct ShardState {
    pub(crate) nodes: PairTable,
    pub(crate) fault: Option<StoreFault>,
    pub(crate) found: Vec<Ref>,
}

// A quarter of these bytes is the list of references.
const _: () = prove!(size_of::<ShardState>() == 88);

/// Finds a pair in a shard, or adds it if this shard by itself has fewer than `limit` pairs.
fn place(shard: &mut PairTable, pair: (Ref, Ref), limit: u64) -> Result<Admission, Refusal>
    requires { limit < 2 ^ 32 }
    ensures { IsPlaced (limit - length shard.old) pair shard.old result shard.new }
{
    let room = limit.saturating_sub(shard.len() as u64);
    shard.find_or_add(pair, room)
}

impl ShardState {
    /// Adds a node for each pair that has none, as long as this shard by itself has fewer than `limit` nodes. If a
    /// pair's second child has a complement bit, the node is that of both complements. `fault` says afterwards why
    /// pairs are missing, if any are.
    pub(crate) fn add_list(&mut self, list: &[(Ref, Ref)], limit: u64)
        requires { limit < 2 ^ 32 }
        ensures grows { Grows (regular_list list.now) self.old.nodes self.new.nodes }
        ensures stopped { IsAddListFault limit (regular_list list.now) self.new.nodes self.new.fault }
        ensures within { length self.old.nodes ≤ limit → length self.new.nodes ≤ limit }
    {
        self.fault = None;
        for pair in list {
            let children = complement_pair(*pair, pair.1.is_complement());
            if let Err(refusal) = place(&mut self.nodes, children, limit) {
                self.fault = Some(StoreFault::from(refusal));
                return;
            }
        }
    }

    /// Adds nodes as `add_list` does, and appends the reference of each pair to `found`; it has a complement bit if the
    /// pair's second child has one.
    fn make_list(
        &mut self,
        list: &[(Ref, Ref)],
        limit: u64,
        level: u16,
        shard: u8,
    ) -> Result<(), StoreFault>
        requires { limit < 2 ^ 32 }
        ensures grows { Grows (regular_list list.now) self.old.nodes self.new.nodes }
        ensures within { length self.old.nodes ≤ limit → length self.new.nodes ≤ limit }
        ensures noted { MatchResult result (λ _. (refs : List RefValue) × (self.new.found.items ≡ self.old.found.items ++ refs)
            × AllZip (IsReferenceAt level shard self.new.nodes) list.now refs) (λ f. IsMakeListFault limit (regular_list list.now) self.new.nodes f) }
    {
        if self.found.reserve(list.len()).is_err() {
            return Err(StoreFault::OutOfMemory);
        }
        for pair in list {
            let complement = pair.1.is_complement();
            let placed = place(&mut self.nodes, complement_pair(*pair, complement), limit)?;
            let index = match placed {
                Admission::Found(index) => index,
                Admission::Added(index) => index,
            };
            let node = Ref::node(NodeId {
                level,
                shard,
                index,
            });
            self.found.push_reserved(node.complement_if(complement));
        }
        Ok(())
    }

    /// Adds a node for each pair that has none, of all parts' lists for this shard, and notes the references of all
    /// pairs in `found`, part by part.
    pub(crate) fn make_lists(
        &mut self,
        parts: &[Vec<Vec<(Ref, Ref)>>],
        limit: u64,
        level: u16,
        shard: u8,
    ) -> Result<(), StoreFault>
        requires limit { limit < 2 ^ 32 }
        requires lists { All (λ part. length part.items ≡ 16) parts.now }
        requires shard { shard < 16 }
        ensures grows { Grows (regular_list (all_at parts.now shard)) self.old.nodes self.new.nodes }
        ensures within { length self.old.nodes ≤ limit → length self.new.nodes ≤ limit }
        ensures noted { MatchResult result (λ _. AllZip (IsReferenceAt level shard self.new.nodes) (all_at parts.now shard) self.new.found.items)
            (λ f. IsMakeListFault limit (regular_list (all_at parts.now shard)) self.new.nodes f) }
    {
        self.found.clear();
        for part in parts {
            let list = part[shard as usize].as_slice();
            self.make_list(list, limit, level, shard)?;
        }
        Ok(())
    }
}

/// Adds list i to shard i, for the 16 shards of a level. There are four threads, each with four neighbouring shards.
pub(crate) fn add_lists<R: Threads + Sync, H: Watch + Sync>(
    rt: &R,
    shards: &mut [ShardState],
    level: u16,
    lists: &[Vec<(Ref, Ref)>],
    limit: u64,
    watch: &H,
)
    requires shards { length shards.old ≡ 16 }
    requires lists { length lists.now ≡ 16 }
    requires limit { limit < 2 ^ 32 }
    ensures { (s : ℕ) (d : ShardValue) → s < 16 → IsAdded limit (list_at lists.now s) (slice_index_or shards.old s d)
        (slice_index_or shards.new s d) }
{
    let add = |shard: usize, shard_state: &mut ShardState|
        requires { (shard < 16) × (length lists.now ≡ 16) × (limit < 2 ^ 32) }
        ensures { IsAdded limit (list_at lists.entry.now shard) shard_state.entry.now shard_state.exit.now }
    {
        watch.at_shard(shard as u8, level);
        shard_state.add_list(lists[shard].as_slice(), limit);
    };
    thread::for_each_mut(rt, shards, 4, &add);
}

/// Moves the lists of references out of the shards, one list for each.
pub(crate) fn take_found(alloc: Global, shards: &mut [ShardState], refs: &mut Vec<Vec<Ref>>)
    requires empty { refs.old.items ≡ [] }
    requires room { length shards.old ≤ vec_capacity refs.old }
    ensures found { refs.new.items ≡ map (λ (c : ShardValue). c.found) shards.old }
    ensures shards { pairs_of shards.new ≡ pairs_of shards.old }
{
    for place in 0..shards.len() {
        let found = mem::replace(&mut shards[place].found, Vec::new(alloc));
        refs.push_reserved(found);
    }
}

/// Returns the number of nodes in the shards of a level.
pub(crate) fn level_count(shards: &[ShardState], limit: u64) -> u64
    requires shards { length shards.now ≤ 16 }
    requires limit { limit < 2 ^ 32 }
    requires within { AreWithin limit shards.now }
    ensures { result ≡ sum_by (λ (ps : List Pair). length ps) (pairs_of shards.now) }
{
    let mut total = 0;
    for shard_state in shards {
        total += shard_state.nodes.len() as u64;
    }
    total
}

/// Returns why pairs of the last lists are missing. Want of memory is reported rather than the limit if both befell.
pub(crate) fn level_fault(shards: &[ShardState]) -> Option<StoreFault>
    ensures fault { IsFault shards.now result }
    ensures memory { HadMemory shards.now ⊎ (result ≡ Some StoreFault.OutOfMemory) }
{
    let mut worst = None;
    for shard_state in shards {
        if let Some(fault) = shard_state.fault {
            if fault == StoreFault::OutOfMemory {
                return Some(fault);
            }
            worst = Some(fault);
        }
    }
    worst
}
