//! The store: the nodes of shared diagrams by level and shard, with each pair of children at most once in a level,
//! so that equal functions have equal references (Bryant 1986).
ghost use Rattle.std.specs.Prelude.{◌≡◌, ◌<◌, ◌≤◌, ◌^◌, List, Bool, false, IfOk, IfErr, OnErr};
ghost use Rattle.dd_store.specs.Graph.{top, bit, IsRef};
ghost use Rattle.dd_store.specs.Complements.{is_complement};
ghost use Rattle.dd_store.specs.View.{IsMade, IsFull};
ghost use Rattle.dd_store.specs.Nodes.{Nodes, node, count_of, IsSound, Extends, IsBranch, IsCanonical, Makes, empty_nodes, den};

mod by_threads;
mod reading;

use crate::StoreFault;
use crate::hashes::shard_of_regular;
use crate::level::ShardState;
use crate::pairs::PairTable;
use crate::reference::{NodeId, Ref, Reference, SHARDS, complement_pair};
use slot_table::Admission;
use std::alloc::{AllocError, Global};
use std::marker::Model;

/// The nodes of shared diagrams over one order of the variables; level 0 is the top. References stay valid for as long
/// as the store lives, since nodes are never moved or freed.
#[derive(Drop)]
pub struct Store {
    alloc: Global,
    levels: u16,
    limit: u64,
    count: u64,
    shards: Vec<ShardState>,
}

impl Model for Store {
    ghost use Rattle.dd_store.specs.Nodes.{Nodes, IsStore};

    ghost Value = { Nodes };

    ghost use Rattle.dd_store.specs.Levels.{pairs_of};

    ghost view = { λ s. record { levels = s.levels; limit = s.limit; shards = pairs_of s.shards.items } };

    ghost invariant = { λ s. IsStore (record { levels = s.levels; limit = s.limit; shards = pairs_of s.shards.items }) s.count };
}

impl Store {
    /// Returns a store without nodes for diagrams of `levels` variables. `make` never leaves more than `limit` nodes in
    /// it.
    pub fn new(alloc: Global, levels: u16, limit: u64) -> Result<Store, AllocError>
        requires few_levels { levels ≤ 4096 }
        requires small_limit { limit < 2 ^ 32 }
        ensures { IfOk result (λ s. s ≡ empty_nodes levels limit) }
    {
        let mut shards = Vec::new(alloc);
        for _ in 0..SHARDS * levels as usize {
            shards.push(ShardState {
                nodes: PairTable::new(alloc),
                fault: None,
                found: Vec::new(alloc),
            })?;
        }
        Ok(Store {
            alloc,
            levels,
            limit,
            count: 0,
            shards,
        })
    }

    /// The allocator of the store's tables.
    pub(crate) fn allocator(&self) -> Global {
        self.alloc
    }

    /// Returns the number of levels, which is that of the variables. The clauses `sound` and `canonical` are true of
    /// every store; a caller gets them by this call.
    pub fn levels(&self) -> u16
        ensures value { result ≡ self.now.levels }
        ensures sound { IsSound self.now }
        ensures canonical { IsCanonical self.now }
    {
        self.levels
    }

    /// Returns the number of nodes; terminals are not counted.
    pub fn count(&self) -> u64
        ensures value { result ≡ count_of self.now }
        ensures sound { IsSound self.now }
    {
        self.count
    }

    /// Returns the greatest number of nodes that `make` leaves.
    pub fn limit(&self) -> u64
        ensures { result ≡ self.now.limit }
    {
        self.limit
    }

    /// Finds or makes the node with these children, which differ, and of which `hi` has no complement bit.
    #[inline(always)]
    fn find_or_add(&mut self, level: u16, lo: Ref, hi: Ref) -> Result<Ref, StoreFault>
        requires level { level < self.old.levels }
        requires lo_in_store { IsRef (node self.old) lo }
        requires hi_in_store { IsRef (node self.old) hi }
        requires above_lo { level < top self.old.levels lo }
        requires above_hi { level < top self.old.levels hi }
        requires differ { lo ≡ hi → ⊥ }
        requires regular { is_complement hi ≡ false }
        ensures { Makes self.old level lo hi result self.new }
    {
        let shard = shard_of_regular(lo, hi);
        let place = SHARDS * level as usize + shard as usize;
        let room = self.limit.saturating_sub(self.count);
        let shard_state = &mut self.shards[place];
        let placed = shard_state.nodes.find_or_add((lo, hi), room)?;
        let index = match placed {
            Admission::Found(index) => index,
            Admission::Added(index) => {
                self.count += 1;
                index
            }
        };
        Ok(Ref::node(NodeId {
            level,
            shard,
            index,
        }))
    }

    /// Returns the reference whose function is that of `lo` if the bit of the level is 0, and that of `hi` if it is 1:
    /// a child if both are equal, the node with these children if there is one, and otherwise a new node (Bryant 1986).
    /// Only a new node can be refused: with `Full` if the store has `limit` nodes, with `OutOfMemory` if a table cannot
    /// grow. No node has a complement bit on its high child; if `hi` has one, the node is that of both complements, and
    /// the returned reference has the bit (Brace, Rudell and Bryant 1990).
    #[inline(always)]
    pub fn make(&mut self, level: u16, lo: Ref, hi: Ref) -> Result<Ref, StoreFault>
        requires level { level < self.old.levels }
        requires lo_in_store { IsRef (node self.old) lo }
        requires hi_in_store { IsRef (node self.old) hi }
        requires above_lo { level < top self.old.levels lo }
        requires above_hi { level < top self.old.levels hi }
        ensures makes { Makes self.old level lo hi result self.new }
        ensures sound { IsSound self.new }
        ensures extends { Extends self.old self.new }
        ensures in_store { IfOk result (λ r. IsRef (node self.new) r) }
        ensures meaning { IfOk result (λ r. IsBranch self.new level lo hi r) }
        ensures made { IfOk result (λ r. IsMade self.old self.new level lo hi r) }
        ensures refused { OnErr result (self.new ≡ self.old) }
        ensures full { IfErr result (λ e. IsFull self.old level lo hi e) }
    {
        let _ = &self.levels; // For the proof.
        if lo == hi {
            return Ok(lo);
        }
        let complement = hi.is_complement();
        let pair = complement_pair((lo, hi), complement);
        let made = self.find_or_add(level, pair.0, pair.1)?;
        Ok(made.complement_if(complement))
    }

    /// Returns the reference whose function is the bit of a level. Fails as `make` does.
    pub fn variable(&mut self, level: u16) -> Result<Ref, StoreFault>
        requires { level < self.old.levels }
        ensures makes { Makes self.old level Reference.False Reference.True result self.new }
        ensures sound { IsSound self.new }
        ensures extends { Extends self.old self.new }
        ensures in_store { IfOk result (λ r. IsRef (node self.new) r) }
        ensures meaning { IfOk result (λ r. (x : List Bool) → den self.new r x ≡ bit x level) }
        ensures made { IfOk result (λ r. IsMade self.old self.new level Reference.False Reference.True r) }
        ensures refused { OnErr result (self.new ≡ self.old) }
        ensures full { IfErr result (λ e. IsFull self.old level Reference.False Reference.True e) }
    {
        self.make(level, Ref::FALSE, Ref::TRUE)
    }
}
