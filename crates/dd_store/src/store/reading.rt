//! What is read of a store: levels, children, cofactors, and the node that has a pair of children.
ghost use Rattle.std.specs.Prelude.{Some, ◌≡◌, ◌<◌, ◌≤◌, length, true, false, IsSome};
ghost use Rattle.dd_store.specs.Graph.{top, IsRef, Pair};
ghost use Rattle.dd_store.specs.Complements.{is_complement};
ghost use Rattle.dd_store.specs.Nodes.{node, children, low_of, high_of, cofactor_of, IsFound, shard_at};
ghost use Rattle.slot_table.specs.Probes.{IsSlotCount};

use crate::hashes::shard_of_regular;
use crate::reference::{NodeId, Ref, Reference, SHARDS, complement_pair};
use crate::store::Store;

impl Store {
    /// Returns the level of a reference; that of a terminal is the number of levels.
    pub fn top(&self, reference: Ref) -> u16
        ensures { result ≡ top self.now.levels reference }
    {
        match reference.view() {
            Reference::Node { id, .. } => id.level,
            _ => self.levels,
        }
    }

    /// Returns the children of a node, low and high.
    pub(crate) fn pair(&self, id: NodeId) -> (Ref, Ref)
        requires { (p : Pair) × (node self.now id ≡ Some p) }
        ensures { node self.now id ≡ Some result }
    {
        let place = SHARDS * id.level as usize + id.shard as usize;
        let shard_state = &self.shards[place];
        shard_state.nodes.at(id.index as usize)
    }

    /// Returns the children of a reference to a node, low and high: those of its node, complemented if the reference
    /// has a complement bit. It reads memory once.
    pub fn children(&self, reference: Ref) -> (Ref, Ref)
        requires { IsSome (children self.now reference) }
        ensures { children self.now reference ≡ Some result }
    {
        match reference.view() {
            Reference::Node { id, complement } => complement_pair(self.pair(id), complement),
            _ => (reference, reference),
        }
    }

    /// Returns the child of a reference to a node for the bit 0.
    pub fn low(&self, reference: Ref) -> Ref
        requires { IsSome (children self.now reference) }
        ensures { result ≡ low_of self.now reference }
    {
        match reference.view() {
            Reference::Node { id, complement } => self.pair(id).0.complement_if(complement),
            _ => reference,
        }
    }

    /// Returns the child of a reference to a node for the bit 1.
    pub fn high(&self, reference: Ref) -> Ref
        requires { IsSome (children self.now reference) }
        ensures { result ≡ high_of self.now reference }
    {
        match reference.view() {
            Reference::Node { id, complement } => self.pair(id).1.complement_if(complement),
            _ => reference,
        }
    }

    /// Returns the cofactor of a reference: the reference to its function with the bit of a level fixed. A reference
    /// below the level is its own cofactor.
    pub fn cofactor(&self, reference: Ref, level: u16, bit: bool) -> Ref
        requires in_store { IsRef (node self.now) reference }
        requires not_above { level ≤ top self.now.levels reference }
        requires level { level < self.now.levels }
        ensures { result ≡ cofactor_of self.now reference level bit }
    {
        match reference.view() {
            Reference::Node { id, complement } if id.level == level => {
                let pair = self.pair(id);
                let child = if bit { pair.1 } else { pair.0 };
                child.complement_if(complement)
            }
            _ => reference,
        }
    }

    /// Returns both cofactors of a reference for the bit of a level, first for 0. It reads memory once.
    pub fn cofactors(&self, reference: Ref, level: u16) -> (Ref, Ref)
        requires in_store { IsRef (node self.now) reference }
        requires not_above { level ≤ top self.now.levels reference }
        requires level { level < self.now.levels }
        ensures low { result.0 ≡ cofactor_of self.now reference level false }
        ensures high { result.1 ≡ cofactor_of self.now reference level true }
    {
        match reference.view() {
            Reference::Node { id, complement } if id.level == level => complement_pair(
                self.pair(id),
                complement,
            ),
            _ => (reference, reference),
        }
    }

    /// Returns the number of slots of a shard's unique table.
    pub fn slots(&self, level: u16, shard: u8) -> u64
        requires level { level < self.now.levels }
        requires shard { shard < 16 }
        ensures { IsSlotCount (length (shard_at self.now level shard)) result }
    {
        let place = SHARDS * level as usize + shard as usize;
        let shard_state = &self.shards[place];
        shard_state.nodes.slots() as u64
    }

    /// Returns the reference of a level with these children, or none if the store has no such node. Nothing is made.
    pub fn find(&self, level: u16, lo: Ref, hi: Ref) -> Option<Ref>
        requires { level < self.now.levels }
        ensures { IsFound self.now level lo hi result }
    {
        let complement = hi.is_complement();
        let pair = complement_pair((lo, hi), complement);
        match self.find_regular(level, pair.0, pair.1) {
            Some(found) => Some(found.complement_if(complement)),
            None => None,
        }
    }

    /// Returns the node of a level with these children, of which `hi` has no complement bit, or none.
    fn find_regular(&self, level: u16, lo: Ref, hi: Ref) -> Option<Ref>
        requires level { level < self.now.levels }
        requires regular { is_complement hi ≡ false }
        ensures { IsFound self.now level lo hi result }
    {
        let shard = shard_of_regular(lo, hi);
        let place = SHARDS * level as usize + shard as usize;
        let shard_state = &self.shards[place];
        match shard_state.nodes.find((lo, hi)) {
            Some(index) => Some(Ref::node(NodeId {
                level,
                shard,
                index,
            })),
            None => None,
        }
    }
}
