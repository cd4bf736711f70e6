//! The nodes of many pairs of children at one level, made at once by threads that share the level's
//! shards.
ghost use Rattle.std.specs.Prelude.{None, Some, ◌≡◌, ◌<◌, ◌≤◌, ℕ, [], length, All, IfOk, IfErr, IfSome, IfNone, MatchResult, vec_capacity};
ghost use Rattle.std.specs.List.{AllZip};
ghost use Rattle.dd_store.specs.Levels.{list_at, all_at, refs_at, regular_lists};
ghost use Rattle.dd_store.specs.Adding.{AreReady, GrowsLevel, IsLevelFault, IsMakeFault};
ghost use Rattle.dd_store.specs.Nodes.{IsSound, IsThere, Extends};

use crate::StoreFault;
use crate::level::{Watch, add_lists, level_count, level_fault, take_found};
use crate::makers::{Makers, make_level};
use crate::reference::{Ref, SHARDS};
use crate::store::Store;
use std::thread::Threads;

impl Store {
    /// Adds lists to the shards of a level, and returns why pairs are missing, if any are.
    fn grow_level<R: Threads + Sync, H: Watch + Sync>(
        &mut self,
        rt: &R,
        level: u16,
        lists: &[Vec<(Ref, Ref)>],
        watch: &H,
    ) -> Option<StoreFault>
        requires lists { length lists.now ≡ 16 }
        requires ready { AreReady self.old level (list_at lists.now) }
        ensures grows { GrowsLevel self.old self.new level (regular_lists (list_at lists.now)) }
        ensures sound { IsSound self.new }
        ensures fault { IsLevelFault self.new level (regular_lists (list_at lists.now)) result }
    {
        let first = SHARDS * level as usize;
        let limit = self.limit;
        let shards = &mut self.shards[first..first + SHARDS];
        let before = level_count(shards, limit);
        add_lists(rt, shards, level, lists, limit, watch);
        let after = level_count(shards, limit);
        let fault = level_fault(shards);
        self.count = self.count - before + after;
        fault
    }

    /// Adds to a level a node for each pair of children that has none. The pairs are in 16 lists, one for each shard
    /// (`shard_of`); if a second child has a complement bit, the node is that of both complements. Four threads share
    /// the shards. Fails with `Full` only if one shard by itself has as many nodes as the limit and lacks a pair of its
    /// list, and with `OutOfMemory` only if a shard lacks a pair, also if both befell. After a failure some of the
    /// nodes may have been added. The store may have more nodes than its limit, since each thread sees only its own
    /// shards; the caller tests that.
    pub fn add_all<R: Threads + Sync, H: Watch + Sync>(
        &mut self,
        rt: &R,
        level: u16,
        lists: &[Vec<(Ref, Ref)>],
        watch: &H,
    ) -> Result<(), StoreFault>
        requires lists { length lists.now ≡ 16 }
        requires ready { AreReady self.old level (list_at lists.now) }
        ensures grows { GrowsLevel self.old self.new level (regular_lists (list_at lists.now)) }
        ensures sound { IsSound self.new }
        ensures extends { Extends self.old self.new }
        ensures answer { MatchResult result (λ _. IsLevelFault self.new level (regular_lists (list_at lists.now)) None)
            (λ f. IsLevelFault self.new level (regular_lists (list_at lists.now)) (Some f)) }
    {
        match self.grow_level(rt, level, lists, watch) {
            None => Ok(()),
            Some(fault) => Err(fault),
        }
    }

    /// Adds the lists of all parts to the shards of a level, moves the noted references into `refs`, and returns why
    /// references are missing, if any are.
    fn make_level_parts<R: Threads + Sync, H: Watch + Sync>(
        &mut self,
        makers: &Makers<'_, R, H>,
        level: u16,
        parts: &[Vec<Vec<(Ref, Ref)>>],
        refs: &mut Vec<Vec<Ref>>,
    ) -> Option<StoreFault>
        requires lists { All (λ part. length part.items ≡ 16) parts.now }
        requires ready { AreReady self.old level (all_at parts.now) }
        requires empty { refs.old.items ≡ [] }
        requires room { 16 ≤ vec_capacity refs.old }
        ensures grows { GrowsLevel self.old self.new level (regular_lists (all_at parts.now)) }
        ensures sound { IsSound self.new }
        ensures sixteen { length refs.new.items ≡ 16 }
        ensures answers { IfNone result ((s : ℕ) → s < 16 → AllZip (λ p r. IsThere self.new level p.0 p.1 r) (all_at parts.now s)
            (refs_at refs.new.items s)) }
        ensures fault { IfSome result (λ f. IsMakeFault self.new level (regular_lists (all_at parts.now)) f) }
    {
        let first = SHARDS * level as usize;
        let limit = self.limit;
        let shards = &mut self.shards[first..first + SHARDS];
        let before = level_count(shards, limit);
        make_level(makers, shards, parts, limit, level);
        let after = level_count(shards, limit);
        let halted = level_fault(shards);
        take_found(self.alloc, shards, refs);
        self.count = self.count - before + after;
        halted
    }

    /// Returns the references of pairs of different children at a level, and makes the nodes that are missing. Each
    /// part has 16 lists of pairs, one for each shard (`shard_of`). The result has a list for each shard: the
    /// references of the first part's pairs, then those of the second's, and so on. If a second child has a complement
    /// bit, the node is that of both complements, and the reference has the bit. Each thread of the makers has some
    /// neighbouring shards, without moving them; if a thread cannot be started, the caller's thread does its work. Each
    /// pair is searched for once. Fails with `Full` only if one shard by itself has as many nodes as the limit and
    /// lacks a pair of its lists, and with `OutOfMemory` if memory was refused. After a failure some of the nodes may
    /// have been added.
    pub fn make_all<R: Threads + Sync, H: Watch + Sync>(
        &mut self,
        makers: &Makers<'_, R, H>,
        level: u16,
        parts: &[Vec<Vec<(Ref, Ref)>>],
    ) -> Result<Vec<Vec<Ref>>, StoreFault>
        requires lists { All (λ part. length part.items ≡ 16) parts.now }
        requires ready { AreReady self.old level (all_at parts.now) }
        ensures grows { GrowsLevel self.old self.new level (regular_lists (all_at parts.now)) }
        ensures sound { IsSound self.new }
        ensures extends { Extends self.old self.new }
        ensures sixteen { IfOk result (λ refs. length refs.items ≡ 16) }
        ensures answers { IfOk result (λ refs. (s : ℕ) → s < 16
            → AllZip (λ p r. IsThere self.new level p.0 p.1 r) (all_at parts.now s) (refs_at refs.items s)) }
        ensures fault { IfErr result (λ f. IsMakeFault self.new level (regular_lists (all_at parts.now)) f) }
    {
        let Ok(mut refs) = Vec::with_capacity(self.alloc, SHARDS) else {
            return Err(StoreFault::OutOfMemory);
        };
        match self.make_level_parts(makers, level, parts, &mut refs) {
            None => Ok(refs),
            Some(stopped) => Err(stopped),
        }
    }
}
