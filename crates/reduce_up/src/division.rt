//! The pairs of diagrams of a worker's requests of a level, divided by shard as they are read, and
//! the notes by which the requests' diagrams are found again.
ghost use Rattle.std.specs.Prelude.{◌≡◌, ℕ, [], length, OnOk};
ghost use Rattle.dd_store.specs.Levels.{list_at};
ghost use Rattle.reduce_up.specs.Division.{IsPut};

use crate::lists::empty_all;
use dd_store::{Ref, SHARDS, shard_of};
use std::alloc::{AllocError, Global};

/// The origin of a redundant request, whose children have one diagram: it needs no node.
pub(crate) const REDUNDANT: u8 = 16;

/// The origin of each request's diagram, in the order in which the requests were read.
#[derive(Drop)]
pub(crate) struct Origins {
    /// The shard of the request's pair, or `REDUNDANT`.
    pub(crate) numbers: Vec<u8>,
    /// The diagrams of the redundant requests, in order.
    pub(crate) equal: Vec<Ref>,
}

/// The pairs of different diagrams, in a list for each shard, and each request's origin.
#[derive(Drop)]
pub(crate) struct PairsByShard {
    pub(crate) lists: Vec<Vec<(Ref, Ref)>>,
    pub(crate) origins: Origins,
}

impl PairsByShard {
    /// Returns empty lists, without memory.
    pub(crate) fn none(alloc: Global) -> PairsByShard {
        PairsByShard {
            lists: Vec::new(alloc),
            origins: Origins {
                numbers: Vec::new(alloc),
                equal: Vec::new(alloc),
            },
        }
    }

    /// Removes all pairs, and makes room for `count` requests whose pairs are spread evenly over the shards.
    pub(crate) fn empty(&mut self, alloc: Global, count: usize) -> Result<(), AllocError>
        ensures sixteen { OnOk result (length self.new.lists.items ≡ 16) }
        ensures empty { OnOk result ((s : ℕ) → length (list_at self.new.lists.items s) ≡ 0) }
        ensures numbers { OnOk result (self.new.origins.numbers.items ≡ []) }
        ensures equal { OnOk result (self.new.origins.equal.items ≡ []) }
    {
        empty_all(alloc, &mut self.lists, count / SHARDS + count / 64 + 16)?;
        self.origins.numbers.clear();
        self.origins.numbers.reserve_exact(count)?;
        self.origins.equal.clear();
        Ok(())
    }

    /// Adds the pair of the next request.
    pub(crate) fn put(&mut self, pair: (Ref, Ref)) -> Result<(), AllocError>
        requires { length self.old.lists.items ≡ 16 }
        ensures sixteen { length self.new.lists.items ≡ 16 }
        ensures put { OnOk result (IsPut self.old pair self.new) }
    {
        if pair.0 == pair.1 {
            self.origins.numbers.push(REDUNDANT)?;
            self.origins.equal.push(pair.0)?;
            return Ok(());
        }
        let shard = shard_of(pair.0, pair.1);
        self.origins.numbers.push(shard)?;
        self.lists[shard as usize].push(pair)?;
        Ok(())
    }
}
