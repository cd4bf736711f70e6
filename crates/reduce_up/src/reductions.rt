//! Reducing requests, and counting how many were reduced.
ghost use Rattle.std.specs.Prelude.{◌≡◌, ◌<◌, ◌+◌, ◌%◌, ◌^◌, IfOk, IfErr, OnErr};
ghost use Rattle.dd_store.specs.Graph.{top, IsRef};
ghost use Rattle.dd_store.specs.Nodes.{node, IsSound};
ghost use Rattle.dd_store.specs.View.{IsMade, IsFull};

use dd_store::{Ref, Store, StoreFault};
use std::marker::Model;

/// Makes the diagrams of requests and counts them, modulo 2^64.
#[derive(Drop)]
pub struct Reductions {
    count: u64,
}

impl Model for Reductions {
    ghost use Rattle.std.specs.Prelude.{ℕ};

    ghost Value = { ℕ };

    ghost view = { λ r. r.count };
}

impl Reductions {
    /// Returns a count of 0.
    pub fn new() -> Reductions
        ensures { result ≡ 0 }
    {
        Reductions { count: 0 }
    }

    /// Returns the diagram of a request from those of its children, and counts it. Fails as `Store::make` does.
    pub fn make(
        &mut self,
        store: &mut Store,
        level: u16,
        lo: Ref,
        hi: Ref,
    ) -> Result<Ref, StoreFault>
        requires level { level < store.old.levels }
        requires lo_in_store { IsRef (node store.old) lo }
        requires hi_in_store { IsRef (node store.old) hi }
        requires above_lo { level < top store.old.levels lo }
        requires above_hi { level < top store.old.levels hi }
        ensures sound { IsSound store.new }
        ensures made { IfOk result (λ r. IsMade store.old store.new level lo hi r) }
        ensures refused { OnErr result (store.new ≡ store.old) }
        ensures full { IfErr result (λ e. IsFull store.old level lo hi e) }
        ensures count { self.new ≡ (self.old + 1) % 2 ^ 64 }
    {
        self.count = self.count.wrapping_add(1);
        store.make(level, lo, hi)
    }

    /// Counts requests that threads have reduced.
    pub fn add(&mut self, requests: u64)
        ensures { self.new ≡ (self.old + requests) % 2 ^ 64 }
    {
        self.count = self.count.wrapping_add(requests);
    }

    /// Returns how many requests were reduced.
    pub fn count(&self) -> u64
        ensures { result ≡ self.now }
    {
        self.count
    }
}
