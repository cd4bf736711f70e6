//! Splitting requests, and counting how many were split.
ghost use Rattle.std.specs.Prelude.{◌≡◌, ◌+◌, ◌%◌, ◌^◌};
ghost use Rattle.req_table.specs.Keys.{IsKey, IsChildIn, record_of};

use dd_store::Store;
use req_table::requests::split;
use req_table::{Key, Record};
use std::marker::Model;

/// Splits requests and counts them, modulo 2^64. Each request of a wave is split by one of these, of a worker or of the
/// caller's thread.
#[derive(Drop)]
pub struct Splits {
    count: usize,
}

impl Model for Splits {
    ghost use Rattle.std.specs.Prelude.{ℕ};

    ghost Value = { ℕ };

    ghost view = { λ s. s.count };
}

impl Splits {
    /// Returns a count of 0.
    pub fn new() -> Splits
        ensures { result ≡ 0 }
    {
        Splits { count: 0 }
    }

    /// Sets the count to what it was before a wave that will be done again, so that no request is counted twice.
    pub fn reset_to(&mut self, count: usize)
        ensures { self.new ≡ count }
    {
        self.count = count;
    }

    /// Returns a request with its children, and counts it.
    #[inline(always)]
    pub fn split(&mut self, store: &Store, key: Key) -> Record
        requires key { IsKey store.now key }
        ensures record { result ≡ record_of store.now key }
        ensures in_store { IsChildIn store.now result.low × IsChildIn store.now result.high }
        ensures count { self.new ≡ (self.old + 1) % 2 ^ 64 }
    {
        self.count = self.count.wrapping_add(1);
        split(store, key)
    }

    /// Returns how many requests were split.
    pub fn count(&self) -> usize
        ensures { result ≡ self.now }
    {
        self.count
    }
}
