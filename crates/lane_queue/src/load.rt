//! Loads: what a lane carries, requests in bundles and the Ends of levels.
ghost use Rattle.std.specs.Prelude.{◌≡◌, ◌<◌, ◌≤◌, [], ◌∷◌, ◌++◌, length, IfOk};

use req_table::Key;
use std::alloc::{AllocError, Global};
use std::marker::Model;

/// At most `CAPACITY` requests, each with its level, in the order in which they were added. They are sent and taken at
/// once.
#[derive(Drop)]
pub struct Bundle {
    asks: Vec<(u16, Key)>,
}

const _: () = prove!(Bundle::CAPACITY == 64);

impl Model for Bundle {
    ghost use Rattle.std.specs.Prelude.{ℕ, List, length, ◌≤◌};
    ghost use Rattle.std.specs.Vec.{vec_capacity};
    ghost use Rattle.req_table.specs.declared.Key.{Key};
    ghost use Rattle.lane_queue.specs.declared.load.TheConstants.Bundle.{CAPACITY};

    ghost Value = { List (ℕ × Key) };

    ghost view = { λ b. b.asks.items };

    ghost invariant = { λ b. (length b.asks.items ≤ CAPACITY) × (CAPACITY ≤ vec_capacity b.asks) };
}

impl Bundle {
    /// The number of requests that a bundle has room for.
    pub const CAPACITY: usize = 64;

    /// Returns a bundle without requests, with room for `CAPACITY`. Fails if memory is refused.
    pub fn new(alloc: Global) -> Result<Bundle, AllocError>
        ensures { IfOk result (λ b. b ≡ []) }
    {
        let asks = Vec::with_capacity(alloc, Bundle::CAPACITY)?;
        Ok(Bundle { asks })
    }

    /// Adds a request at the end. `level` has to be the request's own, which is checked when the bundle is sent.
    pub fn add(&mut self, level: u16, key: Key)
        requires { length self.old < Self.CAPACITY }
        ensures { self.new ≡ self.old ++ (level, key) ∷ [] }
    {
        self.asks.push_reserved((level, key));
    }

    /// Removes all requests, and keeps the memory.
    pub fn clear(&mut self)
        ensures { self.new ≡ [] }
    {
        self.asks.clear();
    }

    /// Returns the number of requests.
    pub fn len(&self) -> usize
        ensures count { result ≡ length self.now }
        ensures few { length self.now ≤ Self.CAPACITY }
    {
        self.asks.len()
    }

    /// Returns the requests, each with its level.
    pub fn asks(&self) -> &[(u16, Key)]
        ensures value { result.now ≡ self.now }
        ensures few { length self.now ≤ Self.CAPACITY }
    {
        self.asks.as_slice()
    }
}

/// What is put on a lane, and taken from it, in one step.
#[derive(Drop)]
pub enum Load {
    /// Requests of one sender, at least one.
    Bundle { from: u32, asks: Bundle },
    /// The sender asks for nothing more at this level.
    End { from: u32, level: u16 },
}
