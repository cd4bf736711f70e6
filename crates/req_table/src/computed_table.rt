//! The computed table: the answers of earlier requests.
ghost use Rattle.std.specs.Prelude.{◌≡◌, ◌≤◌, [], length, AllPairs, Contains, IfOk, IfSome};
ghost use Rattle.dd_store.specs.Nodes.{Nodes};
ghost use Rattle.std.specs.Map.{keys_of};
ghost use Rattle.req_table.specs.declared.Key.{Key as KeyValue};
ghost use Rattle.req_table.specs.ComputedTables.{computed_answer, KeepsAnswer, IsRight};

use crate::Key;
use dd_store::Ref;
use lru::LruCache;
use std::alloc::{AllocError, Global};
use std::marker::Model;
use std::num::NonZeroUsize;

/// The answers of earlier requests, as many as its capacity at most. A full table forgets first the answer that was
/// kept longest ago.
#[derive(Drop)]
pub struct ComputedTable {
    cache: LruCache<Key, Ref>,
}

impl Model for ComputedTable {
    ghost use Rattle.req_table.specs.ComputedTables.{ComputedView};

    ghost Value = { ComputedView };

    ghost view = { λ m. record { pairs = m.cache.entries; capacity = m.cache.cap } };
}

impl ComputedTable {
    /// Returns an empty computed table of at most `capacity` answers. Its memory grows as it fills.
    pub fn new(alloc: Global, capacity: usize) -> Result<ComputedTable, AllocError>
        requires some { 1 ≤ capacity }
        ensures empty { IfOk result (λ m. m ≡ record { pairs = []; capacity = capacity }) }
        ensures right { IfOk result (λ m. (S : Nodes) → IsRight S m) }
    {
        let capacity = NonZeroUsize::new(capacity).unwrap();
        Ok(ComputedTable {
            cache: LruCache::sparse(alloc, capacity)?,
        })
    }

    /// Returns the answer of a request, or none if it is not held. It does not change which answer is forgotten next.
    pub fn peek(&self, key: &Key) -> Option<Ref>
        ensures value { result ≡ computed_answer self.now key.now }
        ensures pair { IfSome result (λ r. Contains self.now.pairs (key.now, r)) }
        ensures once { AllPairs (λ (a b : KeyValue). ¬ (a ≡ b)) (keys_of self.now.pairs) }
        ensures few { length self.now.pairs ≤ self.now.capacity }
    {
        let _ = self.cache.len(); // For the proof.
        self.cache.peek(key).copied()
    }

    /// Holds the answer of a request. If memory is refused, nothing changes: an answer that is lost costs only time.
    pub fn keep(&mut self, key: Key, answer: Ref)
        ensures { KeepsAnswer self.old key answer self.new }
    {
        let _ = self.cache.put(key, answer);
    }
}
