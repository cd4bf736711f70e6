//! The number of nodes of a diagram.
ghost use Rattle.std.specs.Prelude.{IfOk};
ghost use Rattle.dd_store.specs.Graph.{IsRef};
ghost use Rattle.dd_store.specs.Nodes.{node, den};
ghost use Rattle.dd_store.specs.Size.{HasSize};

use crate::reference::{NodeId, Ref, Reference};
use crate::store::Store;
use std::alloc::AllocError;
use std::collections::BTreeSet;

impl Store {
    /// Returns the number of nodes that are reached from a reference, its own included, terminals not. It depends only
    /// on the function and the order of the variables, not on the store (Bryant 1986). Fails if memory for the walk is
    /// refused.
    pub fn size(&self, reference: Ref) -> Result<u64, AllocError>
        requires in_store { IsRef (node self.now) reference }
        ensures { IfOk result (λ k. HasSize self.now.levels (den self.now reference) k) }
    {
        let _ = self.levels(); // For the proof.
        let mut seen: BTreeSet<NodeId> = BTreeSet::new(self.allocator());
        let mut waiting = Vec::new(self.allocator());
        waiting.push(reference)?;
        while let Some(next) = waiting.pop() {
            if let Reference::Node { id, .. } = next.view() {
                let _ = seen.len(); // For the proof.
                if seen.insert(id)? {
                    let pair = self.pair(id);
                    waiting.push(pair.0)?;
                    waiting.push(pair.1)?;
                }
            }
        }
        Ok(seen.len() as u64)
    }
}
