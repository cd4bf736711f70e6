//! Windows.
ghost use Rattle.std.specs.Prelude.{◌≡◌, ◌≤◌, MatchOption, Some, length, slice_get};
ghost use Rattle.slot_table.specs.Lists.{IsIn, IsOnce};

use slot_table::{Refusal, SlotTable};
use std::alloc::{AllocError, Global};
use std::marker::Model;

/// Some nodes of a graph, by number: the leaves of a cut, and then nodes above it, each after its operands. Leaf i is
/// at level i of the diagrams over the window.
#[derive(Drop)]
pub struct Window {
    nodes: SlotTable<u32>,
    cut: usize,
}

impl Model for Window {
    ghost use Rattle.std.specs.Prelude.{◌≤◌, length};
    ghost use Rattle.cut_window.specs.WindowParts.{WindowParts};

    ghost Value = { WindowParts };

    ghost view = { λ w. record { nodes = w.nodes; cut = w.cut } };

    ghost invariant = { λ w. w.cut ≤ length w.nodes };
}

/// The most nodes of a window.
const MAX_NODES: usize = 1 << 20;

/// Adds those nodes that are not there yet, as long as there is room. Fails if memory is refused.
fn add_all(nodes: &mut SlotTable<u32>, more: &[u32]) -> Result<(), AllocError>
    ensures { length nodes.old ≤ length nodes.new }
{
    for node in more {
        let room = MAX_NODES.saturating_sub(nodes.len()) as u64;
        if let Err(Refusal::OutOfMemory) = nodes.find_or_add(*node, room) {
            return Err(AllocError);
        }
    }
    Ok(())
}

impl Window {
    /// Returns a window of these leaves and these nodes above them. Any nodes are allowed: if the window lacks a node
    /// that is needed, it shows nothing. Fails if memory is refused.
    pub fn new(alloc: Global, leaves: &[u32], above: &[u32]) -> Result<Window, AllocError> {
        let mut nodes = SlotTable::new(alloc);
        add_all(&mut nodes, leaves)?;
        let cut = nodes.len();
        add_all(&mut nodes, above)?;
        Ok(Window { nodes, cut })
    }

    /// Returns the number of leaves.
    pub fn leaves(&self) -> usize
        ensures value { result ≡ self.now.cut }
        ensures among { self.now.cut ≤ length self.now.nodes }
        ensures once { IsOnce self.now.nodes }
    {
        let _ = self.nodes.as_slice(); // For the proof.
        self.cut
    }

    /// Returns the nodes, the leaves first.
    pub fn nodes(&self) -> &[u32]
        ensures { result.now ≡ self.now.nodes }
    {
        self.nodes.as_slice()
    }

    /// Returns the place of a node among the window's nodes, or none.
    pub fn place(&self, node: u32) -> Option<u32>
        ensures { MatchOption result (IsIn self.now.nodes node → ⊥) (λ i. slice_get self.now.nodes i ≡ Some node) }
    {
        self.nodes.find(node)
    }
}
