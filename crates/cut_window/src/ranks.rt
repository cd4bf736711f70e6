//! The ranks of a graph's nodes.
use pair_graph::{Graph, Node};
use std::alloc::{AllocError, Global};

/// Returns the nodes of the operands of a node, or none if the node is the constant or a variable, or is not in the
/// graph.
pub(crate) fn operands_of(graph: &Graph, node: u32) -> Option<(u32, u32)> {
    if node as usize >= graph.len() {
        return None;
    }
    match graph.node(node) {
        Node::And(first, second) | Node::Xor(first, second) => Some((first.node(), second.node())),
        _ => None,
    }
}

/// The rank of each node, by number: 0 for the constant and for variables, and for an operation 1 more than the
/// greatest of its operands'.
#[derive(Drop)]
pub struct NodeRanks {
    ranks: Vec<u32>,
}

impl NodeRanks {
    /// Returns the ranks of no nodes.
    pub fn new(alloc: Global) -> NodeRanks {
        NodeRanks {
            ranks: Vec::new(alloc),
        }
    }

    /// Adds the ranks of the nodes that the graph has got since the last call. Fails if memory is refused.
    pub fn extend(&mut self, graph: &Graph) -> Result<(), AllocError> {
        for node in self.ranks.len()..graph.len() {
            let rank = match operands_of(graph, node as u32) {
                Some((first, second)) => self.at(first).max(self.at(second)).saturating_add(1),
                None => 0,
            };
            self.ranks.push(rank)?;
        }
        Ok(())
    }

    /// Returns the rank of a node, or 0 if it has none yet.
    pub fn at(&self, node: u32) -> u32 {
        match self.ranks.get(node as usize) {
            Some(rank) => *rank,
            None => 0,
        }
    }
}
