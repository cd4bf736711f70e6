//! Orders of a window's leaves, which are the order of the variables of its diagrams.
use crate::cut::ABOVE;
use crate::node_table::NodeTable;
use crate::ranks::{NodeRanks, operands_of};
use pair_graph::Graph;
use std::alloc::{AllocError, Global};

/// An order of a window's leaves.
#[derive(Clone, Copy, Debug, PartialEq, Eq)]
pub enum LeafOrder {
    /// As a depth-first walk down from the two nodes reaches them, at each node first through the operand of higher
    /// rank.
    Walk,
    /// What FORCE makes of this order (Aloul, Markov and Sakallah 2003).
    Force,
}

/// What is below two roots: the graph, the ranks of its nodes, and what is known of the nodes of the window.
#[derive(Drop)]
pub(crate) struct Below<'a> {
    pub(crate) graph: &'a Graph,
    pub(crate) ranks: &'a NodeRanks,
    pub(crate) known: &'a NodeTable,
    pub(crate) roots: (u32, u32),
}

/// Returns the leaves in the order in which a depth-first walk down from the two roots reaches them. `seen` is
/// overwritten.
pub(crate) fn walk(
    alloc: Global,
    below: &Below<'_>,
    seen: &mut NodeTable,
) -> Result<Vec<u32>, AllocError> {
    let mut leaves = Vec::new(alloc);
    let mut waiting = Vec::new(alloc);
    seen.clear(below.graph.len())?;
    waiting.push(below.roots.1)?;
    waiting.push(below.roots.0)?;
    for _ in 0..u64::MAX {
        let Some(node) = waiting.pop() else {
            break;
        };
        let known = below.known.get(node).unwrap_or(0);
        if known == 0 || seen.has(node) {
            continue;
        }
        seen.set(node, 1)?;
        if known < ABOVE {
            leaves.push(node)?;
        } else {
            push_operands(below, node, &mut waiting)?;
        }
    }
    Ok(leaves)
}

/// Puts the operands of a node on a stack, the one of higher rank on top.
fn push_operands(below: &Below<'_>, node: u32, waiting: &mut Vec<u32>) -> Result<(), AllocError> {
    if let Some((first, second)) = operands_of(below.graph, node) {
        let falls = below.ranks.at(first) >= below.ranks.at(second);
        waiting.push(if falls { second } else { first })?;
        waiting.push(if falls { first } else { second })?;
    }
    Ok(())
}
