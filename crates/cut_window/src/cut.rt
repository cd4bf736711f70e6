//! Cuts below two nodes, which grow from the nodes downwards. All of it is heuristic: no proof
//! knows anything of it.
use crate::force::force;
use crate::leaf_order::{Below, LeafOrder, walk};
use crate::node_table::NodeTable;
use crate::ranks::{NodeRanks, operands_of};
use crate::users::Users;
use crate::window::Window;
use pair_graph::Graph;
use std::alloc::{AllocError, Global};
use std::collections::BinaryHeap;

/// The most nodes of a window above its leaves.
const MAX_ABOVE: usize = 8192;

/// A leaf that only one of the two nodes reaches is expanded as long as fewer nodes than this are above the leaves, or
/// fewer than eight times the wanted size if that is more.
const UNSHARED: usize = 256;

/// More entries than the queue can get while one window grows. It only bounds the loop.
const MAX_TURNS: usize = 1 << 24;

/// The bits of what is known of a node: the first of the two nodes reaches it, the second does, both do, and it is
/// above the leaves.
const FIRST: u64 = 1;

const SECOND: u64 = 2;

const BOTH: u64 = 3;

pub(crate) const ABOVE: u64 = 4;

/// Which leaf is expanded next. A leaf whose operands are both in the window already is always the first, since
/// expanding it makes the cut smaller.
#[derive(Clone, Copy, Debug, PartialEq, Eq)]
pub enum CutKind {
    /// First a leaf that only one of the two nodes reaches; then the leaf with the most operands that are in the window
    /// or are operands of another leaf too.
    Shared,
    /// The leaf of the highest rank.
    Rank,
}

/// The priority of a leaf in the queue, the greatest first: its class, its rank and its number.
type Turn = (u32, u32, u32);

/// The window below two nodes, as far as it has grown. Nothing is promised of it, because a window may have any nodes.
#[derive(Drop)]
pub struct Cut {
    kind: CutKind,
    leaves: Vec<u32>,
    /// For each leaf its place among the leaves.
    places: NodeTable,
    above: Vec<u32>,
    known: NodeTable,
    users: Users,
    /// The leaves that may be expanded, by priority. Entries that are out of date are skipped or replaced when they are
    /// taken.
    queue: BinaryHeap<Turn>,
    scratch: NodeTable,
}

impl Cut {
    /// Returns a cut without nodes.
    pub fn new(alloc: Global) -> Cut {
        Cut {
            kind: CutKind::Shared,
            leaves: Vec::new(alloc),
            places: NodeTable::new(alloc),
            above: Vec::new(alloc),
            known: NodeTable::new(alloc),
            users: Users::new(alloc),
            queue: BinaryHeap::new(alloc),
            scratch: NodeTable::new(alloc),
        }
    }

    /// Begins again with a window that has only the two nodes, as leaves.
    pub fn start(
        &mut self,
        graph: &Graph,
        first: u32,
        second: u32,
        kind: CutKind,
    ) -> Result<(), AllocError> {
        self.kind = kind;
        self.leaves.clear();
        self.above.clear();
        self.queue.clear();
        self.places.clear(graph.len())?;
        self.known.clear(graph.len())?;
        self.users.clear(graph.len())?;
        self.reach(graph, first, FIRST)?;
        self.reach(graph, second, SECOND)?;
        Ok(())
    }

    /// Returns how many nodes are above the leaves.
    pub fn above(&self) -> usize {
        self.above.len()
    }

    /// Puts the nodes above the leaves into the order of their numbers, each after its operands.
    pub fn sort(&mut self) {
        self.above.sort_unstable();
    }

    /// The nodes above the leaves: by number, if the cut has not grown since they were sorted.
    pub fn nodes_above(&self) -> &[u32] {
        self.above.as_slice()
    }

    /// Returns the leaves, in no particular order.
    pub fn leaves(&self) -> &[u32] {
        self.leaves.as_slice()
    }

    /// Whether all leaves are variables.
    pub fn is_at_variables(&self, graph: &Graph) -> bool {
        self.leaves
            .iter()
            .all(|leaf| operands_of(graph, *leaf).is_none())
    }

    /// Expands leaves until about `size` nodes are above the cut. Returns whether there is at least one more than
    /// before.
    pub fn grow(
        &mut self,
        graph: &Graph,
        ranks: &NodeRanks,
        size: usize,
    ) -> Result<bool, AllocError> {
        let before = self.above.len();
        self.queue_leaves(graph, ranks, size)?;
        for _ in 0..MAX_ABOVE {
            if self.above.len() >= MAX_ABOVE {
                break;
            }
            let Some(node) = self.next(graph, ranks, size)? else {
                break;
            };
            self.expand(graph, ranks, node, size)?;
        }
        Ok(self.above.len() > before)
    }

    /// Returns the window. Its leaves are in the order of a walk down from the two nodes, or in the one that FORCE
    /// makes of it.
    pub fn window(
        &mut self,
        alloc: Global,
        graph: &Graph,
        ranks: &NodeRanks,
        roots: (u32, u32),
        order: LeafOrder,
    ) -> Result<Window, AllocError> {
        self.sort();
        let below = Below {
            graph,
            ranks,
            known: &self.known,
            roots,
        };
        let walked = walk(alloc, &below, &mut self.scratch)?;
        if order == LeafOrder::Walk {
            return Window::new(alloc, walked.as_slice(), self.above.as_slice());
        }
        let (leaves, nodes) = (walked.as_slice(), self.above.as_slice());
        let forced = force(alloc, graph, leaves, nodes, &mut self.scratch)?;
        Window::new(alloc, forced.as_slice(), nodes)
    }

    /// Notes that a node is reached from one of the two nodes, or from both. Returns whether it is a new leaf.
    fn reach(&mut self, graph: &Graph, node: u32, side: u64) -> Result<bool, AllocError> {
        if node == 0 {
            return Ok(false);
        }
        if let Some(known) = self.known.get(node) {
            self.known.replace(node, known | side);
            return Ok(false);
        }
        self.known.set(node, side)?;
        self.places.set(node, self.leaves.len() as u64)?;
        self.leaves.push(node)?;
        if let Some((first, second)) = operands_of(graph, node) {
            self.users.add(first, node)?;
            self.users.add(second, node)?;
        }
        Ok(true)
    }

    /// Whether a node is a leaf now.
    fn is_leaf(&self, node: u32) -> bool {
        match self.known.get(node) {
            Some(known) => known & ABOVE == 0,
            None => false,
        }
    }

    /// Removes a leaf from the list of leaves.
    fn remove_leaf(&mut self, node: u32) {
        let Some(place) = self.places.get(node) else {
            return;
        };
        let place = place as usize;
        if place >= self.leaves.len() {
            return;
        }
        self.leaves.swap_remove(place);
        if let Some(moved) = self.leaves.get(place) {
            self.places.replace(*moved, place as u64);
        }
    }

    /// Moves a leaf above the cut; its operands become leaves if they are not in the window yet.
    fn expand(
        &mut self,
        graph: &Graph,
        ranks: &NodeRanks,
        node: u32,
        size: usize,
    ) -> Result<(), AllocError> {
        self.remove_leaf(node);
        let side = self.known.get(node).unwrap_or(0) & BOTH;
        self.known.replace(node, side | ABOVE);
        self.above.push(node)?;
        let Some((first, second)) = operands_of(graph, node) else {
            return Ok(());
        };
        self.users.remove(first);
        self.users.remove(second);
        for operand in [first, second] {
            if self.reach(graph, operand, side)? {
                self.queue_near(graph, ranks, operand, size)?;
            } else if self.is_leaf(operand) {
                self.queue_leaf(graph, ranks, operand, size)?;
            }
        }
        Ok(())
    }

    /// Puts all leaves that may be expanded into the queue.
    fn queue_leaves(
        &mut self,
        graph: &Graph,
        ranks: &NodeRanks,
        size: usize,
    ) -> Result<(), AllocError> {
        self.queue.clear();
        for place in 0..self.leaves.len() {
            if let Some(leaf) = self.leaves.get(place) {
                let leaf = *leaf;
                self.queue_leaf(graph, ranks, leaf, size)?;
            }
        }
        Ok(())
    }

    /// Puts a leaf into the queue, if it may be expanded.
    fn queue_leaf(
        &mut self,
        graph: &Graph,
        ranks: &NodeRanks,
        node: u32,
        size: usize,
    ) -> Result<(), AllocError> {
        if let Some(class) = self.class_of(graph, node, size) {
            self.queue.push((class, ranks.at(node), node))?;
        }
        Ok(())
    }

    /// Puts into the queue a new leaf, and those leaves whose priority may be higher because of it: those that share an
    /// operand with it, and those that have it as an operand.
    fn queue_near(
        &mut self,
        graph: &Graph,
        ranks: &NodeRanks,
        node: u32,
        size: usize,
    ) -> Result<(), AllocError> {
        self.queue_leaf(graph, ranks, node, size)?;
        self.queue_users(graph, ranks, node, size)?;
        if let Some((first, second)) = operands_of(graph, node) {
            for operand in [first, second] {
                if self.users.count(operand) == 2 {
                    self.queue_users(graph, ranks, operand, size)?;
                }
            }
        }
        Ok(())
    }

    /// Puts into the queue each leaf that has this node as an operand.
    fn queue_users(
        &mut self,
        graph: &Graph,
        ranks: &NodeRanks,
        node: u32,
        size: usize,
    ) -> Result<(), AllocError> {
        let mut at = self.users.first(node);
        for _ in 0..self.users.len() {
            let Some((user, next)) = self.users.at(at) else {
                break;
            };
            if self.is_leaf(user) {
                self.queue_leaf(graph, ranks, user, size)?;
            }
            at = next;
        }
        Ok(())
    }

    /// Returns the leaf to be expanded next, or none if the window is large enough or has only variables as leaves. A
    /// leaf whose priority has become lower is put into the queue again.
    fn next(
        &mut self,
        graph: &Graph,
        ranks: &NodeRanks,
        size: usize,
    ) -> Result<Option<u32>, AllocError> {
        for _ in 0..MAX_TURNS {
            let Some((class, _, node)) = self.queue.pop() else {
                break;
            };
            if !self.is_leaf(node) {
                continue;
            }
            if self.class_of(graph, node, size) == Some(class) {
                return Ok(Some(node));
            }
            self.queue_leaf(graph, ranks, node, size)?;
        }
        Ok(None)
    }

    /// Returns the class of a leaf, the greatest first, or none if the leaf is not to be expanded.
    fn class_of(&self, graph: &Graph, node: u32, size: usize) -> Option<u32> {
        let (first, second) = operands_of(graph, node)?;
        if self.known.has(first) && self.known.has(second) {
            return Some(9);
        }
        let above = self.above.len();
        if self.kind == CutKind::Rank {
            return (above < size).then_some(5);
        }
        let shared = self.known.get(node) == Some(BOTH);
        if above < 2 || !shared {
            return (above < size.saturating_mul(8).max(UNSHARED)).then_some(8);
        }
        let near = 3 + self.is_near(first) as u32 + self.is_near(second) as u32;
        (above < size).then_some(near)
    }

    /// Whether an operand of a leaf is in the window, or an operand of another leaf.
    fn is_near(&self, node: u32) -> bool {
        self.known.has(node) || self.users.count(node) > 1
    }
}
