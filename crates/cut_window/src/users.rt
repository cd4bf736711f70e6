//! Which leaves have a node as an operand.
use crate::node_table::NodeTable;
use std::alloc::{AllocError, Global};

/// For each node the leaves that have had it as an operand since the table was emptied, and how many of them still have
/// it.
#[derive(Drop)]
pub(crate) struct Users {
    /// For each node the place of its last user in `users`, plus 1.
    heads: NodeTable,
    counts: NodeTable,
    /// Each user, with the place of the same node's user before it, plus 1, or 0 if there is none.
    users: Vec<(u32, usize)>,
}

impl Users {
    /// Returns a table without users.
    pub(crate) fn new(alloc: Global) -> Users {
        Users {
            heads: NodeTable::new(alloc),
            counts: NodeTable::new(alloc),
            users: Vec::new(alloc),
        }
    }

    /// Removes all users, and makes room for `nodes` nodes.
    pub(crate) fn clear(&mut self, nodes: usize) -> Result<(), AllocError> {
        self.users.clear();
        self.heads.clear(nodes)?;
        self.counts.clear(nodes)
    }

    /// Returns how many users there have been.
    pub(crate) fn len(&self) -> usize {
        self.users.len()
    }

    /// Returns how many users a node has.
    pub(crate) fn count(&self, node: u32) -> u64 {
        self.counts.get(node).unwrap_or(0)
    }

    /// Adds a user of a node.
    pub(crate) fn add(&mut self, node: u32, user: u32) -> Result<(), AllocError> {
        let before = self.heads.get(node).unwrap_or(0) as usize;
        self.users.push((user, before))?;
        let last = self.users.len() as u64;
        self.heads.set(node, last)?;
        let count = self.count(node).saturating_add(1);
        self.counts.set(node, count)
    }

    /// Counts one user of a node less.
    pub(crate) fn remove(&mut self, node: u32) {
        let count = self.count(node).saturating_sub(1);
        self.counts.replace(node, count);
    }

    /// Returns the place of the last user of a node, plus 1, or 0 if it has none.
    pub(crate) fn first(&self, node: u32) -> usize {
        self.heads.get(node).unwrap_or(0) as usize
    }

    /// Returns the user before a place, and the next place to ask for; or none at place 0.
    pub(crate) fn at(&self, place: usize) -> Option<(u32, usize)> {
        match self.users.get(place.saturating_sub(1)) {
            Some(found) if place > 0 => Some(*found),
            _ => None,
        }
    }
}
