//! A number for each of some nodes, in a table that is emptied in constant time.
use std::alloc::{AllocError, Global};

/// A number for some nodes, by four bytes for each node of a graph and sixteen for each node that has one. To empty it takes no pass over
/// it: a place counts only if the entry there is the node's (Briggs and Torczon, "An efficient representation for sparse sets", 1993).
#[derive(Drop)]
pub struct NodeTable {
    /// By node, the place at which its entry may be.
    places: Vec<u32>,
    entries: Vec<(u32, u64)>,
}

impl NodeTable {
    /// Returns a table without entries.
    pub fn new(alloc: Global) -> NodeTable {
        NodeTable {
            places: Vec::new(alloc),
            entries: Vec::new(alloc),
        }
    }

    /// Removes all entries, and makes room for `nodes` nodes. Fails if memory is refused.
    pub fn clear(&mut self, nodes: usize) -> Result<(), AllocError> {
        self.entries.clear();
        if self.places.len() < nodes {
            self.places.resize(nodes.saturating_add(nodes / 4), 0)?;
        }
        Ok(())
    }

    /// Where the entry of a node is, if it has one.
    fn place(&self, node: u32) -> Option<usize> {
        let place = match self.places.get(node as usize) {
            Some(place) => *place as usize,
            None => return None,
        };
        match self.entries.get(place) {
            Some(&(owner, _)) if owner == node => Some(place),
            _ => None,
        }
    }

    /// Returns the number of a node, if it has one.
    pub fn get(&self, node: u32) -> Option<u64> {
        let place = self.place(node)?;
        match self.entries.get(place) {
            Some(&(_, number)) => Some(number),
            None => None,
        }
    }

    /// Whether a node has a number.
    pub fn has(&self, node: u32) -> bool {
        self.place(node).is_some()
    }

    /// Gives a node that has a number another one.
    pub fn replace(&mut self, node: u32, number: u64) {
        if let Some(place) = self.place(node)
            && place < self.entries.len()
        {
            self.entries[place] = (node, number);
        }
    }

    /// Gives a node a number, if the table has room for the node; otherwise nothing changes.
    pub fn set(&mut self, node: u32, number: u64) -> Result<(), AllocError> {
        if self.has(node) {
            self.replace(node, number);
            return Ok(());
        }
        let owner = node as usize;
        if let Ok(place) = u32::try_from(self.entries.len())
            && owner < self.places.len()
        {
            self.places[owner] = place;
            self.entries.push((node, number))?;
        }
        Ok(())
    }
}
