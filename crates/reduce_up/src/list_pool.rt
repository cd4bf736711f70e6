//! The memory for levels that threads share. It lasts from level to level and from wave to wave.
use crate::division::PairsByShard;
use req_table::Refs;
use std::alloc::Global;
use std::marker::Model;

/// Lists to be filled again: those of the pairs of a part, and those of the diagrams of a part. Contracts see nothing
/// of them, because each is emptied before it is filled.
#[derive(Drop)]
pub(crate) struct ListPool {
    divided: Vec<PairsByShard>,
    picked: Vec<Refs>,
}

impl Model for ListPool {
    ghost Value = { Unit {0} };

    ghost view = { λ _. tt };
}

impl ListPool {
    /// Returns a pool without lists.
    pub(crate) fn new(alloc: Global) -> ListPool {
        ListPool {
            divided: Vec::new(alloc),
            picked: Vec::new(alloc),
        }
    }

    /// The allocator of the lists.
    pub(crate) fn allocator(&self) -> Global {
        *self.divided.allocator()
    }

    /// Takes lists for the pairs of a part out, or makes new ones.
    pub(crate) fn divided(&mut self) -> PairsByShard {
        let alloc = *self.divided.allocator();
        match self.divided.pop() {
            Some(used) => used,
            None => PairsByShard::none(alloc),
        }
    }

    /// Keeps the lists of a part's pairs, or gives their memory back if the pool cannot grow.
    pub(crate) fn keep_divided(&mut self, used: PairsByShard) {
        let _ = self.divided.push(used);
    }

    /// Takes a list for the diagrams of a part out, or makes a new one.
    pub(crate) fn picked(&mut self) -> Refs {
        let alloc = *self.picked.allocator();
        match self.picked.pop() {
            Some(used) => used,
            None => Refs::new(alloc),
        }
    }

    /// Keeps the list of a part's diagrams, or gives its memory back if the pool cannot grow.
    pub(crate) fn keep_picked(&mut self, used: Refs) {
        let _ = self.picked.push(used);
    }
}
