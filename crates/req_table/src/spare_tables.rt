//! Tables that their levels no longer need, to be used by other levels.
ghost use Rattle.std.specs.Prelude.{◌≡◌, []};

use crate::table::Table;
use std::alloc::{AllocError, Global};
use std::marker::Model;

/// Empty tables with the memory of levels that were expanded. The last one that was put is taken first, because it is
/// most likely still in the processor's caches. Contracts see nothing of them but that a table is empty when it is
/// taken.
#[derive(Drop)]
pub struct SpareTables {
    tables: Vec<Table>,
}

impl Model for SpareTables {
    ghost Value = { Unit {0} };

    ghost view = { λ _. tt };
}

impl SpareTables {
    /// Returns no tables.
    pub fn new(alloc: Global) -> SpareTables {
        SpareTables {
            tables: Vec::new(alloc),
        }
    }

    /// Whether there is no table.
    pub fn is_empty(&self) -> bool {
        self.tables.is_empty()
    }

    /// Returns an empty table: the last that was put, or if there is none, a new one without memory.
    pub fn take(&mut self) -> Table
        ensures { result ≡ [] }
    {
        match self.tables.pop() {
            Some(mut table) => {
                // This changes nothing, since `put` has emptied it; the contract rests on it.
                table.empty();
                table
            }
            None => Table::new(*self.tables.allocator()),
        }
    }

    /// Keeps a table with all its memory, but without its requests. A large one is kept too, because it is soon needed
    /// again: to grow a table takes about a hundred times as long as to empty it.
    pub fn put(&mut self, table: Table) -> Result<(), AllocError> {
        let mut table = table;
        table.empty();
        if table.capacity() > 0 {
            self.tables.push(table)?;
        }
        Ok(())
    }

    /// Gives back the memory of each table that has room for more than eight times `most` requests.
    pub fn trim(&mut self, most: usize) {
        self.tables.retain(|table| !table.has_excess_capacity(most));
    }
}
