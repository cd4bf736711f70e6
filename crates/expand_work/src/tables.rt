//! The requests that a worker was asked for, by level.
ghost use Rattle.std.specs.Prelude.{◌≡◌, ◌<◌, [], length, replicate, IfOk, IfSome};
ghost use Rattle.expand_work.specs.PlacesBySender.{Enters, EntersAt};
ghost use Rattle.req_table.specs.Places.{row as at};

use req_table::{Key, SpareTables, Table};
use std::alloc::{AllocError, Global};
use std::marker::Model;
use std::mem;
use std::snapshot::Snapshot;

// Where the requests of a level are.
#[derive(Drop)]
enum TableState {
    // There are none yet, and no memory for them.
    Empty,
    // They are in the level's own table.
    InUse(Table),
    // The level was expanded, and its table is another level's or spare. Its requests exist in contracts only.
    Recycled(Snapshot<Table>),
}

// The requests of one level, each once.
#[derive(Drop)]
struct LevelTable {
    state: TableState,
}

impl Model for LevelTable {
    ghost use Rattle.std.specs.Prelude.{List};
    ghost use Rattle.req_table.specs.declared.Key.{Key};

    ghost Value = { List Key };

    ghost use Rattle.expand_work.specs.TableState.{keys_of_state};

    ghost view = { λ l. keys_of_state l.state };
}

impl LevelTable {
    // Returns a level without requests.
    fn new() -> LevelTable
        ensures { result ≡ [] }
    {
        LevelTable {
            state: TableState::Empty,
        }
    }

    // Admits the first request, to a spare table.
    #[inline(never)]
    fn admit_first(&mut self, spare: &mut SpareTables, key: Key) -> Result<u32, AllocError>
        requires { self.old ≡ [] }
        ensures { IfOk result (λ p. Enters self.old key p self.new) }
    {
        let mut table = spare.take();
        let (place, _) = table.admit(key)?;
        self.state = TableState::InUse(table);
        Ok(place)
    }

    // Returns the place of a request, and admits it if it is new. Fails if memory is refused, or if the level was
    // expanded.
    #[inline(always)]
    fn admit(&mut self, spare: &mut SpareTables, key: Key) -> Result<u32, AllocError>
        ensures { IfOk result (λ p. Enters self.old key p self.new) }
    {
        match &mut self.state {
            TableState::InUse(table) => {
                let (place, _) = table.admit(key)?;
                Ok(place)
            }
            TableState::Empty => self.admit_first(spare, key),
            TableState::Recycled(_) => Err(AllocError),
        }
    }

    // Takes the table out, or returns none if that was done before. After that the level's requests exist in contracts
    // only.
    fn take(&mut self, alloc: Global) -> Option<Table>
        ensures keys { IfSome result (λ t. t ≡ self.old) }
        ensures same { self.new ≡ self.old }
    {
        let table = match mem::replace(&mut self.state, TableState::Empty) {
            TableState::Empty => Table::new(alloc),
            TableState::InUse(table) => table,
            TableState::Recycled(snapshot) => {
                self.state = TableState::Recycled(snapshot);
                return None;
            }
        };
        self.state = TableState::Recycled(Snapshot::of(&table));
        Some(table)
    }
}

// Returns `count` levels without requests.
fn empty_levels(alloc: Global, count: u16) -> Result<Vec<LevelTable>, AllocError>
    ensures { IfOk result (λ levels. levels.items ≡ replicate count []) }
{
    let mut levels = Vec::new(alloc);
    for made in 0..count {
        levels.push(LevelTable::new())?;
    }
    Ok(levels)
}

/// The requests of each level, each once. The table of a level that was expanded goes on to the next level that gets a
/// request, so there are about as many tables as levels that wait at the same time, and their memory is likely to be in
/// caches. Contracts see the requests of all levels, expanded ones too.
#[derive(Drop)]
pub struct Tables {
    levels: Vec<LevelTable>,
    spare: SpareTables,
    /// The most requests that an expanded level has had.
    most: usize,
}

impl Model for Tables {
    ghost use Rattle.std.specs.Prelude.{List};
    ghost use Rattle.req_table.specs.declared.Key.{Key};

    ghost Value = { List (List Key) };

    ghost view = { λ t. t.levels.items };
}

impl Tables {
    /// Returns `count` levels without requests, which take no memory yet for them.
    pub fn new(alloc: Global, count: u16) -> Result<Tables, AllocError>
        ensures { IfOk result (λ t. t ≡ replicate count []) }
    {
        Ok(Tables {
            levels: empty_levels(alloc, count)?,
            spare: SpareTables::new(alloc),
            most: 0,
        })
    }

    /// Returns `count` levels without requests, with the spare tables of this value, except those with more than eight
    /// times the room that any level needed.
    pub fn emptied(self, alloc: Global, count: u16) -> Result<Tables, AllocError>
        ensures { IfOk result (λ l. l ≡ replicate count []) }
    {
        let mut spare = self.spare;
        spare.trim(self.most);
        Ok(Tables {
            levels: empty_levels(alloc, count)?,
            spare,
            most: 0,
        })
    }

    /// Returns the place of a request among those of its level, and admits it if it is new. Fails if memory is refused,
    /// or if the level was expanded.
    #[inline(always)]
    pub fn admit(&mut self, level: u16, key: Key) -> Result<u32, AllocError>
        requires { level < length self.old }
        ensures { IfOk result (λ p. EntersAt self.old level key p self.new) }
    {
        self.levels[level as usize].admit(&mut self.spare, key)
    }

    /// Returns the requests of a level by place, or none if the level has no table of its own.
    pub fn keys(&self, level: u16) -> Option<&Table>
        requires { level < length self.now }
        ensures { IfSome result (λ t. t.now ≡ at self.now level) }
    {
        match &self.levels[level as usize].state {
            TableState::InUse(table) => Some(table),
            _ => None,
        }
    }

    /// Returns the number of requests of a level, or 0 if the level has no table of its own.
    pub fn count(&self, level: u16) -> usize
        requires { level < length self.now }
    {
        match self.keys(level) {
            Some(keys) => keys.len(),
            None => 0,
        }
    }

    /// Takes the table of a level out, with its requests by place, so that the level can be expanded; or returns none
    /// if that was done before.
    pub fn take(&mut self, level: u16) -> Option<Table>
        requires { level < length self.old }
        ensures keys { IfSome result (λ t. t ≡ at self.old level) }
        ensures same { self.new ≡ self.old }
    {
        let alloc = *self.levels.allocator();
        self.levels[level as usize].take(alloc)
    }

    /// Takes back the table of a level that was expanded. It stays with its level if `stays` is set, and is a spare
    /// table otherwise.
    pub fn leave(&mut self, level: u16, keys: Table, stays: bool) -> Result<(), AllocError>
        requires level { level < length self.old }
        requires keys { keys ≡ at self.old level }
        ensures { self.new ≡ self.old }
    {
        self.most = self.most.max(keys.len());
        if !stays {
            return self.spare.put(keys);
        }
        self.levels[level as usize] = LevelTable {
            state: TableState::InUse(keys),
        };
        Ok(())
    }
}
