//! The requests of a wave that wait to be expanded, by level.
ghost use Rattle.std.specs.Prelude.{◌≡◌, ◌<◌, [], Bool, length, set, IfOk, OnOk};
ghost use Rattle.slot_table.specs.Lists.{IsOnce};
ghost use Rattle.req_table.specs.declared.Child.TheVariants as child;
ghost use Rattle.req_table.specs.Places.{row, IsAtPlace, AdmitsChild, AreEmpty, IsNextLevel};

use crate::Key;
use crate::level_set::LevelSet;
use crate::spare_tables::SpareTables;
use crate::table::Table;
use std::alloc::{AllocError, Global};
use std::marker::Model;
use std::mem;

/// The greatest number of requests of a table that goes on to another level. A larger one gives its memory back at
/// once, half a megabyte or more, because the children of its requests need memory.
const MAX_SPARE_LEN: usize = 1 << 14;

/// The greatest number of requests of a small table. A small table keeps its memory and is exchanged with that of the
/// next level, because handing it on would take as long as its requests do.
const MAX_SMALL_LEN: usize = 64;

/// The requests that wait at each level, each once. The levels that have any are in a set, so that empty ones cost no
/// time.
#[derive(Drop)]
pub struct Waiting {
    tables: Vec<Table>,
    /// Tables of levels that were expanded. The next level that gets a request takes the last of them. So a wave has
    /// about as many tables with memory as levels have requests at the same time, not counting small ones.
    spare: SpareTables,
    nonempty_levels: LevelSet,
}

impl Model for Waiting {
    ghost use Rattle.std.specs.Prelude.{List};
    ghost use Rattle.req_table.specs.declared.Key.{Key};

    ghost Value = { List (List Key) };

    ghost use Rattle.req_table.specs.Places.{AreMembers};

    ghost view = { λ r. r.tables.items };

    ghost invariant = { λ r. AreMembers r.nonempty_levels r.tables.items };
}

/// Returns `levels` empty tables.
fn empty_tables(alloc: Global, levels: u16) -> Result<Vec<Table>, AllocError>
    ensures { IfOk result (λ tables. AreEmpty tables.items levels) }
{
    let mut tables = Vec::new(alloc);
    for made in 0..levels {
        tables.push(Table::new(alloc))?;
    }
    Ok(tables)
}

/// Keeps an emptied table for another level, unless it had more than `MAX_SPARE_LEN` requests.
fn keep_spare(spare: &mut SpareTables, table: Table) -> Result<(), AllocError> {
    if table.len() > MAX_SPARE_LEN {
        return Ok(());
    }
    let mut table = table;
    table.clear();
    spare.put(table)
}

impl Waiting {
    /// Returns tables of no levels, which take no memory yet.
    pub fn new(alloc: Global) -> Waiting
        ensures { result ≡ [] }
    {
        Waiting {
            tables: Vec::new(alloc),
            spare: SpareTables::new(alloc),
            nonempty_levels: LevelSet::new(alloc),
        }
    }

    /// Returns `levels` levels without requests.
    fn with_levels(alloc: Global, levels: u16) -> Result<Waiting, AllocError>
        ensures { IfOk result (λ r. AreEmpty r levels) }
    {
        Ok(Waiting {
            tables: empty_tables(alloc, levels)?,
            spare: SpareTables::new(alloc),
            nonempty_levels: LevelSet::with_levels_empty(alloc, levels)?,
        })
    }

    /// Moves a level's requests, in order, into the empty table `keys`, so that the level can be expanded. If they are
    /// few, the level keeps the memory that `keys` had. If not, it has none, and takes a spare table at its next
    /// request.
    #[inline(always)]
    pub fn take(&mut self, level: u16, keys: &mut Table)
        requires level { level < length self.old }
        requires empty { keys.old ≡ [] }
        ensures keys { keys.new ≡ row self.old level }
        ensures rest { self.new ≡ set self.old level [] }
    {
        self.nonempty_levels.remove(level);
        mem::swap(&mut self.tables[level as usize], keys);
        if keys.len() > MAX_SMALL_LEN {
            self.tables[level as usize] = Table::new(*self.tables.allocator());
        }
    }

    /// Empties the table of a level that was expanded. A small table keeps its memory in `keys`; that of a larger one
    /// is for another level, and that of a very large one is given back.
    pub fn recycle(&mut self, keys: &mut Table) -> Result<(), AllocError>
        ensures same { self.new ≡ self.old }
        ensures empty { keys.new ≡ [] }
    {
        if keys.len() <= MAX_SMALL_LEN {
            keys.empty();
            return Ok(());
        }
        let fresh = Table::new(*self.tables.allocator());
        let used = mem::replace(keys, fresh);
        keep_spare(&mut self.spare, used)
    }

    /// Leaves `levels` levels without requests. Visits non-empty levels only, unless the number of levels changes.
    pub fn restart(&mut self, alloc: Global, levels: u16) -> Result<(), AllocError>
        ensures { OnOk result (AreEmpty self.new levels) }
    {
        if self.tables.len() != levels as usize {
            *self = Waiting::with_levels(alloc, levels)?;
            return Ok(());
        }
        let mut keys = Table::new(alloc);
        let mut from = 0;
        while let Some(level) = self.next_level(from) {
            self.take(level, &mut keys);
            self.recycle(&mut keys)?;
            from = level + 1;
        }
        Ok(())
    }

    /// Gives a level without requests a spare table, unless its own table has memory.
    fn reuse_spare_table(&mut self, level: u16)
        requires bound { level < length self.old }
        requires first { row self.old level ≡ [] }
        ensures { self.new ≡ self.old }
    {
        if !self.spare.is_empty() && self.tables[level as usize].capacity() == 0 {
            self.tables[level as usize] = self.spare.take();
        }
    }

    /// Admits the first request of a level.
    #[inline(never)]
    fn admit_first(&mut self, level: u16, key: Key) -> Result<u32, AllocError>
        requires bound { level < length self.old }
        requires first { row self.old level ≡ [] }
        ensures at_place { IfOk result (λ p. IsAtPlace self.new level p key) }
        ensures admits { (complement : Bool) → AdmitsChild self.old (child.Ask level key complement) self.new }
    {
        self.reuse_spare_table(level);
        let table = &mut self.tables[level as usize];
        let (place, _) = table.admit(key)?;
        self.nonempty_levels.insert(level);
        Ok(place)
    }

    /// Returns the place of a request among those of its level. If it is new, it is added to them at the end. Fails if
    /// memory is refused.
    #[inline(always)]
    pub fn admit(&mut self, level: u16, key: Key) -> Result<u32, AllocError>
        requires { level < length self.old }
        ensures at_place { IfOk result (λ p. IsAtPlace self.new level p key) }
        ensures admits { (complement : Bool) → AdmitsChild self.old (child.Ask level key complement) self.new }
    {
        if self.count(level) == 0 {
            return self.admit_first(level, key);
        }
        let (place, _) = self.tables[level as usize].admit(key)?;
        Ok(place)
    }

    /// Returns the number of levels.
    pub fn levels(&self) -> usize
        ensures { result ≡ length self.now }
    {
        self.tables.len()
    }

    /// Returns the number of requests of a level.
    pub fn count(&self, level: u16) -> usize
        requires { level < length self.now }
        ensures value { result ≡ length (row self.now level) }
        ensures once { IsOnce (row self.now level) }
    {
        self.tables[level as usize].len()
    }

    /// Whether the levels from `from` on have `average` requests or more on average.
    pub fn are_many(&self, from: u16, average: usize) -> bool {
        let levels = self.tables.len();
        let mut waiting: usize = 0;
        for level in from as usize..levels {
            waiting = waiting.saturating_add(self.tables[level].len());
        }
        waiting >= average.saturating_mul(levels.saturating_sub(from as usize))
    }

    /// Returns the requests of a level, by place.
    pub fn keys(&self, level: usize) -> &Table
        requires { level < length self.now }
        ensures { result.now ≡ row self.now level }
    {
        &self.tables[level]
    }

    /// Returns the first level from `from` on that has requests, or none.
    pub fn next_level(&self, from: u16) -> Option<u16>
        ensures { IsNextLevel self.now from result }
    {
        match self.nonempty_levels.next(from as usize) {
            Some(level) => Some(level as u16),
            None => None,
        }
    }
}
