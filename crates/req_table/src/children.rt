//! The children of a wave's requests, in a row for each level.
ghost use Rattle.std.specs.Prelude.{◌≡◌, ◌<◌, ◌≤◌, ◌-◌, ◌%◌, ◌^◌, [], length, replicate, set, IfOk, OnOk};
ghost use Rattle.std.specs.List.{sum_by};
ghost use Rattle.req_table.specs.Places.{row, AreEmpty, IsNextLevel, IsLastLevel};

use crate::level_set::LevelSet;
use crate::packed_lists::Row;
use std::alloc::{AllocError, Global};
use std::marker::Model;
use std::mem;

/// For each expanded level the children of its requests, by place. The levels that have any are in a set, so that empty
/// ones cost no time.
#[derive(Drop)]
pub struct Rows {
    rows: Vec<Row>,
    nonempty_levels: LevelSet,
    /// The memory of a row of more requests is given back when its level is cleared.
    max_kept: usize,
}

impl Model for Rows {
    ghost use Rattle.std.specs.Prelude.{List};
    ghost use Rattle.req_table.specs.declared.packed_child.PackedChild.{PackedChild};

    ghost Value = { List (List (PackedChild × PackedChild)) };

    ghost use Rattle.req_table.specs.Places.{AreMembers};

    ghost view = { λ r. r.rows.items };

    ghost invariant = { λ r. AreMembers r.nonempty_levels r.rows.items };
}

/// Returns `levels` empty rows.
fn empty_rows(alloc: Global, levels: u16) -> Result<Vec<Row>, AllocError>
    ensures { IfOk result (λ rows. AreEmpty rows.items levels) }
{
    let mut rows = Vec::new(alloc);
    for made in 0..levels {
        rows.push(Row::new(alloc))?;
    }
    Ok(rows)
}

impl Rows {
    /// Returns rows of no levels, which take no memory yet. When a level is cleared, a row of at most `max_kept`
    /// requests keeps its memory for the next wave; a larger one gives it back.
    pub fn new(alloc: Global, max_kept: usize) -> Rows
        ensures { result ≡ [] }
    {
        Rows {
            rows: Vec::new(alloc),
            nonempty_levels: LevelSet::new(alloc),
            max_kept,
        }
    }

    /// Returns `levels` levels without children.
    fn with_levels(alloc: Global, levels: u16, max_kept: usize) -> Result<Rows, AllocError>
        ensures { IfOk result (λ r. AreEmpty r levels) }
    {
        Ok(Rows {
            rows: empty_rows(alloc, levels)?,
            nonempty_levels: LevelSet::with_levels_empty(alloc, levels)?,
            max_kept,
        })
    }

    /// Moves the children of a level out, with their memory.
    pub fn take(&mut self, level: u16) -> Row
        requires { level < length self.old }
        ensures children { result ≡ row self.old level }
        ensures rest { self.new ≡ set self.old level [] }
    {
        self.nonempty_levels.remove(level);
        let fresh = Row::new(*self.rows.allocator());
        mem::replace(&mut self.rows[level as usize], fresh)
    }

    /// Leaves a level without children. Its row keeps its memory for the next wave if it had at most `max_kept`
    /// requests.
    pub fn clear_level(&mut self, level: u16)
        requires { level < length self.old }
        ensures { self.new ≡ set self.old level [] }
    {
        self.nonempty_levels.remove(level);
        let alloc = *self.rows.allocator();
        self.rows[level as usize].clear_keeping(alloc, self.max_kept);
    }

    /// Leaves `levels` levels without children. Visits non-empty levels only, unless the number of levels changes.
    pub fn restart(&mut self, alloc: Global, levels: u16) -> Result<(), AllocError>
        ensures { OnOk result (self.new ≡ replicate levels []) }
    {
        if self.rows.len() != levels as usize {
            *self = Rows::with_levels(alloc, levels, self.max_kept)?;
            return Ok(());
        }
        let mut from = 0;
        while let Some(level) = self.next_level(from) {
            self.clear_level(level);
            from = level + 1;
        }
        Ok(())
    }

    /// Puts the children of a level that has none.
    pub fn put(&mut self, level: u16, children: Row)
        requires bound { level < length self.old }
        requires empty { row self.old level ≡ [] }
        ensures { self.new ≡ set self.old level children }
    {
        let some = children.len() > 0;
        self.rows[level as usize] = children;
        if some {
            self.nonempty_levels.insert(level);
        }
    }

    /// Returns the children of a level's requests, by place.
    pub fn row(&self, level: u16) -> &Row
        requires { level < length self.now }
        ensures { result.now ≡ row self.now level }
    {
        &self.rows[level as usize]
    }

    /// Returns the number of requests of all levels, modulo 2^64. It bounds nothing (`total` does).
    pub fn count(&self) -> u64
        ensures { result ≡ sum_by (λ row. length row) self.now % 2 ^ 64 }
    {
        let mut total: u64 = 0;
        for row in &self.rows {
            total = total.wrapping_add(row.len() as u64);
        }
        total
    }

    /// Returns the number of requests of all levels, if it is less than the greatest `u64`; the greatest itself may
    /// mean more.
    pub fn total(&self) -> u64
        ensures { result < 2 ^ 64 - 1 → result ≡ sum_by (λ row. length row) self.now }
    {
        let mut total: u64 = 0;
        for row in &self.rows {
            total = total.saturating_add(row.len() as u64);
        }
        total
    }

    /// Returns the first level from `from` on that has children, or none.
    fn next_level(&self, from: u16) -> Option<u16>
        ensures { IsNextLevel self.now from result }
    {
        match self.nonempty_levels.next(from as usize) {
            Some(level) => Some(level as u16),
            None => None,
        }
    }

    /// Returns the last level before `end` that has children, or none.
    pub fn last_level(&self, end: u16) -> Option<u16>
        requires { end ≤ length self.now }
        ensures { IsLastLevel self.now end result }
    {
        match self.nonempty_levels.last(end as usize) {
            Some(level) => Some(level as u16),
            None => None,
        }
    }
}
