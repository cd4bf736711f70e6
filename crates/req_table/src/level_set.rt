//! A set of levels, by a bit for each, 64 in a word.
ghost use Rattle.std.specs.Prelude.{◌≡◌, ◌≢◌, ◌<◌, ◌≤◌, ◌*◌, ℕ, length, IfOk, []};
ghost use Rattle.req_table.specs.LevelSet.{IsMember, member_of, IsLowestFrom, IsHighestBefore, IsNextFrom, IsLastBefore};

use std::alloc::{AllocError, Global};
use std::marker::Model;

/// A set of levels: those that have requests, or children.
#[derive(Drop)]
pub(crate) struct LevelSet {
    words: Vec<u64>,
}

impl Model for LevelSet {
    ghost use Rattle.std.specs.Prelude.{List, ℕ};

    ghost Value = { List ℕ };

    ghost use Rattle.std.specs.Prelude.{length, ◌≤◌};

    ghost view = { λ m. m.words.items };

    ghost invariant = { λ m. length m.words.items ≤ 1024 };
}

/// Returns the lowest bit that is set in a word, of those from `from` on, or none.
fn lowest_from(word: u64, from: usize) -> Option<usize>
    requires { from < 64 }
    ensures { IsLowestFrom word from result }
{
    let rest = word >> from;
    if rest == 0 {
        None
    } else {
        Some(from + rest.trailing_zeros() as usize)
    }
}

/// Returns the highest bit that is set in a word, of those before `end`, or none.
fn highest_before(word: u64, end: usize) -> Option<usize>
    requires first { 0 < end }
    requires last { end ≤ 64 }
    ensures { IsHighestBefore word end result }
{
    let rest = word & (u64::MAX >> (64 - end));
    if rest == 0 {
        None
    } else {
        Some(63 - rest.leading_zeros() as usize)
    }
}

impl LevelSet {
    /// Returns a set with room for no levels, which takes no memory yet.
    pub(crate) fn new(alloc: Global) -> LevelSet
        ensures { result ≡ [] }
    {
        LevelSet {
            words: Vec::new(alloc),
        }
    }

    /// Returns the empty set, with room for `levels` levels.
    pub(crate) fn with_levels_empty(alloc: Global, levels: u16) -> Result<LevelSet, AllocError>
        ensures room { IfOk result (λ m. levels ≤ 64 * length m) }
        ensures none { IfOk result (λ m. (w : ℕ) → member_of m w ≡ 0) }
    {
        let mut words = Vec::new(alloc);
        words.resize(levels as usize / 64 + 1, 0u64)?;
        Ok(LevelSet { words })
    }

    /// Adds a level.
    pub(crate) fn insert(&mut self, level: u16)
        requires { level < 64 * length self.old }
        ensures room { length self.new ≡ length self.old }
        ensures own { IsMember self.new level }
        ensures others { (w : ℕ) → w ≢ level → member_of self.new w ≡ member_of self.old w }
    {
        let place = level as usize;
        self.words[place / 64] |= 1u64 << (place % 64);
    }

    /// Removes a level.
    pub(crate) fn remove(&mut self, level: u16)
        requires { level < 64 * length self.old }
        ensures room { length self.new ≡ length self.old }
        ensures own { member_of self.new level ≡ 0 }
        ensures others { (w : ℕ) → w ≢ level → member_of self.new w ≡ member_of self.old w }
    {
        let place = level as usize;
        self.words[place / 64] &= !(1u64 << (place % 64));
    }

    /// Returns the first level of the set from `from` on, or none.
    pub(crate) fn next(&self, from: usize) -> Option<usize>
        ensures { IsNextFrom self.now from result }
    {
        for index in from / 64..self.words.len() {
            let least = from.saturating_sub(64 * index);
            if let Some(bit) = lowest_from(self.words[index], least) {
                return Some(64 * index + bit);
            }
        }
        None
    }

    /// Returns the last level of the set before `end`, or none.
    pub(crate) fn last(&self, end: usize) -> Option<usize>
        requires { end ≤ 64 * length self.now }
        ensures { IsLastBefore self.now end result }
    {
        let mut index = end.div_ceil(64);
        while index > 0 {
            index -= 1;
            let most = (end - 64 * index).min(64);
            if let Some(bit) = highest_before(self.words[index], most) {
                return Some(64 * index + bit);
            }
        }
        None
    }
}
