//! The places that a worker notes of what it was asked for, in a list for each worker that asks.
ghost use Rattle.std.specs.Prelude.{◌≡◌, ◌<◌, [], ◌∷◌, ◌++◌, length, map, replicate, slice_set, IfOk, OnOk};
ghost use Rattle.req_table.specs.Places.{row as at};

use std::alloc::{AllocError, Global};
use std::marker::Model;

// Empties each list, and keeps the memory of all.
fn clear_all<T: Copy>(lists: &mut Vec<Vec<T>>)
    ensures { map (λ v. v.items) lists.new.items ≡ replicate (length lists.old.items) [] }
{
    for place in 0..lists.len() {
        lists[place].clear();
    }
}

/// For each sender the places of its requests in their levels' tables, in the order of asking.
#[derive(Drop)]
pub struct PlacesBySender {
    lists: Vec<Vec<u32>>,
}

impl Model for PlacesBySender {
    ghost use Rattle.std.specs.Prelude.{ℕ, List, map};

    ghost Value = { List (List ℕ) };

    ghost view = { λ n. map (λ v. v.items) n.lists.items };
}

impl PlacesBySender {
    /// Returns `count` empty lists.
    pub fn new(alloc: Global, count: u32) -> Result<PlacesBySender, AllocError>
        ensures { IfOk result (λ n. n ≡ replicate count []) }
    {
        let mut lists = Vec::new(alloc);
        for made in 0..count {
            lists.push(Vec::new(alloc))?;
        }
        Ok(PlacesBySender { lists })
    }

    /// Returns `count` empty lists, in the memory of these if there are as many.
    pub fn emptied(self, alloc: Global, count: u32) -> Result<PlacesBySender, AllocError>
        ensures { IfOk result (λ l. l ≡ replicate count []) }
    {
        let mut lists = self.lists;
        if lists.len() != count as usize {
            return PlacesBySender::new(alloc, count);
        }
        clear_all(&mut lists);
        Ok(PlacesBySender { lists })
    }

    /// Adds a place at the end of the list of the sender `from`.
    pub fn push(&mut self, from: u32, place: u32) -> Result<(), AllocError>
        requires { from < length self.old }
        ensures { OnOk result (self.new ≡ slice_set self.old from (at self.old from ++ place ∷ [])) }
    {
        self.lists[from as usize].push(place)?;
        Ok(())
    }

    /// Returns the list of the sender `from`.
    pub fn list(&self, from: u32) -> &[u32]
        requires { from < length self.now }
        ensures { result.now ≡ at self.now from }
    {
        &self.lists[from as usize]
    }
}
