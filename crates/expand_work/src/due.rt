//! The requests that a worker still has to ask of each worker, in the bundles that will carry them.
ghost use Rattle.std.specs.Prelude.{◌≡◌, ◌<◌, [], ◌∷◌, ◌++◌, length, replicate, slice_set, IfOk, OnOk, MatchOption};
ghost use Rattle.expand_work.specs.Due.{IsCut};
ghost use Rattle.req_table.specs.Places.{row as at};

use crate::BundlePool;
use lane_queue::Bundle;
use req_table::Key;
use std::alloc::{AllocError, Global};
use std::collections::VecDeque;
use std::marker::Model;

// The bytes of a request in a bundle.
const _: () = prove!(size_of::<(u16, Key)>() == 24);

// Requests in order, each with its level: full bundles, and then one that is not full.
#[derive(Drop)]
struct Asks {
    full: VecDeque<Bundle>,
    partial: Option<Bundle>,
}

impl Model for Asks {
    ghost use Rattle.std.specs.Prelude.{ℕ, List, ◌++◌};
    ghost use Rattle.std.specs.List.{flat_map};
    ghost use Rattle.req_table.specs.declared.Key.{Key};

    ghost Value = { List (ℕ × Key) };

    ghost use Rattle.expand_work.specs.Due.{in_partial, AreFull, IsBegun};

    ghost view = { λ a. flat_map (λ b. b) a.full.items ++ in_partial a.partial };

    ghost invariant = { λ a. AreFull a.full.items × IsBegun a.partial };
}

impl Asks {
    // Returns a list without requests, which takes no memory yet.
    fn new(alloc: Global) -> Asks
        ensures { result ≡ [] }
    {
        Asks {
            full: VecDeque::new(alloc),
            partial: None,
        }
    }

    // Adds a request at the end, to the bundle that is not full.
    fn push(&mut self, spare: &mut BundlePool, level: u16, key: Key) -> Result<(), AllocError>
        ensures { OnOk result (self.new ≡ self.old ++ (level, key) ∷ []) }
    {
        let Some(partial) = &mut self.partial else {
            let mut partial = spare.take()?;
            partial.add(level, key);
            self.partial = Some(partial);
            return Ok(());
        };
        partial.add(level, key);
        if partial.len() < Bundle::CAPACITY {
            return Ok(());
        }
        if let Some(partial) = self.partial.take() {
            self.full.push_back(partial)?;
        }
        Ok(())
    }

    // Takes the first bundle out, or returns none if no request is left.
    fn take(&mut self) -> Option<Bundle>
        ensures { MatchOption result ((self.old ≡ []) × (self.new ≡ [])) (λ b. IsCut self.old b self.new) }
    {
        match self.full.pop_front() {
            Some(bundle) => Some(bundle),
            None => self.partial.take(),
        }
    }
}

/// For each worker the requests that are due from it, in order, each with its level.
#[derive(Drop)]
pub struct Due {
    lists: Vec<Asks>,
}

impl Model for Due {
    ghost use Rattle.std.specs.Prelude.{ℕ, List};
    ghost use Rattle.req_table.specs.declared.Key.{Key};

    ghost Value = { List (List (ℕ × Key)) };

    ghost view = { λ d. d.lists.items };
}

impl Due {
    /// Returns empty lists for `workers` workers.
    pub fn new(alloc: Global, workers: u32) -> Result<Due, AllocError>
        ensures { IfOk result (λ d. d ≡ replicate workers []) }
    {
        let mut lists = Vec::with_capacity(alloc, workers as usize)?;
        for made in 0..workers {
            lists.push(Asks::new(alloc))?;
        }
        Ok(Due { lists })
    }

    /// Adds a request at the end of those that are due from the worker `from`.
    pub fn push(
        &mut self,
        spare: &mut BundlePool,
        from: u32,
        level: u16,
        key: Key,
    ) -> Result<(), AllocError>
        requires { from < length self.old }
        ensures { OnOk result (self.new ≡ slice_set self.old from (at self.old from ++ (level, key) ∷ [])) }
    {
        self.lists[from as usize].push(spare, level, key)
    }

    /// Takes the first bundle of what is due from the worker out, or returns none if nothing is.
    pub fn take(&mut self, from: u32) -> Option<Bundle>
        requires { from < length self.old }
        ensures rest { self.new ≡ slice_set self.old from (at self.new from) }
        ensures bundle { MatchOption result ((at self.old from ≡ []) × (at self.new from ≡ []))
            (λ b. IsCut (at self.old from) b (at self.new from)) }
    {
        self.lists[from as usize].take()
    }
}
