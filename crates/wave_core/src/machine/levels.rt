//! The events of a level: a request of a closed level is expanded, and a worker goes on to the next
//! level.
ghost use Rattle.std.specs.Prelude.{◌≡◌, ℕ, ◌+◌, ◌*◌, ◌<◌, ◌≤◌, List, [], ◌∷◌, ◌++◌, slice_index_or, slice_set, map, All, Contains};
ghost use Rattle.std.specs.Prelude.{MatchOption, IfSome, IfOk, OnOk, OnErr, MatchBool};
ghost use Rattle.req_table.specs.Lanes.{IsClosed};
ghost use Rattle.req_table.specs.Keys.{IsKey};
ghost use Rattle.req_table.specs.declared.Key.{Key as KeyValue};
ghost use Rattle.wave_core.specs.MachineView.{MachineView, IsConsistent, state_of, wave_of_view, Does, Allows, TookFairly, number_of, due_with_child, due_with_children, list_of};
ghost use Rattle.wave_core.specs.MachineView.{by_place};
ghost use Rattle.req_table.specs.Settled.{key_of};
ghost use Rattle.wave_core.specs.Step.{IsAtClosedLevel, asks_here, row_here};
ghost use Rattle.wave_core.specs.declared.Event.TheVariants.{Expand, Advance};

use crate::machine::Machine;
use dd_store::Store;
use req_table::requests::{owner, split};
use req_table::{Child, Key, Record};
use std::alloc::AllocError;

impl Machine {
    /// Whether `by` has taken more Ends of each worker than the level's number.
    fn is_ended(&self, by: u32, level: u16) -> bool
        requires { by < self.now.workers }
        ensures { MatchBool result ((s : ℕ) → s < self.now.workers → level < number_of self.now.workers self.now.ends_taken by s)
            ((s : ℕ) × (s < self.now.workers) × (number_of self.now.workers self.now.ends_taken by s ≤ level)) }
    {
        for sender in 0..self.workers {
            let place = (by * self.workers + sender) as usize;
            if self.ends_taken[place] <= level as u64 {
                return false;
            }
        }
        true
    }

    /// Whether the level is closed for `by`: it has taken an End of the level from every worker.
    pub fn is_closed(&self, store: &Store, by: u32, level: u16) -> bool
        requires by { by < self.now.workers }
        requires fair { TookFairly store.now self.now by }
        ensures { MatchBool result (IsClosed (wave_of_view store.now self.now).scope level (list_of self.now.taken by))
            (¬ IsClosed (wave_of_view store.now self.now).scope level (list_of self.now.taken by)) }
    {
        let _ = &self.workers; // For the proof.
        if !self.is_ended(by, level) {
            return false;
        }
        true
    }

    /// Returns the level of `by` if it is closed for `by`, and otherwise none.
    fn closed_level(&self, store: &Store, by: u32) -> Option<u16>
        requires fair { by < self.now.workers → TookFairly store.now self.now by }
        ensures kept { IsConsistent self.now }
        ensures at_closed_level { MatchOption result (¬ IsAtClosedLevel (wave_of_view store.now self.now) (state_of self.now) by)
            (λ level. (level ≡ slice_index_or self.now.at by 0) × IsAtClosedLevel (wave_of_view store.now self.now) (state_of self.now) by) }
    {
        if by >= self.workers {
            return None;
        }
        let level = self.at[by as usize];
        if level >= self.levels {
            return None;
        }
        if !self.is_ended(by, level) {
            return None;
        }
        Some(level)
    }

    /// Adds a child that is a request to what is due from `by` to the request's owner.
    fn add_due(&mut self, by: u32, child: &Child) -> Result<(), AllocError>
        requires { by < self.old.workers }
        ensures ok { OnOk result (let r : MachineView = record self.old { due = due_with_child self.old.workers by child.now self.old.due } in
            self.new ≡ r) }
        ensures err { OnErr result (self.new ≡ self.old) }
    {
        match child {
            Child::Done(_) => Ok(()),
            Child::Ask { key, .. } => {
                let place = (by * self.workers + owner(*key, self.workers)) as usize;
                self.due[place].put(*key)
            }
        }
    }

    /// Removes such a child again, which has to be the last one that was added.
    fn remove_due(&mut self, by: u32, child: &Child)
        requires { by < self.old.workers }
        ensures same { self.new.workers ≡ self.old.workers }
        ensures back { (d : List (List KeyValue)) → self.old.due ≡ due_with_child self.old.workers by child.now d
            → (let r : MachineView = record self.old { due = d } in self.new ≡ r) }
    {
        match child {
            Child::Done(_) => {}
            Child::Ask { key, .. } => {
                let place = (by * self.workers + owner(*key, self.workers)) as usize;
                self.due[place].undo();
            }
        }
    }

    /// Adds both children of a record to what is due from `by`.
    fn add_due_children(&mut self, by: u32, added: &Record) -> Result<(), AllocError>
        requires { by < self.old.workers }
        ensures ok { OnOk result (let r : MachineView = record self.old { due = due_with_children self.old.workers by added.now self.old.due } in
            self.new ≡ r) }
        ensures err { OnErr result (self.new ≡ self.old) }
    {
        self.add_due(by, &added.low)?;
        match self.add_due(by, &added.high) {
            Ok(()) => Ok(()),
            Err(fault) => {
                self.remove_due(by, &added.low);
                Err(fault)
            }
        }
    }

    /// Removes both children of a record again.
    fn remove_due_children(&mut self, by: u32, added: &Record)
        requires { by < self.old.workers }
        ensures { (d : List (List KeyValue)) → self.old.due ≡ due_with_children self.old.workers by added.now d
            → (let r : MachineView = record self.old { due = d } in self.new ≡ r) }
    {
        self.remove_due(by, &added.high);
        self.remove_due(by, &added.low);
    }

    /// Returns the first request of the level of `by` that was not expanded yet, or none.
    fn next_key(&self, by: u32, level: u16) -> Option<Key>
        requires by { by < self.now.workers }
        requires level { level < self.now.levels }
        requires here { level ≡ slice_index_or self.now.at by 0 }
        ensures left { MatchOption result (All (Contains (row_here (state_of self.now) by)) (asks_here (state_of self.now) by))
            (λ _. ¬ All (Contains (row_here (state_of self.now) by)) (asks_here (state_of self.now) by)) }
        ensures front { IfSome result (λ x. (more : List KeyValue)
            × (by_place self.now.levels self.now.tables by level ≡ map key_of (by_place self.now.levels self.now.rows by level) ++ x
            ∷ more)) }
    {
        let place = by as usize * self.levels as usize + level as usize;
        let done = self.rows[place].len();
        if done >= self.tables[place].len() {
            return None;
        }
        Some(self.tables[place].key_at(done))
    }

    /// Adds the record of the next request to its row.
    fn note(&mut self, by: u32, level: u16, added: &Record) -> Result<(), AllocError>
        requires by { by < self.old.workers }
        requires level { level < self.old.levels }
        requires next { (more : List KeyValue) × (by_place self.old.levels self.old.tables by level ≡ map key_of
            (by_place self.old.levels self.old.rows by level) ++ added.now.key ∷ more) }
        ensures ok { OnOk result (let r : MachineView = record self.old {
          rows = slice_set self.old.rows (by * self.old.levels + level)
              (by_place self.old.levels self.old.rows by level ++ added.now ∷ []);
        } in self.new ≡ r) }
        ensures err { OnErr result (self.new ≡ self.old) }
    {
        let place = by as usize * self.levels as usize + level as usize;
        self.rows[place].put(added)?;
        Ok(())
    }

    /// Expands the first request of the level of `by` that was not expanded yet. Returns false, and changes nothing, if
    /// that is not allowed.
    pub fn expand(&mut self, store: &Store, by: u32) -> Result<bool, AllocError>
        requires fair { by < self.old.workers → TookFairly store.now self.old by }
        requires held { by < self.old.workers → All (IsKey store.now) (asks_here (state_of self.old) by) }
        ensures same { (self.new.workers ≡ self.old.workers) × (self.new.levels ≡ self.old.levels) }
        ensures kept { self.new.kept ≡ self.old.kept }
        ensures ok { IfOk result (λ b. MatchBool b (Does store.now self.old (Expand by) self.new)
            ((self.new ≡ self.old) × ¬ Allows store.now self.old (Expand by))) }
        ensures err { OnErr result (self.new ≡ self.old) }
    {
        let Some(level) = self.closed_level(store, by) else {
            return Ok(false);
        };
        let Some(key) = self.next_key(by, level) else {
            return Ok(false);
        };
        let record = split(store, key);
        self.add_due_children(by, &record)?;
        match self.note(by, level, &record) {
            Ok(()) => Ok(true),
            Err(fault) => {
                self.remove_due_children(by, &record);
                Err(fault)
            }
        }
    }

    /// Whether nothing is due from `by`.
    fn has_nothing_due(&self, by: u32) -> bool
        requires { by < self.now.workers }
        ensures { MatchBool result ((to : ℕ) → to < self.now.workers → by_place self.now.workers self.now.due by to ≡ [])
            ((to : ℕ) × (to < self.now.workers) × ¬ (by_place self.now.workers self.now.due by to ≡ [])) }
    {
        for to in 0..self.workers {
            let place = (by * self.workers + to) as usize;
            if !self.due[place].is_empty() {
                return false;
            }
        }
        true
    }

    /// Moves `by` to the next level. Returns false, and changes nothing, if that is not allowed.
    pub fn advance(&mut self, store: &Store, by: u32) -> bool
        requires fair { by < self.old.workers → TookFairly store.now self.old by }
        ensures same { (self.new.workers ≡ self.old.workers) × (self.new.levels ≡ self.old.levels) }
        ensures kept { self.new.kept ≡ self.old.kept }
        ensures done { MatchBool result (Does store.now self.old (Advance by) self.new)
            ((self.new ≡ self.old) × ¬ Allows store.now self.old (Advance by)) }
    {
        let Some(level) = self.closed_level(store, by) else {
            return false;
        };
        if self.next_key(by, level).is_some() {
            return false;
        }
        if !self.has_nothing_due(by) {
            return false;
        }
        self.at[by as usize] = level + 1;
        true
    }

    /// Whether the level of `by` is closed, and a request of it was not expanded yet.
    pub fn can_expand(&self, store: &Store, by: u32) -> bool
        requires fair { by < self.now.workers → TookFairly store.now self.now by }
        ensures { MatchBool result (Allows store.now self.now (Expand by)) (¬ Allows store.now self.now (Expand by)) }
    {
        match self.closed_level(store, by) {
            Some(level) => self.next_key(by, level).is_some(),
            None => false,
        }
    }

    /// Whether the level of `by` is closed, all its requests were expanded, and nothing is due from `by`.
    pub fn can_advance(&self, store: &Store, by: u32) -> bool
        requires fair { by < self.now.workers → TookFairly store.now self.now by }
        ensures { MatchBool result (Allows store.now self.now (Advance by)) (¬ Allows store.now self.now (Advance by)) }
    {
        match self.closed_level(store, by) {
            Some(level) => self.next_key(by, level).is_none() && self.has_nothing_due(by),
            None => false,
        }
    }
}
