//! The events on lanes: a request or an End is sent, the first item of a lane is taken, a request
//! is kept. Each returns false, and changes nothing, if the event is not allowed; and if memory is
//! refused, nothing changes either.
ghost use Rattle.std.specs.Prelude.{◌≡◌, ◌+◌, ◌<◌, All, IfOk, OnErr, MatchBool, IsTrue};
ghost use Rattle.req_table.specs.Keys.{level_of};
ghost use Rattle.wave_core.specs.MachineView.{Does, Allows, by_place, IsOwnInOrder};
ghost use Rattle.wave_core.specs.declared.Event.TheVariants.{Send, End, Take, Keep};

use crate::lists::{count_items, put_both};
use crate::machine::Machine;
use dd_store::Store;
use req_table::Item;
use req_table::requests::level_of;
use std::alloc::AllocError;

impl Machine {
    /// Sends the first request that is due from `by` to `to`.
    pub fn send(&mut self, store: &Store, by: u32, to: u32) -> Result<bool, AllocError>
        ensures same { (self.new.workers ≡ self.old.workers) × (self.new.levels ≡ self.old.levels) }
        ensures kept { self.new.kept ≡ self.old.kept }
        ensures ok { IfOk result (λ b. MatchBool b (Does store.now self.old (Send by to) self.new)
            ((self.new ≡ self.old) × ¬ Allows store.now self.old (Send by to))) }
        ensures err { OnErr result (self.new ≡ self.old) }
    {
        if by >= self.workers || to >= self.workers {
            return Ok(false);
        }
        let place = (by * self.workers + to) as usize;
        let lane = to as usize;
        let Some(key) = self.due[place].first() else {
            return Ok(false);
        };
        let item = Item::Ask {
            from: by,
            level: level_of(store, key),
            key,
        };
        self.sent[place].put(&item)?;
        match self.waiting[lane].put(&item) {
            Ok(()) => {
                self.due[place].pop();
                Ok(true)
            }
            Err(fault) => {
                self.sent[place].undo();
                Err(fault)
            }
        }
    }

    /// Puts the next End of `by` on the lane of `to`.
    pub fn end(&mut self, store: &Store, by: u32, to: u32) -> Result<bool, AllocError>
        ensures same { (self.new.workers ≡ self.old.workers) × (self.new.levels ≡ self.old.levels) }
        ensures kept { self.new.kept ≡ self.old.kept }
        ensures ok { IfOk result (λ b. MatchBool b (Does store.now self.old (End by to) self.new)
            ((self.new ≡ self.old) × ¬ Allows store.now self.old (End by to))) }
        ensures err { OnErr result (self.new ≡ self.old) }
    {
        if by >= self.workers || to >= self.workers {
            return Ok(false);
        }
        let place = (by * self.workers + to) as usize;
        let lane = to as usize;
        let level = self.ends_sent[place];
        if !self.due[place].is_empty() {
            return Ok(false);
        }
        let present = self.at[by as usize];
        if level > present {
            return Ok(false);
        }
        if level >= self.levels {
            return Ok(false);
        }
        let item = Item::End { from: by, level };
        self.sent[place].put(&item)?;
        match self.waiting[lane].put(&item) {
            Ok(()) => {
                self.ends_sent[place] = level + 1;
                Ok(true)
            }
            Err(fault) => {
                self.sent[place].undo();
                Err(fault)
            }
        }
    }

    /// Takes the first item that waits on the lane of `by`.
    pub fn take(&mut self, store: &Store, by: u32) -> Result<bool, AllocError>
        ensures same { (self.new.workers ≡ self.old.workers) × (self.new.levels ≡ self.old.levels) }
        ensures kept { self.new.kept ≡ self.old.kept }
        ensures ok { IfOk result (λ b. MatchBool b (Does store.now self.old (Take by) self.new)
            ((self.new ≡ self.old) × ¬ Allows store.now self.old (Take by))) }
        ensures err { OnErr result (self.new ≡ self.old) }
    {
        if by >= self.workers {
            return Ok(false);
        }
        let lane = by as usize;
        let Some(item) = self.waiting[lane].first() else {
            return Ok(false);
        };
        self.taken[lane].put(&item)?;
        match item {
            Item::Ask { level, key, .. } => {
                if level >= self.levels {
                    self.waiting[lane].pop();
                    return Ok(true);
                }
                let place = lane * self.levels as usize + level as usize;
                match self.tables[place].admit(key) {
                    Ok(_) => {
                        self.waiting[lane].pop();
                        Ok(true)
                    }
                    Err(fault) => {
                        self.taken[lane].undo();
                        Err(fault)
                    }
                }
            }
            Item::End { from, .. } => {
                if from >= self.workers {
                    self.waiting[lane].pop();
                    return Ok(true);
                }
                let _ = self.taken[lane].len(); // For the proof.
                let place = (by * self.workers + from) as usize;
                self.ends_taken[place] += 1;
                self.waiting[lane].pop();
                Ok(true)
            }
        }
    }

    /// Sends the first request that is due from `by` to itself, and takes it at once.
    pub fn keep(&mut self, store: &Store, by: u32) -> Result<bool, AllocError>
        requires own { by < self.old.workers → IsOwnInOrder self.old by }
        requires below { by < self.old.workers → All (λ x. level_of store.now x < self.old.levels)
            (by_place self.old.workers self.old.due by by) }
        ensures same { (self.new.workers ≡ self.old.workers) × (self.new.levels ≡ self.old.levels) }
        ensures kept { IfOk result (λ b. IsTrue b → self.new.kept ≡ self.old.kept + 1) }
        ensures ok { IfOk result (λ b. MatchBool b (Does store.now self.old (Keep by) self.new)
            ((self.new ≡ self.old) × ¬ Allows store.now self.old (Keep by))) }
        ensures err { OnErr result (self.new ≡ self.old) }
    {
        if !self.can_keep(store, by) {
            return Ok(false);
        }
        let lane = by as usize;
        let own = (by * self.workers + by) as usize;
        let Some(key) = self.due[own].first() else {
            return Ok(false);
        };
        let level = level_of(store, key);
        let place = lane * self.levels as usize + level as usize;
        let item = Item::Ask {
            from: by,
            level,
            key,
        };
        let _ = count_items(&self.sent); // For the proof.
        put_both(&mut self.sent[own], &mut self.taken[lane], &item)?;
        match self.tables[place].admit(key) {
            Ok(_) => {
                self.due[own].pop();
                self.kept += 1;
                Ok(true)
            }
            Err(fault) => {
                self.sent[own].undo();
                self.taken[lane].undo();
                Err(fault)
            }
        }
    }

    /// Whether a request is due from `by` to `to`.
    pub fn can_send(&self, store: &Store, by: u32, to: u32) -> bool
        ensures { MatchBool result (Allows store.now self.now (Send by to)) (¬ Allows store.now self.now (Send by to)) }
    {
        if by >= self.workers || to >= self.workers {
            return false;
        }
        !self.due[(by * self.workers + to) as usize].is_empty()
    }

    /// Whether `by` may put its next End on the lane of `to`.
    pub fn can_end(&self, store: &Store, by: u32, to: u32) -> bool
        ensures { MatchBool result (Allows store.now self.now (End by to)) (¬ Allows store.now self.now (End by to)) }
    {
        if by >= self.workers || to >= self.workers {
            return false;
        }
        let place = (by * self.workers + to) as usize;
        let level = self.ends_sent[place];
        self.due[place].is_empty() && level <= self.at[by as usize] && level < self.levels
    }

    /// Whether an item waits on the lane of `by`.
    pub fn can_take(&self, store: &Store, by: u32) -> bool
        ensures { MatchBool result (Allows store.now self.now (Take by)) (¬ Allows store.now self.now (Take by)) }
    {
        if by >= self.workers {
            return false;
        }
        self.waiting[by as usize].first().is_some()
    }

    /// Whether a request is due from `by` to itself, and `by` has taken all that it has sent to itself.
    pub fn can_keep(&self, store: &Store, by: u32) -> bool
        requires { by < self.now.workers → IsOwnInOrder self.now by }
        ensures { MatchBool result (Allows store.now self.now (Keep by)) (¬ Allows store.now self.now (Keep by)) }
    {
        if by >= self.workers {
            return false;
        }
        let own = (by * self.workers + by) as usize;
        !self.due[own].is_empty() && !self.waiting[by as usize].has_from(by)
    }
}
