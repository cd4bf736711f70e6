//! How many levels each sender has ended, and so which levels are closed.
ghost use Rattle.std.specs.Prelude.{◌≡◌, ◌+◌, ◌<◌, ◌≤◌, length, slice_index, slice_set, All, IfOk, IsTrue, ◌↔◌, replicate};
ghost use Rattle.expand_work.specs.Counts.{Counts, HaveAllEndedLevel, HaveAllEnded};

use std::alloc::{AllocError, Global};
use std::marker::Model;

/// How many levels each sender has ended, by sender. A sender ends its levels in order, from level 0 on, so its count
/// is also the next level that it ends.
#[derive(Drop)]
pub struct EndCounts {
    levels: u16,
    ended: Vec<u16>,
}

impl Model for EndCounts {
    ghost Value = { Counts };

    ghost view = { λ c. record { levels = c.levels; ended = c.ended.items } };

    ghost invariant = { λ c. All (λ n. n ≤ c.levels) c.ended.items };
}

impl EndCounts {
    /// Returns the counts of a wave in which no sender has ended a level. Fails if memory is refused.
    pub fn new(alloc: Global, workers: u32, levels: u16) -> Result<EndCounts, AllocError>
        ensures { IfOk result (λ c. c ≡ record { levels = levels; ended = replicate workers 0 }) }
    {
        let mut ended = Vec::new(alloc);
        for sender in 0..workers {
            ended.push(0u16)?;
        }
        Ok(EndCounts { levels, ended })
    }

    /// Notes that a sender has ended a level, which has to be the next one of this sender.
    pub fn note(&mut self, from: u32, level: u16)
        requires from { from < length self.old.ended }
        requires next { level ≡ slice_index self.old.ended from }
        requires level { level < self.old.levels }
        ensures { self.new ≡ record self.old { ended = slice_set self.old.ended from (level + 1) } }
    {
        let _levels = self.levels; // For the proof.
        let sender = from as usize;
        self.ended[sender] = level + 1;
    }

    /// Returns how many levels a sender has ended.
    pub fn ended(&self, from: u32) -> u16
        requires { from < length self.now.ended }
        ensures { result ≡ slice_index self.now.ended from }
    {
        self.ended[from as usize]
    }

    /// Whether every sender has ended a level, so that the level is closed.
    pub fn closed(&self, level: u16) -> bool
        ensures { IsTrue result ↔ HaveAllEndedLevel level self.now.ended }
    {
        self.ended.iter().all(|count| *count > level)
    }

    /// Whether every sender has ended all levels.
    pub fn all_closed(&self) -> bool
        ensures { IsTrue result ↔ HaveAllEnded self.now.levels self.now.ended }
    {
        let levels = self.levels;
        self.ended.iter().all(|count| *count == levels)
    }
}
