//! What rounds of merging have learned, with which the next round begins.
use std::alloc::{AllocError, Global};

/// The most words, of 64 assignments each, that go from round to round. The last ones do.
const MOST_WORDS: usize = 64;

/// Assignments at which candidates differed, 64 in each word, and how much all rounds so far have done. The words are
/// hints: they change what is tried, but never whether an answer is right.
#[derive(Drop)]
pub struct Learned {
    alloc: Global,
    /// The words, each by level: the bits of the variables at 64 assignments.
    words: Vec<Vec<u64>>,
    merged: usize,
    windows: usize,
}

impl Learned {
    /// What is known before the first round: nothing.
    pub fn new(alloc: Global) -> Learned {
        Learned {
            alloc,
            words: Vec::new(alloc),
            merged: 0,
            windows: 0,
        }
    }

    /// How many nodes all rounds so far have merged with older ones.
    pub fn merged(&self) -> usize {
        self.merged
    }

    /// How many windows all rounds so far have judged.
    pub fn windows(&self) -> usize {
        self.windows
    }

    /// Counts what one more round has done.
    pub(crate) fn count(&mut self, merged: usize, windows: usize) {
        self.merged = self.merged.saturating_add(merged);
        self.windows = self.windows.saturating_add(windows);
    }

    /// A copy of the words.
    pub(crate) fn words(&self) -> Result<Vec<Vec<u64>>, AllocError> {
        let mut copy = Vec::new(self.alloc);
        for word in &self.words {
            copy.push(word.clone()?)?;
        }
        Ok(copy)
    }

    /// Adds one more word, the bits of the variables by level.
    pub(crate) fn add(&mut self, word: Vec<u64>) -> Result<(), AllocError> {
        if self.words.len() >= MOST_WORDS && !self.words.is_empty() {
            let _ = self.words.remove(0);
        }
        self.words.push(word)?;
        Ok(())
    }
}
