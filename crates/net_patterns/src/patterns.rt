//! Patterns: assignments that follow from the numbers of variables and of gates.
ghost use Rattle.std.specs.Prelude.{◌≡◌, ◌<◌, ◌≤◌, ◌+◌, ◌*◌, ◌^◌, ℕ, length, IfOk};
ghost use Rattle.net_simulate.specs.Columns.{bit_in, bit_in_block, column};

use crate::drawing::{drawn_word, has_bit, single_word};
use net_simulate::Block;
use std::alloc::{AllocError, Global};

/// The most gates times blocks that are evaluated, which bounds the time. But there are at least 8 blocks, and at most
/// 64.
const GATE_BLOCKS: usize = 4_000_000;

/// 512 assignments of so many variables in each of so many blocks, numbered from 0. They follow from these two numbers.
#[derive(Clone, Copy, Drop, Debug, PartialEq, Eq)]
pub struct Patterns {
    pub variables: usize,
    pub blocks: usize,
    ghost few: { blocks ≤ 64 },
}

impl Patterns {
    ghost use Rattle.net_patterns.specs.Patterns.{blocks_for, pattern, pattern_bit, pattern_count};

    /// The patterns for netlists of so many variables and gates: 4,096 for a million gates, up to 32,768 for few.
    pub fn of(variables: usize, gates: usize) -> Patterns
        ensures variables { result.variables ≡ variables }
        ensures blocks { result.blocks ≡ blocks_for gates }
    {
        Patterns {
            variables,
            blocks: (GATE_BLOCKS / gates.max(1)).max(8).min(64),
        }
    }

    /// The number of patterns.
    pub fn count(&self) -> usize
        ensures { result ≡ pattern_count self.now }
    {
        512 * self.blocks
    }

    /// The bits of a level in the 64 patterns from number 64 * word on.
    fn word(&self, word: usize, level: usize) -> u64
        requires word { word < 2 ^ 32 }
        requires level { level < self.now.variables }
        ensures { (i : ℕ) → i < 64 → bit_in i result ≡ pattern_bit self.now (64 * word + i) level }
    {
        let singles = (self.variables / 32 + 1).min(self.blocks * 4);
        if word < singles {
            single_word(word, level)
        } else {
            drawn_word(word, level)
        }
    }

    /// The bits of a level in the patterns of a block.
    fn level_block(&self, block: usize, level: usize) -> Block
        requires block { block < self.now.blocks }
        requires level { level < self.now.variables }
        ensures { (i : ℕ) → i < 512 → bit_in_block i result ≡ pattern_bit self.now (512 * block + i) level }
    {
        let mut words = [0; 8];
        for place in 0..8 {
            words[place] = self.word(8 * block + place, level);
        }
        words
    }

    /// Sets each level to its bits in the patterns of a block: bit i of all levels is pattern number 512 * block + i.
    pub fn set_block(&self, block: usize, at: &mut [Block])
        requires block { block < self.now.blocks }
        requires each { length at.old ≡ self.now.variables }
        ensures { (i : ℕ) → i < 512 → column bit_in_block i at.new ≡ pattern self.now (512 * block + i) }
    {
        for level in 0..at.len() {
            let words = self.level_block(block, level);
            at[level] = words;
        }
    }

    /// The pattern of this number, by level.
    pub fn assignment(&self, alloc: Global, number: usize) -> Result<Vec<bool>, AllocError>
        requires { number < pattern_count self.now }
        ensures { IfOk result (λ v. v.items ≡ pattern self.now number) }
    {
        let mut bits = Vec::new(alloc);
        for level in 0..self.variables {
            let word = self.word(number / 64, level);
            bits.push(has_bit(word, number % 64))?;
        }
        Ok(bits)
    }
}
