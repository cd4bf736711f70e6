//! Words of learned assignments, in which a node has its value only once it is asked for.
use crate::random::Random;
use crate::words::{gate_of, variable_of, word_at, word_if};
use pair_graph::Graph;
use std::alloc::{AllocError, Global};

/// How many assignments a word has.
const BITS: u32 = 64;

/// Keeps the random bits of learned words apart from others.
const LEARNED: u64 = 4;

/// 64 assignments at once: the variables' words by level, and by node the word of each node that was asked for since they last changed. So
/// an assignment more takes a pass over the variables, and not over all nodes.
#[derive(Drop)]
pub(crate) struct LearnedWord {
    random: Random,
    variables: Vec<u64>,
    words: Vec<u64>,
    /// A bit for each node whose word is known.
    known: Vec<u64>,
    stack: Vec<u32>,
    /// How many assignments are taken.
    taken: u32,
    /// How many words were computed, in all.
    evaluated: u64,
}

impl LearnedWord {
    /// The word of this number, of which no assignment is taken.
    pub(crate) fn new(alloc: Global, number: usize) -> LearnedWord {
        LearnedWord {
            random: Random::of(LEARNED, number as u64),
            variables: Vec::new(alloc),
            words: Vec::new(alloc),
            known: Vec::new(alloc),
            stack: Vec::new(alloc),
            taken: 0,
            evaluated: 0,
        }
    }

    /// Whether all its assignments are taken.
    pub(crate) fn is_full(&self) -> bool {
        self.taken >= BITS
    }

    /// How many words were computed, in all.
    pub(crate) fn evaluated(&self) -> u64 {
        self.evaluated
    }

    /// By level, the variables' words.
    pub(crate) fn variables(&self) -> &[u64] {
        self.variables.as_slice()
    }

    /// Takes one more assignment. Those of the word that are not taken yet become neighbours of it.
    pub(crate) fn learn(&mut self, assignment: &[(u32, bool)]) -> Result<(), AllocError> {
        let here = 1u64.rotate_left(self.taken);
        let rest = !here.wrapping_sub(1);
        self.taken = self.taken.saturating_add(1);
        for word in self.variables.iter_mut() {
            *word = (*word & !rest) | (self.random.word() & rest);
        }
        for (level, bit) in assignment {
            let old = self.variable(*level)?;
            let flips = self.random.word() & self.random.word() & self.random.word();
            let word = word_if(0, *bit) ^ (flips & !here);
            let place = *level as usize;
            if place < self.variables.len() {
                self.variables[place] = (old & !rest) | (word & rest);
            }
        }
        self.known.fill(0);
        let passed = self.variables.len().saturating_add(self.known.len()) as u64;
        self.evaluated = self.evaluated.saturating_add(passed);
        Ok(())
    }

    /// The word of a node.
    pub(crate) fn word(&mut self, graph: &Graph, node: u32) -> Result<u64, AllocError> {
        if let Some(word) = self.get(node) {
            return Ok(word);
        }
        self.stack.clear();
        self.stack.push(node)?;
        for _ in 0..u64::MAX {
            let Some(next) = self.stack.pop() else {
                break;
            };
            if self.get(next).is_none() {
                self.evaluate(graph, next)?;
            }
        }
        Ok(self.get(node).unwrap_or(0))
    }

    /// The word of a node, if it is known.
    fn get(&self, node: u32) -> Option<u64> {
        let known = word_at(self.known.as_slice(), (node / BITS) as usize);
        if known.rotate_right(node % BITS) % 2 == 0 {
            return None;
        }
        Some(word_at(self.words.as_slice(), node as usize))
    }

    /// Gives a node its word.
    fn set(&mut self, node: u32, word: u64) -> Result<(), AllocError> {
        let place = node as usize;
        if place >= self.words.len() {
            let count = place.saturating_add(place / 2).saturating_add(1);
            self.words.resize(count, 0)?;
            self.known.resize(count / 64 + 1, 0)?;
        }
        let bits = (node / BITS) as usize;
        if place < self.words.len() && bits < self.known.len() {
            self.words[place] = word;
            self.known[bits] |= 1u64.rotate_left(node % BITS);
        }
        self.evaluated = self.evaluated.saturating_add(1);
        Ok(())
    }

    /// The word of the variable of a level: random bits, if none were learned.
    fn variable(&mut self, level: u32) -> Result<u64, AllocError> {
        for _ in self.variables.len()..(level as usize).saturating_add(1) {
            self.variables.push(self.random.word())?;
        }
        Ok(word_at(self.variables.as_slice(), level as usize))
    }

    /// Gives a node its word, or puts it on the stack again below the operand that has none.
    fn evaluate(&mut self, graph: &Graph, node: u32) -> Result<(), AllocError> {
        let Some(gate) = gate_of(graph, node) else {
            let word = match variable_of(graph, node) {
                Some(level) => self.variable(level)?,
                None => 0,
            };
            return self.set(node, word);
        };
        match (self.get(gate.first.node()), self.get(gate.second.node())) {
            (Some(first), Some(second)) => self.set(node, gate.word(first, second)),
            (None, _) => self.postpone(node, gate.first.node()),
            (_, None) => self.postpone(node, gate.second.node()),
        }
    }

    /// Puts a node on the stack again, below one of its operands.
    fn postpone(&mut self, node: u32, operand: u32) -> Result<(), AllocError> {
        self.stack.push(node)?;
        self.stack.push(operand)?;
        Ok(())
    }
}
