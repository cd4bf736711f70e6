//! Values above a cut at random bits of its leaves, which show most differences without a window. They are hints.
use crate::random::Random;
use crate::words::{gate_of, word_if};
use cut_window::{Cut, NodeTable};
use pair_graph::{Graph, Literal};
use std::alloc::{AllocError, Global};

/// How often the leaves get random words, each of 64 assignments, before a difference is thought unlikely.
const WORDS: usize = 4;

/// Keeps the random words of windows apart from others.
const WINDOWS: u64 = 3;

/// Evaluates windows at random bits of their leaves.
#[derive(Drop)]
pub(crate) struct WindowValues {
    random: Random,
    values: NodeTable,
    /// The number of the bit at which the last difference was found.
    lane: u32,
}

impl WindowValues {
    /// An evaluation that has not seen a window yet.
    pub(crate) fn new(alloc: Global) -> WindowValues {
        WindowValues {
            random: Random::of(WINDOWS, 0),
            values: NodeTable::new(alloc),
            lane: 0,
        }
    }

    /// Begins the random words of a number. So what windows of a pair show does not depend on the pairs before.
    pub(crate) fn restart(&mut self, number: u64) {
        self.random = Random::of(WINDOWS, number);
    }

    /// Whether two literals are seen to differ at some bits of a cut's leaves, also if one of the two is taken as its complement. The nodes
    /// above the leaves are sorted.
    pub(crate) fn tell_apart(
        &mut self,
        graph: &Graph,
        cut: &Cut,
        first: Literal,
        second: Literal,
    ) -> Result<bool, AllocError> {
        for _ in 0..WORDS {
            self.evaluate(graph, cut)?;
            let differ = self.word(first) ^ self.word(second);
            if differ != 0 {
                self.lane = differ.trailing_zeros();
                return Ok(true);
            }
        }
        Ok(false)
    }

    /// The bit of a leaf at the difference that was found last.
    pub(crate) fn bit(&self, leaf: u32) -> bool {
        self.values.get(leaf).unwrap_or(0).rotate_right(self.lane) % 2 == 1
    }

    /// The word of a literal.
    fn word(&self, literal: Literal) -> u64 {
        let word = self.values.get(literal.node()).unwrap_or(0);
        word_if(word, literal.is_complemented())
    }

    /// Gives the leaves of a cut random words, and the nodes above them theirs.
    fn evaluate(&mut self, graph: &Graph, cut: &Cut) -> Result<(), AllocError> {
        self.values.clear(graph.len())?;
        self.values.set(0, 0)?;
        for leaf in cut.leaves() {
            self.values.set(*leaf, self.random.word())?;
        }
        for node in cut.nodes_above() {
            if let Some(gate) = gate_of(graph, *node) {
                let first = self.values.get(gate.first.node()).unwrap_or(0);
                let second = self.values.get(gate.second.node()).unwrap_or(0);
                self.values.set(*node, gate.word(first, second))?;
            }
        }
        Ok(())
    }
}
