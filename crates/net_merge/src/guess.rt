//! Guesses: assignments at which two literals may differ. They are hints: the merger evaluates each before it relies on it.
use crate::assignment::{Assignment, add_bit};
use crate::random::Random;
use crate::words::{GateNode, gate_of, word_if};
use cut_window::NodeTable;
use pair_graph::{Graph, Literal};
use std::alloc::{AllocError, Global};
use std::collections::BinaryHeap;

/// Keeps the random words of guesses apart from others.
const GUESSES: u64 = 2;

/// Searches for assignments at which two literals differ, 64 at once: different values are required of the two nodes,
/// and then of the nodes below them the values that bring these about (backward justification, as in the generation of
/// test patterns). If there is a choice, it is made at random, and never revised; so a guess may fail.
#[derive(Drop)]
pub(crate) struct Guess {
    random: Random,
    /// For each node, at which of the 64 assignments a value is required.
    places: NodeTable,
    required: NodeTable,
    values: NodeTable,
    waiting: BinaryHeap<u32>,
    stack: Vec<u32>,
    /// The nodes that are no gates and have a value.
    sources: Vec<u32>,
    /// How many gates were looked at since this was asked last.
    gates: u64,
}

impl Guess {
    /// A search that has not made a guess yet.
    pub(crate) fn new(alloc: Global) -> Guess {
        Guess {
            random: Random::of(GUESSES, 0),
            places: NodeTable::new(alloc),
            required: NodeTable::new(alloc),
            values: NodeTable::new(alloc),
            waiting: BinaryHeap::new(alloc),
            stack: Vec::new(alloc),
            sources: Vec::new(alloc),
            gates: 0,
        }
    }

    /// How many gates were looked at since this was asked last.
    pub(crate) fn take_gates(&mut self) -> u64 {
        let gates = self.gates;
        self.gates = 0;
        gates
    }

    /// Begins the random words of a number. So what is guessed of a pair does not depend on the pairs before.
    pub(crate) fn restart(&mut self, number: u64) {
        self.random = Random::of(GUESSES, number);
    }

    /// Finds an assignment at which two literals differ, and adds it to one that is empty. Whether one was found.
    pub(crate) fn find(
        &mut self,
        graph: &Graph,
        first: Literal,
        second: Literal,
        assignment: &mut Assignment,
    ) -> Result<bool, AllocError> {
        self.require_difference(graph, first, second)?;
        self.values.clear(graph.len())?;
        self.sources.clear();
        let one = self.word(graph, first)?;
        let two = self.word(graph, second)?;
        let differ = one ^ two;
        if differ == 0 {
            return Ok(false);
        }
        let lane = differ.trailing_zeros();
        for node in &self.sources {
            let word = self.values.get(*node).unwrap_or(0);
            add_bit(assignment, graph, *node, word.rotate_right(lane) % 2 == 1)?;
        }
        Ok(true)
    }

    /// Requires different values of two literals, and of the nodes below them the values that bring these about, as far
    /// as this is easy.
    fn require_difference(
        &mut self,
        graph: &Graph,
        first: Literal,
        second: Literal,
    ) -> Result<(), AllocError> {
        self.places.clear(graph.len())?;
        self.required.clear(graph.len())?;
        self.waiting.clear();
        let toss = self.random.word();
        if first.node() > second.node() {
            self.require(first, u64::MAX, toss)?;
            self.require(second, u64::MAX, !toss)?;
        } else {
            self.require(second, u64::MAX, toss)?;
            self.require(first, u64::MAX, !toss)?;
        }
        for _ in 0..u64::MAX {
            let Some(node) = self.waiting.pop() else {
                break;
            };
            self.gates = self.gates.saturating_add(1);
            if let Some(gate) = gate_of(graph, node) {
                self.require_operands(node, gate)?;
            }
        }
        Ok(())
    }

    /// Requires values of a literal at the assignments `at`. What was required before does not change.
    fn require(&mut self, literal: Literal, at: u64, values: u64) -> Result<(), AllocError> {
        let node = literal.node();
        if node == 0 || at == 0 {
            return Ok(());
        }
        let there = match self.places.get(node) {
            Some(there) => there,
            None => {
                self.waiting.push(node)?;
                0
            }
        };
        let more = at & !there;
        let old = self.required.get(node).unwrap_or(0);
        let values = word_if(values, literal.is_complemented());
        self.places.set(node, there | more)?;
        self.required.set(node, old | (more & values))
    }

    /// At which assignments a value is required of a literal, and these values.
    fn required_of(&self, literal: Literal) -> (u64, u64) {
        let complemented = literal.is_complemented();
        if literal.node() == 0 {
            return (u64::MAX, word_if(0, complemented));
        }
        let at = self.places.get(literal.node()).unwrap_or(0);
        let values = self.required.get(literal.node()).unwrap_or(0);
        (at, word_if(values, complemented) & at)
    }

    /// Requires of a gate's operands what brings about the values required of the gate.
    fn require_operands(&mut self, node: u32, gate: GateNode) -> Result<(), AllocError> {
        let at = self.places.get(node).unwrap_or(0);
        let values = self.required.get(node).unwrap_or(0);
        let (first_at, first) = self.required_of(gate.first);
        let (second_at, second) = self.required_of(gate.second);
        let coin = self.random.word();
        if gate.is_and {
            self.require(gate.first, at & values, u64::MAX)?;
            self.require(gate.second, at & values, u64::MAX)?;
            let open = at & !values & !(first_at & !first) & !(second_at & !second);
            let by_first = open & ((coin & !(first_at & first)) | (second_at & second));
            self.require(gate.first, by_first, 0)?;
            return self.require(gate.second, open & !by_first, 0);
        }
        let wanted = (second_at & (second ^ values)) | (!second_at & coin);
        self.require(gate.first, at & !first_at, wanted)?;
        let (first_at, first) = self.required_of(gate.first);
        self.require(gate.second, at & first_at, first ^ values)
    }

    /// The value of a literal at the 64 assignments, if the variables have the bits required of them, and otherwise random bits.
    fn word(&mut self, graph: &Graph, literal: Literal) -> Result<u64, AllocError> {
        self.stack.clear();
        self.stack.push(literal.node())?;
        for _ in 0..u64::MAX {
            let Some(node) = self.stack.pop() else {
                break;
            };
            if !self.values.has(node) {
                self.evaluate(graph, node)?;
            }
        }
        let word = self.values.get(literal.node()).unwrap_or(0);
        Ok(word_if(word, literal.is_complemented()))
    }

    /// Gives a node its value, or puts it back on the stack below an operand that has none yet.
    fn evaluate(&mut self, graph: &Graph, node: u32) -> Result<(), AllocError> {
        self.gates = self.gates.saturating_add(1);
        let Some(gate) = gate_of(graph, node) else {
            let at = self.places.get(node).unwrap_or(0);
            let values = self.required.get(node).unwrap_or(0);
            let word = if node == 0 {
                0
            } else {
                values | (self.random.word() & !at)
            };
            self.sources.push(node)?;
            return self.values.set(node, word);
        };
        match (
            self.values.get(gate.first.node()),
            self.values.get(gate.second.node()),
        ) {
            (Some(first), Some(second)) => self.values.set(node, gate.word(first, second))?,
            (None, _) => {
                self.stack.push(node)?;
                self.stack.push(gate.first.node())?;
            }
            (_, None) => {
                self.stack.push(node)?;
                self.stack.push(gate.second.node())?;
            }
        }
        Ok(())
    }
}
