//! Signatures: the values of nodes at random assignments, by which candidates are found. They are hints, of which nothing is promised.
use crate::learned::Learned;
use crate::learned_word::LearnedWord;
use crate::random::Random;
use crate::words::{GateNode, gate_of, variable_of, word_at, word_if};
use pair_graph::{Graph, Literal};
use std::alloc::{AllocError, Global};
use std::collections::HashMap;

/// How many words of random values each node has, besides those for assignments that earlier rounds have learned.
const WORDS: usize = 64;

/// A node is rarely 1 if it is 1 at no more than so many of its assignments.
const RARE: u32 = 8;

/// The most nodes of a class that can be candidates.
const MOST_IN_CLASS: u32 = 256;

/// Nodes with equal or complementary values at all random assignments: the first and the last node of a linked list, and its length.
#[derive(Clone, Copy, Drop)]
struct Class {
    first: u32,
    last: u32,
    count: u32,
}

/// The values of all nodes at random and learned assignments, and the classes of nodes with equal or complementary random values.
#[derive(Drop)]
pub(crate) struct Signatures {
    alloc: Global,
    random: Random,
    /// What earlier rounds have learned: words of the variables, by level.
    kept: Vec<Vec<u64>>,
    /// For each node `WORDS` words, and one for each word of `kept`, node after node.
    words: Vec<u64>,
    /// For each node a number that is the same for equal and for complementary words.
    keys: Vec<u64>,
    /// Words of assignments at which nodes of one class differ.
    learned: Vec<LearnedWord>,
    classes: HashMap<u64, Class>,
    /// For each node the next one of its class; 0 for the last.
    next: Vec<u32>,
}

/// A node's key with one more word.
fn fold_key(key: u64, word: u64) -> u64 {
    let mixed = (key ^ word).wrapping_mul(0x9E37_79B9_7F4A_7C15);
    mixed ^ (mixed >> 32)
}

impl Signatures {
    /// Signatures without nodes, over random assignments and those that earlier rounds have learned.
    pub(crate) fn new(alloc: Global, learned: &Learned) -> Result<Signatures, AllocError> {
        Ok(Signatures {
            alloc,
            random: Random::new(1),
            kept: learned.words()?,
            words: Vec::new(alloc),
            keys: Vec::new(alloc),
            learned: Vec::new(alloc),
            classes: HashMap::new(alloc),
            next: Vec::new(alloc),
        })
    }

    /// Gives the nodes that the graph has got since their values. Those that are no gates become candidates.
    pub(crate) fn extend(&mut self, graph: &Graph) -> Result<(), AllocError> {
        for node in self.keys.len()..graph.len() {
            let gate = gate_of(graph, node as u32);
            self.add_words(graph, node as u32, gate.as_ref())?;
            self.next.push(0)?;
            if gate.is_none() {
                self.add_to_class(node as u32)?;
            }
        }
        Ok(())
    }

    /// Gives a node its words, and its key.
    fn add_words(
        &mut self,
        graph: &Graph,
        node: u32,
        gate: Option<&GateNode>,
    ) -> Result<(), AllocError> {
        let mut key = 0;
        let mut is_flipped = false;
        for place in 0..self.width() {
            let word = self.new_word(graph, node, gate, place);
            if place == 0 {
                is_flipped = word % 2 == 1;
            }
            key = fold_key(key, word_if(word, is_flipped));
            self.words.push(word)?;
        }
        self.keys.push(key)?;
        Ok(())
    }

    /// The word at a place of a node that has none yet, a gate or not.
    fn new_word(&mut self, graph: &Graph, node: u32, gate: Option<&GateNode>, place: usize) -> u64 {
        match gate {
            Some(gate) => self.gate_word(gate, place),
            None => self.first_word(graph, node, place),
        }
    }

    /// How many words a node has, without those learned in this round.
    fn width(&self) -> usize {
        WORDS.saturating_add(self.kept.len())
    }

    /// The word of a gate at a place, of the random ones or of those that are kept.
    fn gate_word(&self, gate: &GateNode, place: usize) -> u64 {
        let first = self.word(gate.first.node(), place);
        let second = self.word(gate.second.node(), place);
        gate.word(first, second)
    }

    /// The word of a node that is no gate.
    fn first_word(&mut self, graph: &Graph, node: u32, place: usize) -> u64 {
        match variable_of(graph, node) {
            Some(level) if place >= WORDS => self.kept_word(level, place.wrapping_sub(WORDS)),
            Some(_) => self.random_word(place),
            None => 0,
        }
    }

    /// The word of the variable of a level, at a place of the words of earlier rounds.
    fn kept_word(&self, level: u32, place: usize) -> u64 {
        match self.kept.get(place) {
            Some(word) => word_at(word.as_slice(), level as usize),
            None => 0,
        }
    }

    /// A random word of a variable. In half of the words 0 and 1 are equally likely; a quarter are mostly 0, and a quarter mostly 1.
    fn random_word(&mut self, place: usize) -> u64 {
        let word = self.random.word();
        match place % 4 {
            2 => word & self.random.word() & self.random.word(),
            3 => word | self.random.word() | self.random.word(),
            _ => word,
        }
    }

    /// The word of a node at a place.
    fn word(&self, node: u32, place: usize) -> u64 {
        let at = (node as usize)
            .wrapping_mul(self.width())
            .wrapping_add(place);
        word_at(self.words.as_slice(), at)
    }

    /// A number that is the same for nodes of one class.
    pub(crate) fn key(&self, node: u32) -> u64 {
        word_at(self.keys.as_slice(), node as usize)
    }

    /// Adds a node to the class of its key, so that it becomes a candidate.
    pub(crate) fn add_to_class(&mut self, node: u32) -> Result<(), AllocError> {
        let key = self.key(node);
        let class = match self.classes.get(&key) {
            Some(class) => *class,
            None => {
                let class = Class {
                    first: node,
                    last: node,
                    count: 1,
                };
                self.classes.insert(key, class)?;
                return Ok(());
            }
        };
        if class.count >= MOST_IN_CLASS {
            return Ok(());
        }
        let last = class.last as usize;
        if last < self.next.len() {
            self.next[last] = node;
        }
        let class = Class {
            first: class.first,
            last: node,
            count: class.count.saturating_add(1),
        };
        self.classes.insert(key, class)?;
        Ok(())
    }

    /// Whether the first bit of a node's values is 1.
    fn is_flipped(&self, node: u32) -> bool {
        self.word(node, 0) % 2 == 1
    }

    /// Whether no learned word distinguishes two nodes of a class.
    fn agree(&mut self, graph: &Graph, node: u32, other: u32) -> Result<bool, AllocError> {
        let flip = self.is_flipped(node) != self.is_flipped(other);
        for place in 0..self.learned.len() {
            if let Some(learned) = self.learned.get_mut(place) {
                let one = learned.word(graph, node)?;
                let two = learned.word(graph, other)?;
                if one != word_if(two, flip) {
                    return Ok(false);
                }
            }
        }
        Ok(true)
    }

    /// How many words were computed for assignments that were learned.
    pub(crate) fn evaluated(&self) -> u64 {
        let mut count = 0u64;
        for learned in &self.learned {
            count = count.saturating_add(learned.evaluated());
        }
        count
    }

    /// Whether a node, or its complement, is 1 at only a few of its assignments.
    pub(crate) fn is_rare(&self, node: u32) -> bool {
        let mut ones = 0u32;
        let mut zeros = 0u32;
        for place in 0..self.width() {
            let word = self.word(node, place);
            ones = ones.saturating_add(word.count_ones());
            zeros = zeros.saturating_add(word.count_zeros());
        }
        ones.min(zeros) <= RARE
    }

    /// Whether the values of two literals differ, as far as they are known.
    pub(crate) fn tell_apart(
        &mut self,
        graph: &Graph,
        first: Literal,
        second: Literal,
    ) -> Result<bool, AllocError> {
        let (one, two) = (first.node(), second.node());
        let flip = self.is_flipped(one) != self.is_flipped(two);
        let opposite = first.is_complemented() != second.is_complemented();
        if self.key(one) != self.key(two) || flip != opposite {
            return Ok(true);
        }
        let agree = self.agree(graph, one, two)?;
        Ok(!agree)
    }

    /// Adds the words that this round has learned.
    pub(crate) fn save(&self, learned: &mut Learned) -> Result<(), AllocError> {
        for word in &self.learned {
            learned.add(Vec::from_slice(self.alloc, word.variables())?)?;
        }
        Ok(())
    }

    /// A literal that has the values of this one as far as they are known: of the first node of its class that nothing
    /// distinguishes from it.
    pub(crate) fn candidate(
        &mut self,
        graph: &Graph,
        literal: Literal,
    ) -> Result<Option<Literal>, AllocError> {
        let node = literal.node();
        let Some(class) = self.classes.get(&self.key(node)) else {
            return Ok(None);
        };
        let class = *class;
        let mut member = class.first;
        for _ in 0..class.count {
            if member != node && member < 1 << 31 && self.agree(graph, node, member)? {
                let flip = self.is_flipped(node) != self.is_flipped(member);
                return Ok(Some(Literal::new(member, flip != literal.is_complemented())));
            }
            match self.next.get(member as usize) {
                Some(next) => member = *next,
                None => return Ok(None),
            }
        }
        Ok(None)
    }

    /// Learns an assignment. The rest of its word are neighbours of it.
    pub(crate) fn learn(&mut self, assignment: &[(u32, bool)]) -> Result<(), AllocError> {
        let is_full = match self.learned.as_slice().last() {
            Some(last) => last.is_full(),
            None => true,
        };
        if is_full {
            let number = self.learned.len();
            self.learned.push(LearnedWord::new(self.alloc, number))?;
        }
        let last = self.learned.len().wrapping_sub(1);
        match self.learned.get_mut(last) {
            Some(word) => word.learn(assignment),
            None => Ok(()),
        }
    }
}
