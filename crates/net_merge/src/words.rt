//! Words of values, each at 64 assignments.
use pair_graph::{Graph, Literal, Node};

/// The word at a place of a list; 0 beyond the end.
pub(crate) fn word_at(words: &[u64], place: usize) -> u64 {
    match words.get(place) {
        Some(word) => *word,
        None => 0,
    }
}

/// A word, complemented if `complemented` is true.
pub(crate) fn word_if(word: u64, complemented: bool) -> u64 {
    if complemented { !word } else { word }
}

/// A gate of the graph: an And or an Xor, with its operands.
#[derive(Clone, Copy, Drop)]
pub(crate) struct GateNode {
    pub(crate) is_and: bool,
    pub(crate) first: Literal,
    pub(crate) second: Literal,
}

/// The gate that a node is; None for the constant, a variable, or a number that is no node.
pub(crate) fn gate_of(graph: &Graph, node: u32) -> Option<GateNode> {
    if node as usize >= graph.len() {
        return None;
    }
    match graph.node(node) {
        Node::And(first, second) => Some(GateNode {
            is_and: true,
            first,
            second,
        }),
        Node::Xor(first, second) => Some(GateNode {
            is_and: false,
            first,
            second,
        }),
        _ => None,
    }
}

/// The level of the variable that a node is; None if it is no variable.
pub(crate) fn variable_of(graph: &Graph, node: u32) -> Option<u32> {
    if node as usize >= graph.len() {
        return None;
    }
    match graph.node(node) {
        Node::Variable(level) => Some(level),
        _ => None,
    }
}

impl GateNode {
    /// The gate's word, from those of its operands' nodes.
    pub(crate) fn word(self, first: u64, second: u64) -> u64 {
        let first = word_if(first, self.first.is_complemented());
        let second = word_if(second, self.second.is_complemented());
        if self.is_and {
            first & second
        } else {
            first ^ second
        }
    }
}
