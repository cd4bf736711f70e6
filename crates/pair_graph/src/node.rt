//! Nodes.
use crate::literal::Literal;
use slot_table::{SlotHash, mix};

/// A node of a graph: the constant 0, the variable with this number, or an operation on two literals of nodes with
/// lower numbers.
#[derive(Clone, Copy, Debug, PartialEq, Eq)]
pub enum Node {
    Constant,
    Variable(u32),
    And(Literal, Literal),
    Xor(Literal, Literal),
}

/// Bits above those of a literal's word, by which the hashes of an And and an Xor of the same operands differ.
const AND_BIT: u64 = 1 << 32;

const XOR_BIT: u64 = 1 << 33;

impl SlotHash for Node {
    ghost use Rattle.pair_graph.specs.Mixing.{slot_hash_of as slot_hash_of_node};
    ghost use Rattle.pair_graph.specs.Equal.{node_same};

    ghost slot_hash_of = { slot_hash_of_node };

    fn slot_hash(&self) -> u64 {
        match *self {
            Node::Constant => mix(0, 0),
            Node::Variable(number) => mix(1, number as u64),
            Node::And(first, second) => mix(AND_BIT + first.word() as u64, second.word() as u64),
            Node::Xor(first, second) => mix(XOR_BIT + first.word() as u64, second.word() as u64),
        }
    }

    ghost same = { node_same };
}
