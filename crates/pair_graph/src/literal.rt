//! Literals.
ghost use Rattle.std.specs.Prelude.{◌≡◌, ◌<◌, ◌^◌, ◌↔◌, Bool, IsTrue, List, not};
ghost use Rattle.pair_graph.specs.declared.node.Node.{Node as NodeValue};
ghost use Rattle.pair_graph.specs.Graphs.{value};
ghost use Rattle.pair_graph.specs.Literals.{complemented_if, negated, positive_of, word_of};

use std::marker::Model;

/// A node of a graph, or its complement, in four bytes.
#[derive(Clone, Copy, Debug, PartialEq, Eq)]
pub struct Literal {
    /// Bit 0 is set for the complement; the other bits are the node's number.
    word: u32,
}

const _: () = prove!(size_of::<Literal>() == 4);

impl Model for Literal {
    ghost use Rattle.pair_graph.specs.Literals.{Parts, parts_of, word_of};
    ghost use Rattle.pair_graph.specs.LiteralLaws.{word_of-parts_of};

    ghost Value = { Parts };

    ghost view = { λ l. parts_of l.word };

    ghost inverse = { λ p. record { word = word_of p } };

    ghost inverse_ok = { λ l h i. record { word = word_of-parts_of l.word i } };
}

impl Literal {
    /// The constant 0.
    pub const FALSE: Literal = Literal { word: 0 };
    /// The constant 1.
    pub const TRUE: Literal = Literal { word: 1 };

    /// Returns the literal of a node, or of its complement if `complemented` is set.
    pub fn new(node: u32, complemented: bool) -> Literal
        requires { node < 2 ^ 31 }
        ensures { result ≡ record { node = node; complemented = complemented } }
    {
        Literal {
            word: node * 2 + complemented as u32,
        }
    }

    /// Returns the number of the literal's node.
    pub fn node(self) -> u32
        ensures value { result ≡ self.node }
        ensures small { result < 2 ^ 31 }
    {
        self.word / 2
    }

    /// Whether the literal is the complement of its node.
    pub fn is_complemented(self) -> bool
        ensures { result ≡ self.complemented }
    {
        self.word % 2 == 1
    }

    /// Whether the literal is one of the two constants.
    pub fn is_constant(self) -> bool
        ensures { IsTrue result ↔ (self.node ≡ 0) }
    {
        self.word < 2
    }

    /// Returns the complement if `complemented` is set, and otherwise the literal itself.
    pub fn complement_if(self, complemented: bool) -> Literal
        ensures { result ≡ complemented_if complemented self }
    {
        Literal {
            word: self.word ^ complemented as u32,
        }
    }

    /// Returns the literal of the same node that is not complemented.
    pub fn positive(self) -> Literal
        ensures { result ≡ positive_of self }
    {
        Literal::new(self.node(), false)
    }

    /// Returns the complement.
    pub fn negate(self) -> Literal
        ensures value { result ≡ negated self }
        ensures meaning { (g : List NodeValue) (x : List Bool) → value g x result ≡ not (value g x self) }
    {
        self.complement_if(true)
    }

    /// Returns the literal as a number, its word. Different literals have different words.
    pub fn word(self) -> u32
        ensures { result ≡ word_of self }
    {
        self.word
    }
}
