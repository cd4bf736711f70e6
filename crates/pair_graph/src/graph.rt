//! The graph, and the operations that add to it.
ghost use Rattle.std.specs.Prelude.{◌≡◌, ◌<◌, ◌^◌, ◌&&◌, [], ◌∷◌, Bool, List, not, Some, Err, IfOk, IfSome, OnErr, length, slice_get};
ghost use Rattle.pair_graph.specs.Graphs.{AreBelow, HasNode, KeepsNodes, IsGraph, bit, exclusive_or, value};
ghost use Rattle.slot_table.specs.Lists.{IsOnce};

use crate::literal::Literal;
use crate::node::Node;
use crate::trivial::{in_order, one_complemented, trivial_and, trivial_xor};
use slot_table::{Admission, Refusal, SlotTable};
use std::alloc::{AllocError, Global};
use std::marker::Model;

/// The most nodes of a graph, since a literal has 31 bits for the number of a node.
const MAX_NODES: u64 = 1 << 31;

/// An And-Xor graph with structural hashing (Kuehlmann and Krohm 1997): a list of nodes by number, in which each
/// operation on the same two literals is once.
#[derive(Drop)]
pub struct Graph {
    nodes: SlotTable<Node>,
}

impl Model for Graph {
    ghost use Rattle.std.specs.Prelude.{List};
    ghost use Rattle.pair_graph.specs.declared.node.Node.{Node};
    ghost use Rattle.pair_graph.specs.Graphs.{IsGraph};

    ghost Value = { List Node };

    ghost view = { λ g. g.nodes };

    ghost invariant = { λ g. IsGraph g.nodes };
}

/// Why a graph has not made a node. The graph is as before.
#[derive(Clone, Copy, Debug, PartialEq, Eq)]
pub enum GraphFault {
    /// The graph has as many nodes as literals can name.
    Full,
    /// Memory was refused.
    OutOfMemory,
}

impl From<AllocError> for GraphFault {
    ghost use Rattle.std.specs.Prelude.{◌≡◌};
    ghost use Rattle.pair_graph.specs.declared.graph.GraphFault.TheVariants.{OutOfMemory};

    ghost from_gives = { λ _ fault. fault ≡ OutOfMemory };

    fn from(_fault: AllocError) -> GraphFault {
        GraphFault::OutOfMemory
    }
}

impl Graph {
    /// Returns a graph that has only the constant.
    pub fn new(alloc: Global) -> Result<Graph, GraphFault>
        ensures constant { IfOk result (λ g. g ≡ Node.Constant ∷ []) }
        ensures memory { OnErr result (result ≡ Err GraphFault.OutOfMemory) }
    {
        let mut nodes = SlotTable::new(alloc);
        match nodes.find_or_add(Node::Constant, 1) {
            Ok(_) => Ok(Graph { nodes }),
            Err(_) => Err(GraphFault::OutOfMemory),
        }
    }

    /// Returns the number of nodes. The clause `sound` is true of every graph; a caller gets it by this call.
    pub fn len(&self) -> usize
        ensures value { result ≡ length self.now }
        ensures sound { IsGraph self.now }
    {
        self.nodes.len()
    }

    /// Returns the node that has this number.
    pub fn node(&self, number: u32) -> Node
        requires { number < length self.now }
        ensures value { slice_get self.now number ≡ Some result }
        ensures sound { IsGraph self.now }
        ensures below { AreBelow number result }
    {
        self.nodes.at(number as usize)
    }

    /// Returns the nodes, by number.
    pub fn as_slice(&self) -> &[Node]
        ensures all { result.now ≡ self.now }
        ensures once { IsOnce self.now }
    {
        self.nodes.as_slice()
    }

    /// Returns the number of a node, which is added at the end if the graph does not have it.
    fn add(&mut self, node: Node) -> Result<u32, GraphFault>
        requires { AreBelow (length self.old) node }
        ensures place { IfOk result (λ n. slice_get self.new n ≡ Some node) }
        ensures low { IfOk result (λ n. n < length self.new) }
        ensures small { IfOk result (λ n. n < 2 ^ 31) }
        ensures sound { IsGraph self.new }
        ensures keeps { KeepsNodes self.old self.new }
        ensures refused { OnErr result (self.new ≡ self.old) }
        ensures full { result ≡ Err GraphFault.Full → length self.old ≡ 2 ^ 31 }
    {
        let room = MAX_NODES - self.nodes.len() as u64;
        match self.nodes.find_or_add(node, room) {
            Ok(Admission::Found(place)) => Ok(place),
            Ok(Admission::Added(place)) => Ok(place),
            Err(Refusal::Full) => Err(GraphFault::Full),
            Err(Refusal::OutOfMemory) => Err(GraphFault::OutOfMemory),
        }
    }

    /// Returns the literal whose value is the bit of this variable.
    pub fn variable(&mut self, number: u32) -> Result<Literal, GraphFault>
        ensures value { IfOk result (λ l. (x : List Bool) → value self.new x l ≡ bit x number) }
        ensures has { IfOk result (HasNode self.new) }
        ensures sound { IsGraph self.new }
        ensures keeps { KeepsNodes self.old self.new }
        ensures refused { OnErr result (self.new ≡ self.old) }
        ensures full { result ≡ Err GraphFault.Full → length self.old ≡ 2 ^ 31 }
    {
        let place = self.add(Node::Variable(number))?;
        Ok(Literal::new(place, false))
    }

    /// Returns the operands p and q if a literal is NOT (p AND q), and otherwise none.
    fn nand_operands(&self, literal: Literal) -> Option<(Literal, Literal)>
        requires { HasNode self.now literal }
        ensures first { IfSome result (λ p. HasNode self.now p.0) }
        ensures second { IfSome result (λ p. HasNode self.now p.1) }
        ensures value { IfSome result (λ p. (x : List Bool) →
            value self.now x literal ≡ not (value self.now x p.0 && value self.now x p.1)) }
    {
        let _ = self.len(); // For the proof.
        if !literal.is_complemented() {
            return None;
        }
        match self.node(literal.node()) {
            Node::And(p, q) => Some((p, q)),
            _ => None,
        }
    }

    /// Returns p and q if the two literals are NOT (p AND q) and NOT (NOT p AND NOT q), whose And is the Xor of p and
    /// q; otherwise none.
    fn xor_operands(&self, first: Literal, second: Literal) -> Option<(Literal, Literal)>
        requires first { HasNode self.now first }
        requires second { HasNode self.now second }
        ensures first { IfSome result (λ p. HasNode self.now p.0) }
        ensures second { IfSome result (λ p. HasNode self.now p.1) }
        ensures value { IfSome result (λ p. (x : List Bool) →
            exclusive_or (value self.now x p.0) (value self.now x p.1) ≡ (value self.now x first && value self.now x second)) }
    {
        let (p, q) = self.nand_operands(first)?;
        let (r, s) = self.nand_operands(second)?;
        if r == p.negate() && s == q.negate() {
            Some((p, q))
        } else {
            None
        }
    }

    /// Returns the literal whose value is the And of two. In a trivial case it is one of the operands or a constant,
    /// and needs no node. An Xor that is built of three Ands becomes one node of Xor.
    pub fn and_of(&mut self, first: Literal, second: Literal) -> Result<Literal, GraphFault>
        requires first { HasNode self.old first }
        requires second { HasNode self.old second }
        ensures value { IfOk result (λ l. (x : List Bool) → value self.new x l ≡ (value self.old x first && value self.old x second)) }
        ensures has { IfOk result (HasNode self.new) }
        ensures sound { IsGraph self.new }
        ensures keeps { KeepsNodes self.old self.new }
        ensures refused { OnErr result (self.new ≡ self.old) }
        ensures full { result ≡ Err GraphFault.Full → length self.old ≡ 2 ^ 31 }
    {
        let _ = self.len(); // For the proof.
        if let Some(answer) = trivial_and(first, second) {
            return Ok(answer);
        }
        if let Some((p, q)) = self.xor_operands(first, second) {
            return self.xor_of(p, q);
        }
        let (low, high) = in_order(first, second);
        let place = self.add(Node::And(low, high))?;
        Ok(Literal::new(place, false))
    }

    /// Returns the literal whose value is the Xor of two. The operands of its node are never complemented; the returned
    /// literal is, if exactly one of the two is. In a trivial case no node is needed.
    pub fn xor_of(&mut self, first: Literal, second: Literal) -> Result<Literal, GraphFault>
        requires first { HasNode self.old first }
        requires second { HasNode self.old second }
        ensures value { IfOk result (λ l. (x : List Bool) →
            value self.new x l ≡ exclusive_or (value self.old x first) (value self.old x second)) }
        ensures has { IfOk result (HasNode self.new) }
        ensures sound { IsGraph self.new }
        ensures keeps { KeepsNodes self.old self.new }
        ensures refused { OnErr result (self.new ≡ self.old) }
        ensures full { result ≡ Err GraphFault.Full → length self.old ≡ 2 ^ 31 }
    {
        let _ = self.len(); // For the proof.
        if let Some(answer) = trivial_xor(first, second) {
            return Ok(answer);
        }
        let (low, high) = in_order(first.positive(), second.positive());
        let place = self.add(Node::Xor(low, high))?;
        Ok(Literal::new(place, one_complemented(first, second)))
    }
}
