// Graphs: that operations succeed if memory is ample, and that each has only one node.
use pair_graph::{Graph, GraphFault, Literal, Node};
use std::alloc::Global;
use std::test::Fail;

/// A graph of the variables 0 and 1, and their literals.
fn two_variables(alloc: Global) -> Result<(Graph, Literal, Literal), GraphFault> {
    let mut graph = Graph::new(alloc)?;
    let a = graph.variable(0)?;
    let b = graph.variable(1)?;
    Ok((graph, a, b))
}

// The graph has the constant, the two variables, and one And for both orders of the operands.
#[test]
fn one_node_for_one_operation(rt: HostRuntime) -> Result<(), Fail> {
    let (mut graph, a, b) = two_variables(rt.alloc())?;
    assert!(rt; (a.node() as usize) < graph.len() && (b.node() as usize) < graph.len());
    let first = graph.and_of(a, b)?;
    assert!(rt; (a.node() as usize) < graph.len() && (b.node() as usize) < graph.len());
    let second = graph.and_of(b, a)?;
    assert!(rt; first == second && graph.len() == 4);
    assert!(rt; graph.as_slice().len() == 4 && (first.node() as usize) < graph.len());
    assert!(rt; graph.node(first.node()) == Node::And(a, b));
    Ok(())
}

// Xor nodes have no complemented operands: the answer is complemented instead.
#[test]
fn xor_of_complements(rt: HostRuntime) -> Result<(), Fail> {
    let (mut graph, a, b) = two_variables(rt.alloc())?;
    assert!(rt; (a.node() as usize) < graph.len() && (b.node() as usize) < graph.len());
    let plain = graph.xor_of(a, b)?;
    assert!(rt; (a.node() as usize) < graph.len() && (b.node() as usize) < graph.len());
    let other = graph.xor_of(b.negate(), a)?;
    assert!(rt; other == plain.negate() && other.is_complemented());
    assert!(rt; other.positive() == plain && graph.len() == 4);
    Ok(())
}

// NOT (a AND b) AND NOT (NOT a AND NOT b) is the Xor of a and b.
#[test]
fn three_ands_are_an_xor(rt: HostRuntime) -> Result<(), Fail> {
    let (mut graph, a, b) = two_variables(rt.alloc())?;
    assert!(rt; (a.node() as usize) < graph.len() && (b.node() as usize) < graph.len());
    let both = graph.and_of(a, b)?;
    assert!(rt; (a.node() as usize) < graph.len() && (b.node() as usize) < graph.len());
    let none = graph.and_of(a.negate(), b.negate())?;
    assert!(rt; (both.node() as usize) < graph.len() && (none.node() as usize) < graph.len());
    let made = graph.and_of(both.negate(), none.negate())?;
    assert!(rt; (made.node() as usize) < graph.len());
    assert!(rt; graph.node(made.node()) == Node::Xor(a, b) && graph.len() == 6);
    Ok(())
}

// Trivial cases need no node.
#[test]
fn trivial_cases(rt: HostRuntime) -> Result<(), Fail> {
    let (mut graph, a, _) = two_variables(rt.alloc())?;
    assert!(rt; (a.node() as usize) < graph.len() && 0 < graph.len());
    let none = graph.and_of(a, a.negate())?;
    assert!(rt; none == Literal::FALSE && none.is_constant());
    assert!(rt; (a.node() as usize) < graph.len() && 0 < graph.len());
    let same = graph.and_of(Literal::TRUE, a)?;
    assert!(rt; same == a && same.word() == a.word());
    assert!(rt; (a.node() as usize) < graph.len() && 0 < graph.len());
    let opposite = graph.xor_of(Literal::TRUE, a)?;
    assert!(rt; opposite == a.complement_if(true) && graph.len() == 3);
    Ok(())
}
