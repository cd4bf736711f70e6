// Cuts: to which windows they grow, and in which order leaves come.
use cut_window::{Cut, CutKind, LeafOrder, NodeRanks, NodeTable, Window};
use pair_graph::{Graph, GraphFault, Literal};
use std::alloc::Global;
use std::test::Fail;

/// The And of two literals; the constant 0 if one of them is not of the graph.
pub(crate) fn and_of(graph: &mut Graph, a: Literal, b: Literal) -> Result<Literal, GraphFault> {
    if (a.node() as usize) < graph.len() && (b.node() as usize) < graph.len() {
        return graph.and_of(a, b);
    }
    Ok(Literal::FALSE)
}

/// A graph with the literals of (a AND b) AND c and of a AND (b AND c).
pub(crate) fn two_ways(alloc: Global) -> Result<(Graph, Literal, Literal), GraphFault> {
    let mut graph = Graph::new(alloc)?;
    let a = graph.variable(0)?;
    let b = graph.variable(1)?;
    let c = graph.variable(2)?;
    let ab = and_of(&mut graph, a, b)?;
    let first = and_of(&mut graph, ab, c)?;
    let bc = and_of(&mut graph, b, c)?;
    let second = and_of(&mut graph, a, bc)?;
    Ok((graph, first, second))
}

// Both cones meet at the variables, which are the nodes 1, 2 and 3.
#[test]
fn cut_at_variables(rt: HostRuntime) -> Result<(), Fail> {
    let (graph, first, second) = two_ways(rt.alloc())?;
    let mut ranks = NodeRanks::new(rt.alloc());
    ranks.extend(&graph)?;
    assert!(rt; ranks.at(first.node()) == 2 && ranks.at(1) == 0);
    let mut cut = Cut::new(rt.alloc());
    cut.start(&graph, second.node(), first.node(), CutKind::Shared)?;
    assert!(rt; cut.above() == 0 && cut.leaves().len() == 2 && !cut.is_at_variables(&graph));
    assert!(rt; cut.grow(&graph, &ranks, 8)? && cut.is_at_variables(&graph));
    assert!(rt; !cut.grow(&graph, &ranks, 8)? && cut.above() == 4);
    let roots = (second.node(), first.node());
    let window = cut.window(rt.alloc(), &graph, &ranks, roots, LeafOrder::Walk)?;
    assert!(rt; window.leaves() == 3);
    assert!(rt; window.nodes() == [2, 3, 1, 4, 5, 6, 7].as_slice());
    let forced = cut.window(rt.alloc(), &graph, &ranks, roots, LeafOrder::Force)?;
    assert!(rt; forced.leaves() == 3 && forced.nodes().len() == 7);
    Ok(())
}

// By rank the leaf of the highest rank is replaced first: one step takes the newer of the two nodes of rank 2.
#[test]
fn cut_by_rank(rt: HostRuntime) -> Result<(), Fail> {
    let (graph, first, second) = two_ways(rt.alloc())?;
    let mut ranks = NodeRanks::new(rt.alloc());
    ranks.extend(&graph)?;
    let mut cut = Cut::new(rt.alloc());
    cut.start(&graph, second.node(), first.node(), CutKind::Rank)?;
    assert!(rt; cut.grow(&graph, &ranks, 1)? && cut.above() == 1);
    Ok(())
}

#[test]
fn window_of_nodes(rt: HostRuntime) -> Result<(), Fail> {
    let window = Window::new(rt.alloc(), [5, 3, 5].as_slice(), [3, 8].as_slice())?;
    assert!(rt; window.leaves() == 2 && window.nodes() == [5, 3, 8].as_slice());
    assert!(rt; window.place(8) == Some(2) && window.place(4).is_none());
    Ok(())
}

#[test]
fn table_of_nodes(rt: HostRuntime) -> Result<(), Fail> {
    let mut table = NodeTable::new(rt.alloc());
    table.clear(4)?;
    table.set(2, 7)?;
    assert!(rt; table.get(2) == Some(7) && table.has(2) && !table.has(1));
    table.clear(4)?;
    assert!(rt; table.get(2).is_none());
    Ok(())
}
