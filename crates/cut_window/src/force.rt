//! The FORCE heuristic for the order of a window's leaves: Aloul, Markov and Sakallah, "FORCE: a
//! fast and easy-to-implement variable-ordering heuristic", GLSVLSI 2003.
use crate::node_table::NodeTable;
use crate::ranks::operands_of;
use pair_graph::Graph;
use std::alloc::{AllocError, Global};

/// Positions are in units of 1/65536.
const UNIT: u64 = 1 << 16;

/// How many times all positions are replaced by their ranks.
const TURNS: u32 = 3;

/// How many times each vertex is moved to the mean of its edges' centres before its position is replaced by its rank.
const STEPS: u32 = 15;

/// An edge joins a node above the leaves and its two operands, by their places among the vertices.
type Edge = (usize, usize, usize);

/// Returns the number at a place of a list, or 0 if there is none.
fn number_at(numbers: &[u64], place: usize) -> u64 {
    match numbers.get(place) {
        Some(number) => *number,
        None => 0,
    }
}

/// Adds to the number at a place, if there is one.
fn add_at(numbers: &mut [u64], place: usize, more: u64) {
    if place < numbers.len() {
        numbers[place] = numbers[place].wrapping_add(more);
    }
}

/// Returns the edges of a window, and puts into `at` a first position for each vertex: its place for a leaf, and for
/// another node the middle of its operands.
fn edges_of(
    alloc: Global,
    graph: &Graph,
    leaves: &[u32],
    above: &[u32],
    at: &mut Vec<u64>,
    places: &mut NodeTable,
) -> Result<Vec<Edge>, AllocError> {
    places.clear(graph.len())?;
    for leaf in leaves {
        places.set(*leaf, at.len() as u64)?;
        at.push((at.len() as u64).wrapping_mul(UNIT))?;
    }
    let mut edges = Vec::new(alloc);
    for node in above {
        let place = at.len();
        let (first, second) = operands_of(graph, *node).unwrap_or((0, 0));
        let first = places.get(first).unwrap_or(place as u64) as usize;
        let second = places.get(second).unwrap_or(place as u64) as usize;
        places.set(*node, place as u64)?;
        let sum = number_at(at.as_slice(), first).wrapping_add(number_at(at.as_slice(), second));
        at.push(sum / 2)?;
        edges.push((place, first, second))?;
    }
    Ok(edges)
}

/// Moves each vertex to the mean of the centres of its edges.
fn step(edges: &[Edge], at: &mut [u64], sums: &mut [u64], counts: &mut [u64]) {
    for place in 0..sums.len() {
        sums[place] = 0;
    }
    for place in 0..counts.len() {
        counts[place] = 0;
    }
    for edge in edges {
        let (node, first, second) = *edge;
        let sum = number_at(at, node)
            .wrapping_add(number_at(at, first))
            .wrapping_add(number_at(at, second));
        let middle = sum / 3;
        add_at(sums, node, middle);
        add_at(sums, first, middle);
        add_at(sums, second, middle);
        add_at(counts, node, 1);
        add_at(counts, first, 1);
        add_at(counts, second, 1);
    }
    for place in 0..at.len() {
        let count = number_at(counts, place);
        if count > 0 {
            at[place] = number_at(sums, place) / count;
        }
    }
}

/// Returns the vertices by position.
fn by_position(alloc: Global, at: &[u64]) -> Result<Vec<usize>, AllocError> {
    let mut order = Vec::new(alloc);
    for place in 0..at.len() {
        order.push(place)?;
    }
    order.sort_by_key(|place| number_at(at, *place))?;
    Ok(order)
}

/// Returns the leaves of a window in the order in which FORCE leaves them, last position first, from the order in which
/// they are given. `places` is overwritten.
pub(crate) fn force(
    alloc: Global,
    graph: &Graph,
    leaves: &[u32],
    above: &[u32],
    places: &mut NodeTable,
) -> Result<Vec<u32>, AllocError> {
    let mut at = Vec::new(alloc);
    let edges = edges_of(alloc, graph, leaves, above, &mut at, places)?;
    let mut sums = Vec::from_elem(alloc, 0u64, at.len())?;
    let mut counts = Vec::from_elem(alloc, 0u64, at.len())?;
    for _ in 0..TURNS {
        for _ in 0..STEPS {
            step(
                edges.as_slice(),
                at.as_mut_slice(),
                sums.as_mut_slice(),
                counts.as_mut_slice(),
            );
        }
        let order = by_position(alloc, at.as_slice())?;
        let mut position = 0u64;
        for place in &order {
            if *place < at.len() {
                at[*place] = position.wrapping_mul(UNIT);
            }
            position = position.wrapping_add(1);
        }
    }
    let order = by_position(alloc, at.as_slice())?;
    let mut found = Vec::new(alloc);
    for place in order.as_slice().iter().rev() {
        if let Some(leaf) = leaves.get(*place) {
            found.push(*leaf)?;
        }
    }
    Ok(found)
}
