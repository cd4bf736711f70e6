//! The order in which FORCE begins, and the variables of the one in which it ends.
ghost use Rattle.std.specs.Prelude.{◌≡◌, IfOk};
ghost use Rattle.net_order.specs.Force.{initial_order, greatest_at, last_below, last_variables, variables_reversed};

use crate::edge::Edge;
use crate::tables::{number_at, put, sort_by_table};
use std::alloc::{AllocError, Global};

/// The greatest number at these places of a table.
fn greatest_at(table: &[u64], places: &[usize]) -> u64
    ensures { result ≡ greatest_at table.now places.now }
{
    places
        .iter()
        .fold(0, |most, place| most.max(number_at(table, *place)))
}

/// The last variable below a vertex, by number. Below a variable is only itself.
fn last_below(variables: usize, edges: &[Edge], table: &[u64], vertex: usize) -> u64
    ensures { result ≡ last_below variables edges.now table.now vertex }
{
    if vertex < variables {
        return vertex as u64;
    }
    match edges.get(vertex - variables) {
        Some(edge) => greatest_at(table, edge.vertices()),
        None => 0,
    }
}

/// For each vertex the last variable below it. The vertices must come by rising rank, so that operands come before
/// their gates.
#[tactic(auto, unfolding(crate::specs::Force::last_variables))]
fn last_variables(
    alloc: Global,
    variables: usize,
    edges: &[Edge],
    by_rank: &[usize],
) -> Result<Vec<u64>, AllocError>
    ensures { IfOk result (λ v. v.items ≡ last_variables variables edges.now by_rank.now) }
{
    let mut table = Vec::from_elem(alloc, 0u64, by_rank.len())?;
    for vertex in by_rank {
        let last = last_below(variables, edges, table.as_slice(), *vertex);
        put(&mut table, *vertex, last);
    }
    Ok(table)
}

/// The order in which the rounds begin: each gate right after the last variable below it, those after the same variable
/// by rising rank.
#[tactic(auto, unfolding(crate::specs::Force::initial_order))]
pub fn initial_order(
    alloc: Global,
    variables: usize,
    edges: &[Edge],
    by_rank: Vec<usize>,
) -> Result<Vec<usize>, AllocError>
    ensures { IfOk result (λ v. v.items ≡ initial_order variables edges.now by_rank.items) }
{
    let table = last_variables(alloc, variables, edges, by_rank.as_slice())?;
    let mut order = by_rank;
    sort_by_table(&mut order, table.as_slice())?;
    Ok(order)
}

/// Those vertices that are variables, from the last to the first.
pub fn variables_reversed(
    alloc: Global,
    variables: usize,
    order: &[usize],
) -> Result<Vec<usize>, AllocError>
    ensures { IfOk result (λ v. v.items ≡ variables_reversed variables order.now) }
{
    order
        .iter()
        .rev()
        .copied()
        .filter(|vertex| *vertex < variables)
        .collect(alloc)
}
