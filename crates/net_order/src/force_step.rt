//! The steps of FORCE, in which each vertex is moved to the middle of its edges, and rounds of such steps.
ghost use Rattle.std.specs.Prelude.{◌≡◌, IfOk, OnOk};
ghost use Rattle.net_order.specs.Force.{centre_of, degrees_of, new_place, mean_of, places_of, round, shares_of, step, steps_for, steps_of};
ghost use Rattle.net_order.specs.Force.{totals_of, with_added};

use crate::edge::{Edge, SHARE_UNIT, share_of};
use crate::tables::{count_from, number_at, put, sort_by_table};
use std::alloc::{AllocError, Global};

/// Places are fixed-point numbers: so many parts are the distance of two neighbours.
const PLACE_UNIT: u64 = 65_536;

/// For each vertex its place in the order, as a fixed-point number.
#[tactic(auto, unfolding(crate::specs::Force::places_of))]
fn places_of(alloc: Global, order: &[usize]) -> Result<Vec<u64>, AllocError>
    ensures { IfOk result (λ v. v.items ≡ places_of order.now) }
{
    let mut places = Vec::from_elem(alloc, 0u64, order.len())?;
    count_from(&mut places, 0, order);
    places
        .iter()
        .map(|place| place.saturating_mul(PLACE_UNIT))
        .collect(alloc)
}

/// The mean of numbers that have this sum, if each has this share in it.
fn mean_of(sum: u64, share: u64) -> u64
    ensures { result ≡ mean_of sum share }
{
    sum.saturating_mul(share) / SHARE_UNIT
}

/// The centre of an edge: the mean of the places of its vertices.
#[tactic(auto, unfolding(crate::specs::Force::centre_of))]
fn centre_of(places: &[u64], edge: &Edge) -> u64
    ensures { result ≡ centre_of places.now edge.now }
{
    let sum = edge.vertices().iter().fold(0u64, |sum, vertex| {
        sum.saturating_add(number_at(places, *vertex))
    });
    mean_of(sum, edge.share())
}

/// Adds an amount to the table's number of each vertex of an edge.
fn add_at(table: &mut Vec<u64>, edge: &[usize], amount: u64)
    ensures { table.new.items ≡ with_added amount table.old.items edge.now }
{
    for vertex in edge {
        let sum = number_at(table.as_slice(), *vertex).saturating_add(amount);
        put(table, *vertex, sum);
    }
}

/// For each vertex the sum of the centres of its edges.
#[tactic(auto, unfolding(crate::specs::Force::totals_of))]
fn totals_of(alloc: Global, places: &[u64], edges: &[Edge]) -> Result<Vec<u64>, AllocError>
    ensures { IfOk result (λ v. v.items ≡ totals_of places.now edges.now) }
{
    let mut totals = Vec::from_elem(alloc, 0u64, places.len())?;
    for edge in edges {
        let centre = centre_of(places, edge);
        add_at(&mut totals, edge.vertices(), centre);
    }
    Ok(totals)
}

/// For each vertex the number of its edges.
#[tactic(auto, unfolding(crate::specs::Force::degrees_of))]
fn degrees_of(alloc: Global, count: usize, edges: &[Edge]) -> Result<Vec<u64>, AllocError>
    ensures { IfOk result (λ v. v.items ≡ degrees_of count edges.now) }
{
    let mut degrees = Vec::from_elem(alloc, 0u64, count)?;
    for edge in edges {
        add_at(&mut degrees, edge.vertices(), 1);
    }
    Ok(degrees)
}

/// For each vertex the share of one of its edges in the mean of all of them.
#[tactic(auto, unfolding(crate::specs::Force::shares_of))]
pub fn shares_of(alloc: Global, count: usize, edges: &[Edge]) -> Result<Vec<u64>, AllocError>
    ensures { IfOk result (λ v. v.items ≡ shares_of count edges.now) }
{
    let degrees = degrees_of(alloc, count, edges)?;
    degrees
        .iter()
        .map(|degree| share_of(*degree))
        .collect(alloc)
}

/// The place to which a vertex is moved: the mean of the centres of its edges, or its own place if it has none.
fn new_place(total: u64, share: u64, place: u64) -> u64
    ensures { result ≡ new_place total share place }
{
    if share == 0 {
        place
    } else {
        mean_of(total, share)
    }
}

/// One step: the places of all vertices after each was moved to its edges. All centres are computed before any vertex
/// moves.
#[tactic(auto, unfolding(crate::specs::Force::step))]
fn step(
    alloc: Global,
    edges: &[Edge],
    shares: &[u64],
    places: &[u64],
) -> Result<Vec<u64>, AllocError>
    ensures { IfOk result (λ v. v.items ≡ step edges.now shares.now places.now) }
{
    let totals = totals_of(alloc, places, edges)?;
    let totals = totals.as_slice();
    let mut new_places = Vec::with_capacity(alloc, places.len())?;
    for vertex in 0..places.len() {
        let total = number_at(totals, vertex);
        let share = number_at(shares, vertex);
        new_places.push(new_place(total, share, number_at(places, vertex)))?;
    }
    Ok(new_places)
}

/// The places after this number of steps.
#[tactic(auto, unfolding(crate::specs::Force::steps_of))]
fn run_steps(
    alloc: Global,
    edges: &[Edge],
    shares: &[u64],
    steps: usize,
    places: &mut Vec<u64>,
) -> Result<(), AllocError>
    ensures { OnOk result (places.new.items ≡ steps_of edges.now shares.now steps places.old.items) }
{
    for _step in 0..steps {
        *places = step(alloc, edges, shares, places.as_slice())?;
    }
    Ok(())
}

/// The number of steps of a round: 40, fewer for more than 13,100 vertices, and 10 from 47,700 on. Fewer steps take less
/// time, and leave none of the measured pairs undecided (docs/decisions/orders-and-attempts.md).
#[tactic(auto, unfolding(crate::specs::Force::steps_for))]
fn steps_for(count: usize) -> usize
    ensures { result ≡ steps_for count }
{
    (524_288 / count.saturating_add(1)).clamp(10, 40)
}

/// One round: the order by the places after its steps. Vertices at the same place keep their order.
#[tactic(auto, unfolding(crate::specs::Force::round))]
pub fn run_round(
    alloc: Global,
    edges: &[Edge],
    shares: &[u64],
    order: &mut Vec<usize>,
) -> Result<(), AllocError>
    ensures { OnOk result (order.new.items ≡ round edges.now shares.now order.old.items) }
{
    let mut places = places_of(alloc, order.as_slice())?;
    run_steps(alloc, edges, shares, steps_for(order.len()), &mut places)?;
    sort_by_table(order, places.as_slice())
}
