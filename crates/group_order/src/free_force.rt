//! FORCE without selectors: they are on no edge, so that a variable that nearly all gates read does not move them all
//! to one place. After Aloul, Markov and Sakallah, "FORCE: a fast and easy-to-implement variable-ordering heuristic",
//! GLSVLSI 2003. Steps and rounds are those of order `force` (`net_order`'s `specs/Force`).
ghost use Rattle.std.specs.Prelude.{◌≡◌, ◌++◌, ◌∷◌, ◌<◌, [], false, filter, fold, map, slice_index, slice_index_or, slice_set, IfOk, OnOk, None};
ghost use Rattle.net_bench.specs.Circuit.{circuit, variables_of};
ghost use Rattle.net_order.specs.Force.{force_order, graph_without_gates, initial_order, variables_reversed, vertices};
ghost use Rattle.group_order.specs.FreeForce.{chosen_along, chosen_of, free_edge, free_graph, free_numbers, free_order, is_free, places_in, vertex_of, vertices_on, with_side};
ghost use Rattle.group_order.specs.Sides.{gate_ranks};

use crate::sides::{IndexedNetlist, variable_at};
use crate::tables::{completed, place_at};
use net_bench::netlist::{GateLine, Netlist};
use net_order::edge::Edge;
use net_order::falling_rank::rank_at;
use net_order::force_start::{initial_order, variables_reversed};
use net_order::force_step::{run_round, shares_of};
use net_order::tables::{count_from, number_at, numbers_below, put, sort_by_table};
use std::alloc::{AllocError, Global};
use std::marker::Model;

/// A graph of more vertices is refused, as if there were no memory for it: so the numbers of vertices are far from any overflow.
const MAX_VERTICES: usize = 4_294_967_296;

/// Whether the variable of this number is a selector. A number that is no variable's is none.
fn is_chosen(chosen: &[bool], number: usize) -> bool
    ensures { result ≡ slice_index_or chosen.now number false }
{
    chosen.get(number).copied().unwrap_or(false)
}

/// The vertex of a variable: its place in the order with which FORCE begins.
fn vertex_of(places: &[u64], variable: Option<u32>) -> u64
    ensures { result ≡ vertex_of places.now variable }
{
    match variable {
        None => 0,
        Some(variable) => number_at(places, variable as usize),
    }
}

/// The signals of the gates, in the order of the text.
fn outs_of(alloc: Global, net: &Netlist) -> Result<Vec<usize>, AllocError>
    ensures { IfOk result (λ v. v.items ≡ map (λ g. g.out) net.now.gates) }
{
    let gates = net.gates();
    gates
        .iter()
        .map(|gate| gate.out.number() as usize)
        .collect(alloc)
}

/// Writes the vertex of each variable of a netlist at the place of its signal.
fn put_variables(table: &mut Vec<u64>, places: &[u64], side: &IndexedNetlist<'_>)
    ensures { table.new.items ≡ fold (λ t s. slice_set t s (vertex_of places.now (slice_index_or side.now.variables s None))) table.old.items
        (variables_of (circuit side.now.net)) }
{
    let variables = side.net().variables();
    for variable in variables {
        let vertex = vertex_of(places, variable_at(side.variables(), *variable));
        put(table, variable.number() as usize, vertex);
    }
}

/// For each signal of a netlist its vertex: that of a variable is its place, and the gates are numbered from `first` on.
#[tactic(auto, unfolding(net_order::specs::Force::vertices))]
fn vertices_on(
    alloc: Global,
    places: &[u64],
    side: &IndexedNetlist<'_>,
    first: usize,
) -> Result<Vec<u64>, AllocError>
    requires { first < MAX_VERTICES }
    ensures { IfOk result (λ v. v.items ≡ vertices_on places.now side.now first) }
{
    let net = side.net();
    let mut table = Vec::from_elem(alloc, 0u64, net.count())?;
    put_variables(&mut table, places, side);
    let outs = outs_of(alloc, net)?;
    count_from(&mut table, first as u64, outs.as_slice());
    Ok(table)
}

/// Appends a vertex to an edge, unless it is a selector.
fn push_free(edge: &mut Vec<usize>, chosen: &[bool], vertex: usize) -> Result<(), AllocError>
    ensures { OnOk result (edge.new.items ≡ edge.old.items ++ filter (is_free chosen.now) (vertex ∷ [])) }
{
    if is_chosen(chosen, vertex) {
        return Ok(());
    }
    edge.push(vertex)?;
    Ok(())
}

/// The edge of a gate without selectors: the vertices of its operands, and last its own.
fn free_edge(
    alloc: Global,
    chosen: &[bool],
    vertices: &[u64],
    gate: &GateLine,
) -> Result<Edge, AllocError>
    ensures { IfOk result (λ e. e ≡ free_edge chosen.now vertices.now gate.now) }
{
    let mut edge = Vec::new(alloc);
    let operands = gate.operands.as_slice();
    for operand in operands {
        let vertex = number_at(vertices, operand.number() as usize) as usize;
        push_free(&mut edge, chosen, vertex)?;
    }
    let own = number_at(vertices, gate.out.number() as usize) as usize;
    push_free(&mut edge, chosen, own)?;
    Ok(Edge::of(edge))
}

/// Variables and gates as vertices, and gates as edges without selectors.
#[derive(Drop)]
struct FreeGraph {
    /// The edge of each gate: the vertices of its operands that are no selectors, and last its own.
    edges: Vec<Edge>,
    /// The rank of each vertex.
    ranks: Vec<u64>,
}

impl Model for FreeGraph {
    ghost use Rattle.net_order.specs.Force.{Hypergraph};

    ghost Value = { Hypergraph };

    ghost view = { λ g. record { edges = g.edges.items; ranks = g.ranks.items } };
}

/// Appends an edge for each of these gates.
fn add_edges(
    alloc: Global,
    edges: &mut Vec<Edge>,
    chosen: &[bool],
    vertices: &[u64],
    gates: &[GateLine],
) -> Result<(), AllocError>
    ensures { OnOk result (edges.new.items ≡ edges.old.items ++ map (free_edge chosen.now vertices.now) gates.now) }
{
    for gate in gates {
        let edge = free_edge(alloc, chosen, vertices, gate)?;
        edges.push(edge)?;
    }
    Ok(())
}

/// Appends the rank of each gate of a netlist.
fn add_ranks(ranks: &mut Vec<u64>, net: &Netlist) -> Result<(), AllocError>
    ensures { OnOk result (ranks.new.items ≡ ranks.old.items ++ gate_ranks net.now) }
{
    let gates = net.gates();
    for gate in gates {
        ranks.push(u64::from(rank_at(net, gate.out)))?;
    }
    Ok(())
}

impl FreeGraph {
    /// The graph of so many variables, without gates.
    fn without_gates(alloc: Global, variables: usize) -> Result<FreeGraph, AllocError>
        ensures { IfOk result (λ g. g ≡ graph_without_gates variables) }
    {
        let ranks = Vec::from_elem(alloc, 0u64, variables)?;
        Ok(FreeGraph {
            edges: Vec::new(alloc),
            ranks,
        })
    }

    /// Adds the gates of one more netlist.
    fn add_side(
        &mut self,
        alloc: Global,
        chosen: &[bool],
        places: &[u64],
        side: &IndexedNetlist<'_>,
    ) -> Result<(), AllocError>
        ensures { OnOk result (self.new ≡ with_side chosen.now places.now self.old side.now) }
    {
        let first = self.ranks.len();
        if first >= MAX_VERTICES {
            return Err(AllocError);
        }
        let vertices = vertices_on(alloc, places, side, first)?;
        let gates = side.net().gates();
        add_edges(alloc, &mut self.edges, chosen, vertices.as_slice(), gates)?;
        add_ranks(&mut self.ranks, side.net())
    }

    /// The graph of all netlists. Its first vertices are the variables, by their places in the order with which FORCE begins.
    #[tactic(auto, unfolding(crate::specs::FreeForce::free_graph))]
    fn new(
        alloc: Global,
        chosen: &[bool],
        places: &[u64],
        sides: &[IndexedNetlist<'_>],
    ) -> Result<FreeGraph, AllocError>
        ensures { IfOk result (λ g. g ≡ free_graph chosen.now places.now sides.now) }
    {
        let mut graph = FreeGraph::without_gates(alloc, places.len())?;
        for i in 0..sides.len() {
            let side = &sides[i];
            graph.add_side(alloc, chosen, places, side)?;
        }
        Ok(graph)
    }
}

/// The order of all vertices after two rounds.
#[tactic(auto, unfolding(net_order::specs::Force::force_order))]
fn force_order(alloc: Global, variables: usize, graph: &FreeGraph) -> Result<Vec<usize>, AllocError>
    ensures { IfOk result (λ v. v.items ≡ force_order variables graph.now) }
{
    let edges = graph.edges.as_slice();
    let ranks = graph.ranks.as_slice();
    let mut by_rank = numbers_below(alloc, ranks.len())?;
    sort_by_table(&mut by_rank, ranks)?;
    let mut order = initial_order(alloc, variables, edges, by_rank)?;
    let shares = shares_of(alloc, ranks.len(), edges)?;
    run_round(alloc, edges, shares.as_slice(), &mut order)?;
    run_round(alloc, edges, shares.as_slice(), &mut order)?;
    Ok(order)
}

/// For each variable its place in an order.
#[tactic(auto, unfolding(crate::specs::FreeForce::places_in))]
fn places_in(alloc: Global, order: &[usize]) -> Result<Vec<u64>, AllocError>
    ensures { IfOk result (λ v. v.items ≡ places_in order.now) }
{
    let mut places = Vec::from_elem(alloc, 0u64, order.len())?;
    count_from(&mut places, 0, order);
    Ok(places)
}

/// For each place of an order whether the variable there is a selector.
fn chosen_along(alloc: Global, chosen: &[bool], order: &[usize]) -> Result<Vec<bool>, AllocError>
    ensures { IfOk result (λ v. v.items ≡ chosen_along chosen.now order.now) }
{
    order
        .iter()
        .map(|variable| is_chosen(chosen, *variable))
        .collect(alloc)
}

/// The selectors, in the order of all variables.
fn chosen_of(alloc: Global, chosen: &[bool], order: &[usize]) -> Result<Vec<usize>, AllocError>
    ensures { IfOk result (λ v. v.items ≡ chosen_of chosen.now order.now) }
{
    order
        .iter()
        .copied()
        .filter(|variable| is_chosen(chosen, *variable))
        .collect(alloc)
}

/// The variables at these places of an order.
fn at_places(alloc: Global, order: &[usize], places: &[usize]) -> Result<Vec<usize>, AllocError>
    ensures { IfOk result (λ v. v.items ≡ map (slice_index order.now) places.now) }
{
    places
        .iter()
        .map(|place| place_at(order, *place))
        .collect(alloc)
}

/// The variables in the order of FORCE without selectors, from the last to the first. FORCE begins with the order that is given.
#[tactic(auto, unfolding(crate::specs::FreeForce::free_order))]
fn free_order(
    alloc: Global,
    chosen: &[bool],
    order: &[usize],
    sides: &[IndexedNetlist<'_>],
) -> Result<Vec<usize>, AllocError>
    ensures { IfOk result (λ v. v.items ≡ free_order chosen.now order.now sides.now) }
{
    let along = chosen_along(alloc, chosen, order)?;
    let places = places_in(alloc, order)?;
    let graph = FreeGraph::new(alloc, along.as_slice(), places.as_slice(), sides)?;
    let moved = force_order(alloc, order.len(), &graph)?;
    let back = variables_reversed(alloc, order.len(), moved.as_slice())?;
    at_places(alloc, order, back.as_slice())
}

/// The selectors in the order with which FORCE begins, then the other variables in the order of FORCE.
#[tactic(auto, unfolding(crate::specs::FreeForce::free_numbers))]
pub fn free_numbers(
    alloc: Global,
    chosen: &[bool],
    order: &[usize],
    sides: &[IndexedNetlist<'_>],
) -> Result<Vec<usize>, AllocError>
    ensures { IfOk result (λ v. v.items ≡ free_numbers chosen.now order.now sides.now) }
{
    let mut list = chosen_of(alloc, chosen, order)?;
    let others = free_order(alloc, chosen, order, sides)?;
    list.extend_from_slice(others.as_slice())?;
    completed(alloc, order.len(), list.as_slice())
}
