//! The hypergraph on which FORCE works: variables and gates are vertices, and each gate with its operands is an edge.
ghost use Rattle.std.specs.Prelude.{◌≡◌, ◌+◌, ◌<◌, ◌++◌, fold, map, slice_set, IfOk, OnOk};
ghost use Rattle.net_bench.specs.Circuit.{circuit, variables_of};
ghost use Rattle.net_order.specs.Force.{edge_of, vertices};
ghost use Rattle.net_order.specs.Order.{graph_of, level_of, named, rank_of, with_side};

use crate::edge::Edge;
use crate::falling_rank::rank_at;
use crate::side::NamedNetlist;
use crate::tables::{count_from, number_at, put};
use net_bench::name_table::NameTable;
use net_bench::netlist::{GateLine, Netlist};
use std::alloc::{AllocError, Global};
use std::marker::Model;

/// A graph of more vertices is refused, as if there were no memory for it: so the numbers of vertices are far from any
/// overflow.
const MAX_VERTICES: usize = 4_294_967_296;

/// The signals of the gates, in the order of the text.
fn outs_of(alloc: Global, net: &Netlist) -> Result<Vec<usize>, AllocError>
    ensures { IfOk result (λ v. v.items ≡ map (λ g. g.out) net.now.gates) }
{
    let gates = net.gates();
    gates
        .iter()
        .map(|gate| gate.out.number() as usize)
        .collect(alloc)
}

/// Writes the level of each variable of a side at the place of its signal.
fn put_levels(table: &mut Vec<u64>, names: &NameTable, side: &NamedNetlist<'_>)
    ensures { table.new.items ≡ fold (λ t s. slice_set t s (level_of names.now (named side.now s))) table.old.items
        (variables_of side.now.net) }
{
    let net = side.net();
    for variable in net.variables() {
        let level = names.find(side.name(*variable)).unwrap_or(0);
        put(table, variable.number() as usize, u64::from(level));
    }
}

/// For each signal of a side its vertex: that of a variable is its level in these names, and the gates are numbered
/// from `first` on.
#[tactic(auto, unfolding(crate::specs::Force::vertices))]
fn vertices_on(
    alloc: Global,
    names: &NameTable,
    side: &NamedNetlist<'_>,
    first: usize,
) -> Result<Vec<u64>, AllocError>
    requires { first < MAX_VERTICES }
    ensures { IfOk result (λ v. v.items ≡ vertices side.now.net (λ s. level_of names.now (named side.now s)) first) }
{
    let net = side.net();
    let mut table = Vec::from_elem(alloc, 0u64, net.count())?;
    put_levels(&mut table, names, side);
    let outs = outs_of(alloc, net)?;
    count_from(&mut table, first as u64, outs.as_slice());
    Ok(table)
}

/// The edge of a gate: the vertices of its operands, and last its own.
fn edge_of(alloc: Global, vertices: &[u64], gate: &GateLine) -> Result<Edge, AllocError>
    ensures { IfOk result (λ e. e ≡ edge_of vertices.now gate.now) }
{
    let mut edge = Vec::new(alloc);
    for operand in gate.operands.as_slice() {
        edge.push(number_at(vertices, operand.number() as usize) as usize)?;
    }
    edge.push(number_at(vertices, gate.out.number() as usize) as usize)?;
    Ok(Edge::of(edge))
}

/// Variables and gates as vertices, and gates as edges.
#[derive(Drop)]
pub struct Hypergraph {
    /// The edge of each gate.
    edges: Vec<Edge>,
    /// The rank of each vertex.
    ranks: Vec<u64>,
}

impl Model for Hypergraph {
    ghost use Rattle.net_order.specs.Force.{Hypergraph};

    ghost Value = { Hypergraph };

    ghost view = { λ g. record { edges = g.edges.items; ranks = g.ranks.items } };
}

/// Appends an edge for each gate of the netlist.
fn add_edges(
    alloc: Global,
    edges: &mut Vec<Edge>,
    net: &Netlist,
    vertices: &[u64],
) -> Result<(), AllocError>
    ensures { OnOk result (edges.new.items ≡ edges.old.items ++ map (edge_of vertices.now) net.now.gates) }
{
    let gates = net.gates();
    for gate in gates {
        let edge = edge_of(alloc, vertices, gate)?;
        edges.push(edge)?;
    }
    Ok(())
}

/// Appends the rank of each gate of the netlist.
fn add_ranks(ranks: &mut Vec<u64>, net: &Netlist) -> Result<(), AllocError>
    ensures { OnOk result (ranks.new.items ≡ ranks.old.items ++ map (λ g. rank_of (circuit net.now) g.out) net.now.gates) }
{
    let gates = net.gates();
    for gate in gates {
        ranks.push(u64::from(rank_at(net, gate.out)))?;
    }
    Ok(())
}

/// Adds the gates of one more side to a graph, which is given as its edges and ranks.
fn add_side(
    alloc: Global,
    edges: &mut Vec<Edge>,
    ranks: &mut Vec<u64>,
    names: &NameTable,
    side: &NamedNetlist<'_>,
) -> Result<(), AllocError>
    ensures { OnOk result (record { edges = edges.new.items; ranks = ranks.new.items } ≡ with_side names.now
        (record { edges = edges.old.items; ranks = ranks.old.items }) side.now) }
{
    let first = ranks.len();
    if first >= MAX_VERTICES {
        return Err(AllocError);
    }
    let vertices = vertices_on(alloc, names, side, first)?;
    add_edges(alloc, edges, side.net(), vertices.as_slice())?;
    add_ranks(ranks, side.net())?;
    Ok(())
}

/// Adds the gates of several sides, one after the other.
fn add_sides(
    alloc: Global,
    edges: &mut Vec<Edge>,
    ranks: &mut Vec<u64>,
    names: &NameTable,
    sides: &[NamedNetlist<'_>],
) -> Result<(), AllocError>
    ensures { OnOk result (record { edges = edges.new.items; ranks = ranks.new.items } ≡ fold (with_side names.now)
        (record { edges = edges.old.items; ranks = ranks.old.items }) sides.now) }
{
    for i in 0..sides.len() {
        let side = &sides[i];
        add_side(alloc, edges, ranks, names, side)?;
    }
    Ok(())
}

impl Hypergraph {
    /// The graph of all sides. Its first vertices are the variables of these names, by number.
    #[tactic(auto, unfolding(crate::specs::Order::graph_of))]
    pub fn new(
        alloc: Global,
        names: &NameTable,
        sides: &[NamedNetlist<'_>],
        given: &[NamedNetlist<'_>],
    ) -> Result<Hypergraph, AllocError>
        ensures { IfOk result (λ g. g ≡ graph_of names.now sides.now given.now) }
    {
        let mut edges = Vec::new(alloc);
        let mut ranks = Vec::from_elem(alloc, 0u64, names.len())?;
        add_sides(alloc, &mut edges, &mut ranks, names, sides)?;
        add_sides(alloc, &mut edges, &mut ranks, names, given)?;
        Ok(Hypergraph { edges, ranks })
    }

    /// The edge of each gate: the vertices of its operands, and last its own.
    pub fn edges(&self) -> &[Edge]
        ensures { result.now ≡ self.now.edges }
    {
        self.edges.as_slice()
    }

    /// The rank of each vertex.
    pub fn ranks(&self) -> &[u64]
        ensures { result.now ≡ self.now.ranks }
    {
        self.ranks.as_slice()
    }
}
