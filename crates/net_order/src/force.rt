//! The variables by FORCE: the vertices, which are variables and gates, are moved again and again to the middle of the
//! edges that they are on. After Aloul, Markov and Sakallah, "FORCE: a fast and easy-to-implement variable-ordering
//! heuristic", GLSVLSI 2003. They sort the vertices after each step; here a round sorts them once, after its last step,
//! which takes a tenth of the work and decides as many of the measured circuits (docs/decisions/orders-and-attempts.md).
ghost use Rattle.std.specs.Prelude.{◌≡◌, ◌<◌, ◌≤◌, All, length, IfErr, IfOk, OnOk};
ghost use Rattle.net_order.specs.Force.{force_order};
ghost use Rattle.net_order.specs.Order.{declared, forced, force_numbers, numbered};
ghost use Rattle.net_order.specs.Tables.{with_names};

use crate::force_start::{initial_order, variables_reversed};
use crate::force_step::{run_round, shares_of};
use crate::hypergraph::Hypergraph;
use crate::index_order::indexed_table;
use crate::side::NamedNetlist;
use crate::tables::{numbers_below, sort_by_table};
use crate::variables::{MAX_VARIABLES, add_all};
use net_bench::name_table::NameTable;
use net_names::order::OrderFault;
use std::alloc::{AllocError, Global};

/// The order of all vertices after two rounds.
#[tactic(auto, unfolding(crate::specs::Force::force_order))]
fn force_order(
    alloc: Global,
    variables: usize,
    graph: &Hypergraph,
) -> Result<Vec<usize>, AllocError>
    ensures { IfOk result (λ v. v.items ≡ force_order variables graph.now) }
{
    let edges = graph.edges();
    let count = graph.ranks().len();
    let mut by_rank = numbers_below(alloc, count)?;
    sort_by_table(&mut by_rank, graph.ranks())?;
    let mut order = initial_order(alloc, variables, edges, by_rank)?;
    let shares = shares_of(alloc, count, edges)?;
    run_round(alloc, edges, shares.as_slice(), &mut order)?;
    run_round(alloc, edges, shares.as_slice(), &mut order)?;
    Ok(order)
}

/// The numbers of the variables in the order of FORCE, from the last to the first.
#[tactic(auto, unfolding(crate::specs::Order::force_numbers))]
fn force_numbers(
    alloc: Global,
    names: &NameTable,
    sides: &[NamedNetlist<'_>],
    given: &[NamedNetlist<'_>],
) -> Result<Vec<usize>, AllocError>
    ensures { IfOk result (λ v. v.items ≡ force_numbers names.now sides.now given.now) }
{
    let graph = Hypergraph::new(alloc, names, sides, given)?;
    let order = force_order(alloc, names.len(), &graph)?;
    let back = variables_reversed(alloc, names.len(), order.as_slice())?;
    Ok(back)
}

/// Appends the names of these numbers to the table, if they are not there yet.
fn add_numbered(
    alloc: Global,
    table: &mut NameTable,
    names: &NameTable,
    numbers: &[usize],
) -> Result<(), AllocError>
    requires { All (λ k. k < length names.now) numbers.now }
    ensures { OnOk result (table.new ≡ with_names table.old (numbered names.now numbers.now)) }
{
    for number in numbers {
        table.intern(alloc, names.name_at(*number))?;
    }
    Ok(())
}

/// The variables in the order of FORCE, from the last to the first. It begins with the variables by the number at the
/// end of their names.
pub fn forced_table(
    alloc: Global,
    sides: &[NamedNetlist<'_>],
    given: &[NamedNetlist<'_>],
    variables: &NameTable,
) -> Result<NameTable, OrderFault>
    requires all { variables.now ≡ declared sides.now given.now }
    requires few { length variables.now ≤ MAX_VARIABLES }
    ensures ok { IfOk result (λ t. t ≡ forced sides.now given.now) }
    ensures few { IfOk result (λ t. length t ≤ MAX_VARIABLES) }
    ensures err { IfErr result (λ fault. fault ≡ OrderFault.OutOfMemory) }
{
    let names = indexed_table(alloc, variables)?;
    let numbers = force_numbers(alloc, &names, sides, given)?;
    let mut table = NameTable::new(alloc);
    add_numbered(alloc, &mut table, &names, numbers.as_slice())?;
    add_all(alloc, &mut table, sides, given)?;
    Ok(table)
}
