//! The netlists of a pairing in the form that the orders need.
ghost use Rattle.std.specs.Prelude.{◌≡◌, slice_get, slice_index_or, slice_set, option_copied, IfOk, None};
ghost use Rattle.net_order.specs.Order.{level_in};
ghost use Rattle.group_order.specs.Sides.{all_sides, gate_ranks, gates_by_rank, side_of, variables_by_signal};

use net_bench::netlist::{GateLine, Netlist, Signal};
use net_order::falling_rank::rank_at;
use net_order::naming::Naming;
use net_order::netlist_role::NetlistRole;
use net_order::tables::{numbers_below, sort_by_table};
use std::alloc::{AllocError, Global};
use std::marker::Model;

/// A netlist of a pairing, with tables that find its variables and its gates by rank.
#[derive(Drop)]
pub struct IndexedNetlist<'a> {
    net: &'a Netlist,
    /// For each signal the variable that it is; None for a gate.
    variables: Vec<Option<u32>>,
    /// The places of the gates by rising rank.
    by_rank: Vec<usize>,
}

impl<'a> Model for IndexedNetlist<'a> {
    ghost use Rattle.group_order.specs.Sides.{IndexedNetlistModel};

    ghost Value = { IndexedNetlistModel };

    ghost view = { λ s. record { net = s.net.now; variables = s.variables.items; by_rank = s.by_rank.items } };
}

/// The variable of a signal in a table; None beyond its end.
pub fn variable_at(table: &[Option<u32>], signal: Signal) -> Option<u32>
    ensures { result ≡ slice_index_or table.now signal None }
{
    table.get(signal.number() as usize).copied().unwrap_or(None)
}

/// Writes the variable of a signal into a table. Beyond its end nothing is written.
pub fn put_variable(table: &mut Vec<Option<u32>>, signal: Signal, variable: Option<u32>)
    ensures { table.new.items ≡ slice_set table.old.items signal variable }
{
    let place = signal.number() as usize;
    if place < table.len() {
        table[place] = variable;
    }
}

/// The gate at a place of the text; None if there is none.
pub fn gate_at(gates: &[GateLine], place: usize) -> Option<&GateLine>
    ensures { option_copied result ≡ slice_get gates.now place }
{
    gates.get(place)
}

/// For each signal the variable that it is, which is its level in declared order; None for a gate.
#[tactic(auto, unfolding(crate::specs::Sides::variables_by_signal))]
fn variables_by_signal(
    alloc: Global,
    kind: NetlistRole,
    naming: &Naming,
    net: &Netlist,
) -> Result<Vec<Option<u32>>, AllocError>
    ensures { IfOk result (λ v. v.items ≡ variables_by_signal (level_in naming.now kind) net.now) }
{
    let mut table = Vec::from_elem(alloc, None, net.count())?;
    for variable in net.variables() {
        let level = naming.level(kind, *variable);
        put_variable(&mut table, *variable, Some(level));
    }
    Ok(table)
}

/// The rank of each gate, in the order of the text.
fn gate_ranks(alloc: Global, net: &Netlist) -> Result<Vec<u64>, AllocError>
    ensures { IfOk result (λ v. v.items ≡ gate_ranks net.now) }
{
    let gates = net.gates();
    gates
        .iter()
        .map(|gate| u64::from(rank_at(net, gate.out)))
        .collect(alloc)
}

/// The places of the gates by rising rank.
#[tactic(auto, unfolding(crate::specs::Sides::gates_by_rank))]
fn gates_by_rank(alloc: Global, net: &Netlist) -> Result<Vec<usize>, AllocError>
    ensures { IfOk result (λ v. v.items ≡ gates_by_rank net.now) }
{
    let ranks = gate_ranks(alloc, net)?;
    let mut places = numbers_below(alloc, ranks.len())?;
    sort_by_table(&mut places, ranks.as_slice())?;
    Ok(places)
}

impl<'a> IndexedNetlist<'a> {
    /// A netlist with its tables, if its variables have the levels of this naming.
    fn new(
        alloc: Global,
        kind: NetlistRole,
        naming: &Naming,
        net: &'a Netlist,
    ) -> Result<IndexedNetlist<'a>, AllocError>
        ensures { IfOk result (λ side. side ≡ side_of kind naming.now net.entry.now) }
    {
        let variables = variables_by_signal(alloc, kind, naming, net)?;
        let by_rank = gates_by_rank(alloc, net)?;
        Ok(IndexedNetlist {
            net,
            variables,
            by_rank,
        })
    }

    /// The netlist.
    pub fn net(&self) -> &Netlist
        ensures { result.now ≡ self.now.net }
    {
        self.net
    }

    /// For each signal the variable that it is; None for a gate.
    pub fn variables(&self) -> &[Option<u32>]
        ensures { result.now ≡ self.now.variables }
    {
        self.variables.as_slice()
    }

    /// The places of the gates by rising rank.
    pub fn by_rank(&self) -> &[usize]
        ensures { result.now ≡ self.now.by_rank }
    {
        self.by_rank.as_slice()
    }
}

/// The netlists of a pairing: the first, the second, and the condition if there is one.
pub fn sides_of<'a>(
    alloc: Global,
    naming: &Naming,
    first: &'a Netlist,
    second: &'a Netlist,
    given: Option<&'a Netlist>,
) -> Result<Vec<IndexedNetlist<'a>>, AllocError>
    ensures { IfOk result (λ sides. sides.items ≡ all_sides naming.now first.entry.now second.entry.now given.entry) }
{
    let mut sides = Vec::new(alloc);
    sides.push(IndexedNetlist::new(alloc, NetlistRole::First, naming, first)?)?;
    sides.push(IndexedNetlist::new(alloc, NetlistRole::Second, naming, second)?)?;
    match given {
        None => {}
        Some(given) => sides.push(IndexedNetlist::new(alloc, NetlistRole::Given, naming, given)?)?,
    }
    Ok(sides)
}
