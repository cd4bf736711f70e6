//! What is below each root of a netlist and below no root before it: only this gets a part of the root's weight.
ghost use Rattle.std.specs.Prelude.{◌≡◌, ◌<◌, [], fold, length, map, replicate, reverse, slice_get, slice_index, slice_index_or, option_copied, IfOk, OnOk};
ghost use Rattle.net_order.specs.Order.{roots};
ghost use Rattle.group_order.specs.WeightCones.{cones_of, empty_cones, falling_roots, numbers_of, operands_of, pushed, root_table, signals_by_variable};
ghost use Rattle.group_order.specs.WeightCones.{with_gate, with_gates, with_live, with_numbers, with_operands_root, with_root, with_roots, with_signal, with_variable, with_variables};

use crate::sides::{IndexedNetlist, gate_at, variable_at};
use crate::weight_step::is_dead;
use net_bench::netlist::{GateLine, Netlist, Signal};
use net_order::falling_rank::rank_at;
use net_order::roots::roots_of;
use net_order::tables::{number_at, put};
use std::alloc::{AllocError, Global};
use std::marker::Model;

/// For each root, the gates and variables below it that are below no root before it. Roots go by falling rank. What is
/// below a gate has the gate's root or an earlier one; by then the variables of earlier roots are placed.
#[derive(Drop)]
pub struct WeightCones {
    /// For each signal its root; a number beyond the roots for a signal below none, and for a variable that was placed before.
    roots: Vec<u64>,
    /// For each signal its number among those of its root: first gates, by falling rank, then variables, in declared order.
    numbers: Vec<u64>,
    /// For each root the places of its gates, by falling rank.
    gates: Vec<Vec<usize>>,
    /// For each root its variables, in declared order.
    variables: Vec<Vec<usize>>,
}

impl Model for WeightCones {
    ghost use Rattle.std.specs.Prelude.{map};
    ghost use Rattle.group_order.specs.WeightCones.{Cones};

    ghost Value = { Cones };

    ghost view = { λ c. record {
      roots = c.roots.items;
      numbers = c.numbers.items;
      gates = map (λ l. l.items) c.gates.items;
      variables = map (λ l. l.items) c.variables.items;
    } };
}

/// The roots by falling rank, those of equal rank in their order.
#[tactic(auto, unfolding(crate::specs::WeightCones::falling_roots))]
fn falling_roots(alloc: Global, net: &Netlist) -> Result<Vec<Signal>, AllocError>
    ensures { IfOk result (λ v. v.items ≡ falling_roots net.now) }
{
    let mut roots = roots_of(alloc, net)?;
    roots.sort_by_key(|root| u32::MAX - rank_at(net, *root))?;
    Ok(roots)
}

/// Gives a signal this root, unless it has an earlier one.
fn put_root(table: &mut Vec<u64>, root: u64, signal: Signal)
    ensures { table.new.items ≡ with_root root table.old.items signal }
{
    let place = signal.number() as usize;
    let earlier = root.min(number_at(table.as_slice(), place));
    put(table, place, earlier);
}

/// Gives a gate's operands the root of the gate, unless they have earlier ones.
fn put_operands_root(table: &mut Vec<u64>, gate: &GateLine)
    ensures { table.new.items ≡ fold (with_root (slice_index table.old.items gate.now.out)) table.old.items gate.now.operands }
{
    let root = number_at(table.as_slice(), gate.out.number() as usize);
    let operands = gate.operands.as_slice();
    for operand in operands {
        put_root(table, root, *operand);
    }
}

/// The same for the gate at a place.
fn put_operands_root_at(table: &mut Vec<u64>, gates: &[GateLine], place: usize)
    ensures { table.new.items ≡ with_operands_root table.old.items (slice_get gates.now place) }
{
    match gate_at(gates, place) {
        Some(gate) => put_operands_root(table, gate),
        None => {}
    }
}

/// Gives each root itself.
fn put_roots(table: &mut Vec<u64>, roots: &[Signal])
    ensures { table.new.items ≡ with_roots 0 table.old.items roots.now }
{
    for place in 0..roots.len() {
        put_root(table, place as u64, roots[place]);
    }
}

/// The list from its end.
fn reversed(alloc: Global, list: &[usize]) -> Result<Vec<usize>, AllocError>
    ensures { IfOk result (λ v. v.items ≡ reverse list.now) }
{
    list.iter().rev().copied().collect(alloc)
}

/// For each signal the first root that it is below.
#[tactic(auto, unfolding(crate::specs::WeightCones::root_table))]
fn root_table(
    alloc: Global,
    side: &IndexedNetlist<'_>,
    roots: &[Signal],
) -> Result<Vec<u64>, AllocError>
    ensures { IfOk result (λ v. v.items ≡ root_table side.now roots.now) }
{
    let gates = side.net().gates();
    let mut table = Vec::from_elem(alloc, roots.len() as u64, side.net().count())?;
    put_roots(&mut table, roots);
    let falling = reversed(alloc, side.by_rank())?;
    let falling = falling.as_slice();
    for place in falling {
        put_operands_root_at(&mut table, gates, *place);
    }
    Ok(table)
}

/// `count` empty lists.
fn empty_lists(alloc: Global, count: usize) -> Result<Vec<Vec<usize>>, AllocError>
    ensures { IfOk result (λ v. map (λ l. l.items) v.items ≡ replicate count []) }
{
    let mut lists = Vec::new(alloc);
    for _ in 0..count {
        lists.push(Vec::new(alloc))?;
    }
    Ok(lists)
}

/// The list at a place; an empty one beyond the end.
pub fn list_at(lists: &[Vec<usize>], place: usize) -> &[usize]
    ensures { result.now ≡ slice_index_or (map (λ l. l.items) lists.now) place [] }
{
    match lists.get(place) {
        Some(list) => list.as_slice(),
        None => &[],
    }
}

/// Appends a number to the list at a place. Beyond the end nothing is written.
fn push_at(lists: &mut Vec<Vec<usize>>, place: usize, number: usize) -> Result<(), AllocError>
    ensures { OnOk result (map (λ l. l.items) lists.new.items ≡ pushed (map (λ l. l.items) lists.old.items) place number) }
{
    if place < lists.len() {
        lists[place].push(number)?;
    }
    Ok(())
}

/// Writes the signal of a variable into a table.
fn put_signal(table: &mut Vec<Option<Signal>>, signal: Signal, variable: Option<u32>)
    ensures { table.new.items ≡ with_signal table.old.items signal variable }
{
    match variable {
        Some(variable) => {
            let place = variable as usize;
            if place < table.len() {
                table[place] = Some(signal);
            }
        }
        None => {}
    }
}

/// For each variable its signal in a netlist; None if the netlist does not have it.
#[tactic(auto, unfolding(crate::specs::WeightCones::signals_by_variable))]
fn signals_by_variable(
    alloc: Global,
    count: usize,
    side: &IndexedNetlist<'_>,
) -> Result<Vec<Option<Signal>>, AllocError>
    ensures { IfOk result (λ v. v.items ≡ signals_by_variable count side.now) }
{
    let mut table = Vec::from_elem(alloc, None, count)?;
    let variables = side.net().variables();
    for signal in variables {
        put_signal(&mut table, *signal, variable_at(side.variables(), *signal));
    }
    Ok(table)
}

impl WeightCones {
    /// The roots, without gates and variables.
    fn empty(
        alloc: Global,
        side: &IndexedNetlist<'_>,
        roots: &[Signal],
    ) -> Result<WeightCones, AllocError>
        ensures { IfOk result (λ c. c ≡ empty_cones side.now roots.now) }
    {
        let table = root_table(alloc, side, roots)?;
        let numbers = Vec::from_elem(alloc, 0u64, side.net().count())?;
        let gates = empty_lists(alloc, roots.len())?;
        let variables = empty_lists(alloc, roots.len())?;
        Ok(WeightCones {
            roots: table,
            numbers,
            gates,
            variables,
        })
    }

    /// Appends a gate to those of its root.
    fn add_gate(&mut self, gates: &[GateLine], place: usize) -> Result<(), AllocError>
        ensures { OnOk result (self.new ≡ with_gate self.old place (slice_get gates.now place)) }
    {
        match gate_at(gates, place) {
            Some(gate) => {
                let signal = gate.out.number() as usize;
                let root = number_at(self.roots.as_slice(), signal) as usize;
                let number = list_at(self.gates.as_slice(), root).len() as u64;
                put(&mut self.numbers, signal, number);
                push_at(&mut self.gates, root, place)
            }
            None => Ok(()),
        }
    }

    /// Appends the gates of a netlist, by falling rank, to those of their roots.
    fn add_gates(&mut self, alloc: Global, side: &IndexedNetlist<'_>) -> Result<(), AllocError>
        ensures { OnOk result (self.new ≡ with_gates side.now self.old) }
    {
        let gates = side.net().gates();
        let falling = reversed(alloc, side.by_rank())?;
        let falling = falling.as_slice();
        for place in falling {
            self.add_gate(gates, *place)?;
        }
        Ok(())
    }

    /// Appends a variable that is not placed yet to those of its root.
    fn add_live(&mut self, variable: usize, signal: Signal) -> Result<(), AllocError>
        ensures { OnOk result (self.new ≡ with_live self.old variable signal) }
    {
        let place = signal.number() as usize;
        let root = number_at(self.roots.as_slice(), place) as usize;
        let gates = list_at(self.gates.as_slice(), root).len() as u64;
        let before = list_at(self.variables.as_slice(), root).len() as u64;
        put(&mut self.numbers, place, gates.saturating_add(before));
        push_at(&mut self.variables, root, variable)
    }

    /// Appends a variable to those of its root, if the netlist has it. One that was placed before gets no root.
    fn add_variable(
        &mut self,
        placed: &[bool],
        variable: usize,
        signal: Option<Signal>,
    ) -> Result<(), AllocError>
        ensures { OnOk result (self.new ≡ with_variable placed.now self.old variable signal) }
    {
        match signal {
            None => Ok(()),
            Some(signal) => {
                if is_dead(placed, variable) {
                    put(&mut self.roots, signal.number() as usize, u64::MAX);
                    return Ok(());
                }
                self.add_live(variable, signal)
            }
        }
    }

    /// Appends the variables of a netlist, in declared order, to those of their roots.
    fn add_variables(
        &mut self,
        alloc: Global,
        side: &IndexedNetlist<'_>,
        placed: &[bool],
    ) -> Result<(), AllocError>
        ensures { OnOk result (self.new ≡ with_variables side.now placed.now self.old) }
    {
        let signals = signals_by_variable(alloc, placed.len(), side)?;
        for variable in 0..placed.len() {
            let signal = signals.get(variable).copied().unwrap_or(None);
            self.add_variable(placed, variable, signal)?;
        }
        Ok(())
    }

    /// What is below each root of a netlist and below none before it, without the variables that were placed before.
    #[tactic(auto, unfolding(crate::specs::WeightCones::cones_of))]
    pub fn new(
        alloc: Global,
        side: &IndexedNetlist<'_>,
        placed: &[bool],
    ) -> Result<WeightCones, AllocError>
        ensures { IfOk result (λ c. c ≡ cones_of side.now placed.now) }
    {
        let roots = falling_roots(alloc, side.net())?;
        let mut cones = WeightCones::empty(alloc, side, roots.as_slice())?;
        cones.add_gates(alloc, side)?;
        cones.add_variables(alloc, side, placed)?;
        Ok(cones)
    }

    /// The number of roots.
    pub fn len(&self) -> usize
        ensures { result ≡ length self.now.gates }
    {
        self.gates.len()
    }

    /// The variables of a root, in declared order.
    pub fn variables(&self, root: usize) -> &[usize]
        ensures { result.now ≡ slice_index_or self.now.variables root [] }
    {
        list_at(self.variables.as_slice(), root)
    }

    /// The numbers of those operands of a gate that have this root.
    fn numbers_of(
        &self,
        alloc: Global,
        root: usize,
        gate: &GateLine,
    ) -> Result<Vec<usize>, AllocError>
        ensures { IfOk result (λ v. v.items ≡ numbers_of self.now root gate.now) }
    {
        let mut numbers = Vec::new(alloc);
        let operands = gate.operands.as_slice();
        for operand in operands {
            let place = operand.number() as usize;
            if number_at(self.roots.as_slice(), place) as usize == root {
                numbers.push(number_at(self.numbers.as_slice(), place) as usize)?;
            }
        }
        Ok(numbers)
    }

    /// Appends the list of the numbers of a gate's operands, if there is a gate.
    fn push_numbers(
        &self,
        alloc: Global,
        lists: &mut Vec<Vec<usize>>,
        root: usize,
        gate: Option<&GateLine>,
    ) -> Result<(), AllocError>
        ensures { OnOk result (map (λ l. l.items) lists.new.items ≡ with_numbers self.now root (map (λ l. l.items) lists.old.items) (option_copied gate.entry)) }
    {
        match gate {
            Some(gate) => {
                let numbers = self.numbers_of(alloc, root, gate)?;
                lists.push(numbers)?;
                Ok(())
            }
            None => Ok(()),
        }
    }

    /// For each gate of a root, the numbers of those operands that have the same root. The others get no weight.
    #[tactic(auto, unfolding(crate::specs::WeightCones::operands_of))]
    pub fn operands(
        &self,
        alloc: Global,
        side: &IndexedNetlist<'_>,
        root: usize,
    ) -> Result<Vec<Vec<usize>>, AllocError>
        ensures { IfOk result (λ v. map (λ l. l.items) v.items ≡ operands_of side.now self.now root) }
    {
        let gates = side.net().gates();
        let places = list_at(self.gates.as_slice(), root);
        let mut operands = Vec::new(alloc);
        for place in places {
            let gate = gate_at(gates, *place);
            self.push_numbers(alloc, &mut operands, root, gate)?;
        }
        Ok(operands)
    }
}
