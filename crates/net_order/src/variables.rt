//! The variables of a pairing, in declared order and in the order of walks below outputs and next states.
ghost use Rattle.std.specs.Prelude.{◌≡◌, ◌≤◌, length, All, IsTrue, OnOk, IfOk, IfErr};
ghost use Rattle.net_bench.specs.Circuit.{variables_of};
ghost use Rattle.net_order.specs.Order.{all_names, by_depth, declared, is_member, names_in, names_of_sides, names_on};
ghost use Rattle.net_order.specs.Tables.{IsOverflow, group_variables, with_names};

use crate::side::NamedNetlist;
use crate::variable_groups::{VariableGroup, group_variables};
use net_bench::name_table::NameTable;
use net_bench::netlist::Signal;
use net_names::order::OrderFault;
use std::alloc::{AllocError, Global};

/// The most variables of a pairing, which is the most levels of a store.
pub const MAX_VARIABLES: usize = 4_096;

/// Appends the names of these variables of one side to the table, if they are not there yet.
fn add_names(
    alloc: Global,
    table: &mut NameTable,
    side: &NamedNetlist<'_>,
    variables: &[Signal],
) -> Result<(), AllocError>
    requires { All (λ s. IsTrue (is_member s (variables_of side.now.net))) variables.now }
    ensures { OnOk result (table.new ≡ with_names table.old (names_on side.now variables.now)) }
{
    for variable in variables {
        table.intern(alloc, side.name(*variable))?;
    }
    Ok(())
}

/// Appends the names of a group of one side's variables to the table.
fn add_side(
    alloc: Global,
    table: &mut NameTable,
    side: &NamedNetlist<'_>,
    listing: VariableGroup,
) -> Result<(), AllocError>
    ensures { OnOk result (table.new ≡ with_names table.old (names_on side.now (group_variables listing side.now.net))) }
{
    let variables = group_variables(alloc, side.net(), listing)?;
    add_names(alloc, table, side, variables.as_slice())
}

/// Appends the names of this group of each side to the table, side after side.
fn add_sides(
    alloc: Global,
    table: &mut NameTable,
    sides: &[NamedNetlist<'_>],
    listing: VariableGroup,
) -> Result<(), AllocError>
    ensures { OnOk result (table.new ≡ with_names table.old (names_of_sides (group_variables listing) sides.now)) }
{
    for i in 0..sides.len() {
        let side = &sides[i];
        add_side(alloc, table, side, listing)?;
    }
    Ok(())
}

/// Appends all variables of these sides to the table in declared order: the inputs of each, then the registers of each.
fn add_declared(
    alloc: Global,
    table: &mut NameTable,
    sides: &[NamedNetlist<'_>],
) -> Result<(), AllocError>
    ensures { OnOk result (table.new ≡ with_names table.old (names_in sides.now)) }
{
    add_sides(alloc, table, sides, VariableGroup::Inputs)?;
    add_sides(alloc, table, sides, VariableGroup::Registers)
}

/// Appends all variables to the table in declared order, those of the condition last.
pub fn add_all(
    alloc: Global,
    table: &mut NameTable,
    sides: &[NamedNetlist<'_>],
    given: &[NamedNetlist<'_>],
) -> Result<(), AllocError>
    ensures { OnOk result (table.new ≡ with_names table.old (all_names sides.now given.now)) }
{
    add_declared(alloc, table, sides)?;
    add_declared(alloc, table, given)
}

/// The variables in declared order, however many they are.
pub fn all_variables(
    alloc: Global,
    sides: &[NamedNetlist<'_>],
    given: &[NamedNetlist<'_>],
) -> Result<NameTable, AllocError>
    ensures { IfOk result (λ t. t ≡ declared sides.now given.now) }
{
    let mut table = NameTable::new(alloc);
    add_all(alloc, &mut table, sides, given)?;
    Ok(table)
}

/// The variables in declared order; refused if a pairing cannot have as many.
pub fn declared_table(
    alloc: Global,
    sides: &[NamedNetlist<'_>],
    given: &[NamedNetlist<'_>],
) -> Result<NameTable, OrderFault>
    ensures ok { IfOk result (λ t. t ≡ declared sides.now given.now) }
    ensures few { IfOk result (λ t. length t ≤ MAX_VARIABLES) }
    ensures err { IfErr result (IsOverflow (declared sides.now given.now)) }
{
    let table = all_variables(alloc, sides, given)?;
    if table.len() > MAX_VARIABLES {
        return Err(OrderFault::TooManyInputs);
    }
    Ok(table)
}

/// The variables in depth order.
pub fn depth_table(
    alloc: Global,
    sides: &[NamedNetlist<'_>],
    given: &[NamedNetlist<'_>],
) -> Result<NameTable, OrderFault>
    requires { length (declared sides.now given.now) ≤ MAX_VARIABLES }
    ensures ok { IfOk result (λ t. t ≡ by_depth sides.now given.now) }
    ensures few { IfOk result (λ t. length t ≤ MAX_VARIABLES) }
    ensures err { IfErr result (λ fault. fault ≡ OrderFault.OutOfMemory) }
{
    let mut table = NameTable::new(alloc);
    add_sides(alloc, &mut table, sides, VariableGroup::BelowOutputs)?;
    add_all(alloc, &mut table, sides, given)?;
    Ok(table)
}
