//! Orders by a list of names that may lack variables, and may have names that are no variables.
ghost use Rattle.std.specs.Prelude.{◌≡◌, ◌≤◌, filter, if◌then◌else◌, length, IfErr, IfOk, OnOk};
ghost use Rattle.net_bench.specs.Circuit.{is_name_in, with_name};
ghost use Rattle.net_order.specs.Order.{declared, extended};
ghost use Rattle.net_order.specs.Tables.{with_names};

use crate::side::NamedNetlist;
use crate::variables::{MAX_VARIABLES, add_all};
use net_bench::name_table::NameTable;
use net_names::names::Names;
use net_names::order::OrderFault;
use std::alloc::{AllocError, Global};

/// Appends a name to the table, if it is a variable and not there yet.
fn add_if_known(
    alloc: Global,
    table: &mut NameTable,
    variables: &NameTable,
    name: &[u8],
) -> Result<(), AllocError>
    ensures { OnOk result (table.new ≡ (if is_name_in variables.now name.now then with_name table.old name.now else table.old)) }
{
    if variables.has(name) {
        table.intern(alloc, name)?;
    }
    Ok(())
}

/// Appends those names of the list to the table that are variables and not there yet.
fn add_known(
    alloc: Global,
    table: &mut NameTable,
    variables: &NameTable,
    list: &Names,
) -> Result<(), AllocError>
    ensures { OnOk result (table.new ≡ with_names table.old (filter (is_name_in variables.now) list.now)) }
{
    for i in 0..list.len() {
        add_if_known(alloc, table, variables, list.at(i))?;
    }
    Ok(())
}

/// The names of the list that are variables, then the other variables as they are declared.
pub fn extended_table(
    alloc: Global,
    sides: &[NamedNetlist<'_>],
    given: &[NamedNetlist<'_>],
    variables: &NameTable,
    list: &Names,
) -> Result<NameTable, OrderFault>
    requires all { variables.now ≡ declared sides.now given.now }
    requires few { length variables.now ≤ MAX_VARIABLES }
    ensures ok { IfOk result (λ t. t ≡ extended sides.now given.now list.now) }
    ensures few { IfOk result (λ t. length t ≤ MAX_VARIABLES) }
    ensures err { IfErr result (λ fault. fault ≡ OrderFault.OutOfMemory) }
{
    let mut table = NameTable::new(alloc);
    add_known(alloc, &mut table, variables, list)?;
    add_all(alloc, &mut table, sides, given)?;
    Ok(table)
}
