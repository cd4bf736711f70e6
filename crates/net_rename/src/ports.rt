//! The names of a netlist's inputs, outputs and registers in one table, by which each of them is found at once.
ghost use Rattle.std.specs.Prelude.{◌≡◌, ◌<◌, All, IfOk, OnOk, length};
ghost use Rattle.net_bench.specs.Circuit.{circuit};
ghost use Rattle.net_order.specs.Order.{names_of, registers_of};
ghost use Rattle.net_order.specs.Tables.{with_names};
ghost use Rattle.net_rename.specs.Renaming.{ArePorts};

use net_bench::name_table::NameTable;
use net_bench::netlist::{Netlist, Signal};
use std::alloc::{AllocError, Global};

/// The registers' signals.
fn registers_of(net: &Netlist) -> &[Signal]
    ensures value { result.now ≡ registers_of (circuit net.now) }
    ensures known { All (λ s. s < length net.now.names) result.now }
{
    net.variables().split_at(net.inputs().len()).1
}

/// Puts the names of these signals into the table, each if it is not there yet.
fn add_names(
    alloc: Global,
    table: &mut NameTable,
    net: &Netlist,
    signals: &[Signal],
) -> Result<(), AllocError>
    requires { All (λ s. s < length net.now.names) signals.now }
    ensures { OnOk result (table.new ≡ with_names table.old (names_of (circuit net.now) signals.now)) }
{
    for signal in signals {
        table.intern(alloc, net.name(*signal))?;
    }
    Ok(())
}

/// The names of the inputs, outputs and registers.
pub(crate) fn ports_of(alloc: Global, net: &Netlist) -> Result<NameTable, AllocError>
    ensures { IfOk result (ArePorts (circuit net.now)) }
{
    let mut ports = NameTable::new(alloc);
    add_names(alloc, &mut ports, net, net.inputs())?;
    add_names(alloc, &mut ports, net, net.outputs())?;
    add_names(alloc, &mut ports, net, registers_of(net))?;
    Ok(ports)
}
