//! Groups of a netlist's variables that orders take together.
ghost use Rattle.std.specs.Prelude.{◌≡◌, ◌<◌, length, All, IfOk, IsTrue};
ghost use Rattle.net_bench.specs.Circuit.{circuit, variables_of};
ghost use Rattle.net_order.specs.Order.{is_member, registers_of};
ghost use Rattle.net_order.specs.Tables.{group_variables};

use crate::walk::met;
use net_bench::netlist::{Netlist, Signal};
use std::alloc::{AllocError, Global};

/// Variables of a netlist that are put into an order together.
#[derive(Clone, Copy, Debug, PartialEq, Eq)]
pub enum VariableGroup {
    Inputs,
    Registers,
    /// Those below outputs and next states, in the order in which a walk meets them.
    BelowOutputs,
}

/// The signals of the registers, in their order.
pub fn registers_of(net: &Netlist) -> &[Signal]
    ensures value { result.now ≡ registers_of (circuit net.now) }
    ensures known { All (λ s. s < length net.now.names) result.now }
    ensures variables { All (λ s. IsTrue (is_member s (variables_of (circuit net.now)))) result.now }
{
    net.variables().split_at(net.inputs().len()).1
}

/// The variables of a group, in its order.
pub fn group_variables(
    alloc: Global,
    net: &Netlist,
    listing: VariableGroup,
) -> Result<Vec<Signal>, AllocError>
    ensures value { IfOk result (λ v. v.items ≡ group_variables listing (circuit net.now)) }
    ensures variables { IfOk result (λ v. All (λ s. IsTrue (is_member s (variables_of (circuit net.now)))) v.items) }
{
    match listing {
        VariableGroup::Inputs => Vec::from_slice(alloc, net.inputs()),
        VariableGroup::Registers => Vec::from_slice(alloc, registers_of(net)),
        VariableGroup::BelowOutputs => met(alloc, net),
    }
}
