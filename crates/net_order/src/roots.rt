//! The roots of a netlist: what walks begin at.
ghost use Rattle.std.specs.Prelude.{◌≡◌, ◌<◌, length, All, IfOk};
ghost use Rattle.net_bench.specs.Circuit.{circuit};
ghost use Rattle.net_order.specs.Order.{roots};

use net_bench::netlist::{Netlist, Signal};
use std::alloc::{AllocError, Global};

/// The roots of a netlist: its outputs, then the next states of its registers.
pub fn roots_of(alloc: Global, net: &Netlist) -> Result<Vec<Signal>, AllocError>
    ensures value { IfOk result (λ v. v.items ≡ roots (circuit net.now)) }
    ensures known { IfOk result (λ v. All (λ s. s < length net.now.names) v.items) }
{
    let mut roots = Vec::from_slice(alloc, net.outputs())?;
    let registers = net.registers();
    for register in registers {
        roots.extend_from_slice(register.operands.as_slice())?;
    }
    Ok(roots)
}
