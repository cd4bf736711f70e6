//! The verdicts of outputs and registers without a partner.
ghost use Rattle.std.specs.Prelude.{◌≡◌, ◌++◌, ◌<◌, length, map, All, OnOk};
ghost use Rattle.net_bench.specs.Circuit.{circuit};
ghost use Rattle.net_order.specs.Order.{names_of};
ghost use Rattle.compare_built.specs.Report.{unmatched_of_side};

use net_bench::netlist::{Netlist, Signal};
use net_order::naming::Naming;
use report_text::{Name, PairKind, Side, Verdict};
use std::alloc::{AllocError, Global};

/// Appends a verdict for each of these signals, which have no partner in the other netlist. Fails if memory is refused;
/// then some verdicts may have been appended.
pub fn add_unmatched(
    alloc: Global,
    verdicts: &mut Vec<Verdict>,
    side: Side,
    role: PairKind,
    net: &Netlist,
    signals: &[Signal],
) -> Result<(), AllocError>
    requires { All (λ s. s < length net.now.names) signals.now }
    ensures { OnOk result (verdicts.new.items ≡ verdicts.old.items
        ++ map (Verdict.Unmatched side role) (names_of (circuit net.now) signals.now)) }
{
    for signal in signals {
        let name = Name::copied(alloc, net.name(*signal))?;
        verdicts.push(Verdict::Unmatched { side, role, name })?;
    }
    Ok(())
}

/// Appends a verdict for each of the first netlist's outputs without a partner, then for each of its registers. Fails
/// as `add_unmatched` does.
pub fn add_first_unmatched(
    alloc: Global,
    verdicts: &mut Vec<Verdict>,
    net: &Netlist,
    naming: &Naming,
) -> Result<(), AllocError>
    requires outputs { All (λ s. s < length net.now.names) naming.now.outputs.only_first }
    requires registers { All (λ s. s < length net.now.names) naming.now.registers.only_first }
    ensures { OnOk result (verdicts.new.items ≡ verdicts.old.items
        ++ unmatched_of_side Side.First (circuit net.now) naming.now.outputs.only_first naming.now.registers.only_first) }
{
    let outputs = naming.only_first();
    let registers = naming.only_first_next();
    add_unmatched(alloc, verdicts, Side::First, PairKind::Output, net, outputs)?;
    add_unmatched(
        alloc,
        verdicts,
        Side::First,
        PairKind::NextState,
        net,
        registers,
    )
}

/// Appends a verdict for each of the second netlist's outputs without a partner, then for each of its registers. Fails
/// as `add_unmatched` does.
pub fn add_second_unmatched(
    alloc: Global,
    verdicts: &mut Vec<Verdict>,
    net: &Netlist,
    naming: &Naming,
) -> Result<(), AllocError>
    requires outputs { All (λ s. s < length net.now.names) naming.now.outputs.only_second }
    requires registers { All (λ s. s < length net.now.names) naming.now.registers.only_second }
    ensures { OnOk result (verdicts.new.items ≡ verdicts.old.items
        ++ unmatched_of_side Side.Second (circuit net.now) naming.now.outputs.only_second naming.now.registers.only_second) }
{
    let outputs = naming.only_second();
    let registers = naming.only_second_next();
    add_unmatched(
        alloc,
        verdicts,
        Side::Second,
        PairKind::Output,
        net,
        outputs,
    )?;
    add_unmatched(
        alloc,
        verdicts,
        Side::Second,
        PairKind::NextState,
        net,
        registers,
    )
}
