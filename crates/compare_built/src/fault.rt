//! Why a comparison has no report.
ghost use Rattle.std.specs.Prelude.{◌≡◌};
ghost use Rattle.compare_built.specs.declared.fault.CheckFault.TheVariants as check_faults;

use expand_work::WaveFault;
use net_bench::fault::BenchFault;
use net_names::order::OrderFault;
use std::alloc::AllocError;

/// Why a comparison has no report. The causes are listed in the order in which they are looked for.
#[derive(Clone, Copy, Drop, Debug, PartialEq, Eq)]
pub enum CheckFault {
    /// The first text is refused.
    First(BenchFault),
    /// The second text is refused.
    Second(BenchFault),
    /// The condition's text is refused.
    Given(BenchFault),
    /// The condition has no output, or more than one.
    GivenOutputs,
    /// An explanation is asked for by a name that no output or register of the first netlist has.
    Explain,
    /// The netlists have no pairing.
    Order(OrderFault),
    /// A name pattern by which pairs are picked matches no output and no register of the first netlist.
    Only,
    /// A wave has failed, so the diagrams were not built.
    Wave(WaveFault),
    /// Orders were tried, and every attempt was given up, at least one of them for another cause than its nodes.
    GivenUp,
    /// The report was not written, or not all of it.
    Write,
    /// Memory was refused outside a wave: for the store, the comparison or the text of the report.
    OutOfMemory,
}

impl From<AllocError> for CheckFault {
    ghost from_gives = { λ _ fault. fault ≡ check_faults.OutOfMemory };

    fn from(_: AllocError) -> CheckFault {
        CheckFault::OutOfMemory
    }
}

impl From<WaveFault> for CheckFault {
    ghost from_gives = { λ wave fault. fault ≡ check_faults.Wave wave };

    fn from(wave: WaveFault) -> CheckFault {
        CheckFault::Wave(wave)
    }
}

impl From<OrderFault> for CheckFault {
    ghost from_gives = { λ order fault. fault ≡ check_faults.Order order };

    fn from(order: OrderFault) -> CheckFault {
        CheckFault::Order(order)
    }
}
