//! How attempts end: the faults with which an attempt is given up, what the monitor is notified of, and the fault of a
//! search in which all were given up.
ghost use Rattle.std.specs.Prelude.{◌≡◌, ◌≢◌, true, false, IfOk, IfErr};
ghost use Rattle.expand_work.specs.Bounds.{MayStop};
ghost use Rattle.order_search.specs.Trials.{IsGivingUp, fault_for};

use compare_built::fault::CheckFault;
use compare_built::strategy::AttemptOrder;
use expand_work::{AttemptEnd, Monitor, WaveFault};

/// Why an attempt is given up.
#[derive(Clone, Copy, Drop)]
pub(crate) enum GiveUpReason {
    /// It needs more nodes than its budget.
    MoreNodes,
    /// One of its waves has more requests than it may have.
    TooManyRequests,
    /// The run was stopped before the attempt had ended.
    Stopped,
}

impl GiveUpReason {
    /// Whether the attempt is given up because it needs more nodes.
    pub(crate) fn is_for_nodes(self) -> bool
        ensures nodes { result ≡ true → self ≡ GiveUpReason.MoreNodes }
        ensures others { result ≡ false → self ≢ GiveUpReason.MoreNodes }
    {
        match self {
            GiveUpReason::MoreNodes => true,
            GiveUpReason::TooManyRequests | GiveUpReason::Stopped => false,
        }
    }
}

/// Returns why an attempt that fails with this fault is given up. Any other fault is returned as the error, and ends
/// the search.
pub(crate) fn give_up_reason(fault: CheckFault) -> Result<GiveUpReason, CheckFault>
    ensures reason { IfOk result (λ reason. fault ≡ fault_for reason) }
    ensures same { IfErr result (λ f. f ≡ fault) }
    ensures other { IfErr result (λ f. (f ≢ CheckFault.Wave WaveFault.Full) × (f ≢ CheckFault.Wave WaveFault.TooManyRequests)
        × (f ≢ CheckFault.Wave WaveFault.Stopped)) }
{
    match fault {
        CheckFault::Wave(WaveFault::Full) => Ok(GiveUpReason::MoreNodes),
        CheckFault::Wave(WaveFault::TooManyRequests) => Ok(GiveUpReason::TooManyRequests),
        CheckFault::Wave(WaveFault::Stopped) => Ok(GiveUpReason::Stopped),
        _ => Err(fault),
    }
}

/// Returns what the monitor is notified of when an attempt in this order was given up.
pub(crate) fn end_of(order: AttemptOrder, reason: GiveUpReason) -> AttemptEnd {
    let order = order.name();
    match reason {
        GiveUpReason::MoreNodes => AttemptEnd::MoreNodes { order },
        GiveUpReason::TooManyRequests => AttemptEnd::TooManyRequests { order },
        GiveUpReason::Stopped => AttemptEnd::Stopped { order },
    }
}

/// Returns the fault of a search in which all attempts were given up: Full if each attempt within the limit needs more
/// nodes (`full`), and otherwise Stopped if the run has stopped, or else GivenUp.
pub(crate) fn fault_of<G: Monitor>(full: bool, monitor: &G) -> CheckFault
    ensures which { IsGivingUp result }
    ensures full { result ≡ CheckFault.Wave WaveFault.Full → full ≡ true }
    ensures others { result ≡ CheckFault.GivenUp → full ≡ false }
    ensures stopped { result ≡ CheckFault.Wave WaveFault.Stopped → MayStop (G.bound monitor.now) }
{
    if full {
        CheckFault::Wave(WaveFault::Full)
    } else if monitor.has_stopped() {
        CheckFault::Wave(WaveFault::Stopped)
    } else {
        CheckFault::GivenUp
    }
}
