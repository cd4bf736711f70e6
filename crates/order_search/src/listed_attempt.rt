//! An attempt in an order that is given by a list of names.
ghost use Rattle.std.specs.Prelude.{◌≡◌, ◌<◌, ◌^◌, None, Ok, Some, IfOk, IfErr, IfSome};
ghost use Rattle.order_search.specs.Trials.{AreVerdictsIn, EndsAtOnce, IsGivenUpFor, IsReportedIn, IsSomePairing, IsTrialFault};

use crate::attempt_end::give_up_reason;
use crate::bounded_monitor::BoundedMonitor;
use compare_built::comparison::compare_as_declared;
use compare_built::fault::CheckFault;
use compare_built::strategy::REQUESTS_PER_NODE;
use compare_built::task::Task;
use expand_work::Monitor;
use net_order::pairing::Pairing;
use report_text::Verdict;
use std::sync::Wait;
use std::sync::atomic::AtomicU32;
use std::thread::Threads;

/// Compares in the order of a pairing within a budget of nodes. The verdicts are reported over the variables of another
/// pairing, `declared`. Fails as `compare_as_declared` does.
fn verdicts_in<H: Threads + Wait + Sync, G: Monitor>(
    task: &Task<'_, H>,
    declared: &Pairing,
    pairing: &Pairing,
    budget: u64,
    monitor: &G,
) -> Result<Vec<Verdict>, CheckFault>
    requires small { budget < 2 ^ 32 }
    requires paired { IsSomePairing task.now pairing.now }
    requires verdict_order { IsReportedIn task.now (Some declared) }
    ensures decided { IfOk result (λ v. AreVerdictsIn task.now declared.now budget pairing.now v.items) }
    ensures fault { IfErr result (IsTrialFault task.now budget (G.bound monitor.now) pairing.now) }
{
    compare_as_declared(task, pairing, declared, budget, monitor)
}

/// Compares in the order of a pairing within a budget of nodes. The verdicts are reported over the variables of another
/// pairing, `declared`. There are none if the attempt was given up, or if the run has stopped before it began. The
/// monitor is not notified of how it has ended.
pub fn try_pairing<H: Threads + Wait + Sync, G: Monitor>(
    task: &Task<'_, H>,
    declared: &Pairing,
    pairing: &Pairing,
    budget: u64,
    monitor: &G,
) -> Result<Option<Vec<Verdict>>, CheckFault>
    requires small { budget < 2 ^ 32 }
    requires paired { IsSomePairing task.now pairing.now }
    requires verdict_order { IsReportedIn task.now (Some declared) }
    ensures decided { IfOk result (λ o. IfSome o (λ v. AreVerdictsIn task.now declared.now budget pairing.now v.items)) }
    ensures given_up { result ≡ Ok None → IsGivenUpFor task.now budget (G.bound monitor.now) pairing.now }
    ensures ends { IfErr result EndsAtOnce }
{
    if monitor.has_stopped() {
        return Ok(None);
    }
    let reached = AtomicU32::new(0);
    let bounded = BoundedMonitor {
        monitor,
        most: (budget * REQUESTS_PER_NODE) as usize,
        reached: &reached,
    };
    match verdicts_in(task, declared, pairing, budget, &bounded) {
        Ok(verdicts) => Ok(Some(verdicts)),
        Err(fault) => {
            give_up_reason(fault)?;
            Ok(None)
        }
    }
}
