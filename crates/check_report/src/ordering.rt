//! The order file of the variables of two netlists, by the strategy of the settings.
ghost use Rattle.std.specs.Prelude.{None, ◌≡◌, ◌≢◌, IfOk, IfErr, Err};
ghost use Rattle.compare_built.specs.Attempts.{IsAllowed, IsFound};
ghost use Rattle.order_search.specs.Tasks.{IfErrInOrder, OfTask};
ghost use Rattle.order_search.specs.Trials.{EndsAtOnce};
ghost use Rattle.check_report.specs.Decisions.{AreGivenUpBefore};
ghost use Rattle.check_report.specs.Listing.{IfListed, IfUnlisted, IsOrderPrinted};
ghost use Rattle.check_report.specs.Refusals.{MayList};

use crate::decision::compare_in_best_order;
use compare_built::fault::CheckFault;
use compare_built::strategy::{Attempt, AttemptOrder, Candidate, Strategy};
use compare_built::task::Task;
use expand_work::Monitor;
use net_names::order::Order;
use net_names::order_file::order_text;
use order_search::trials::{paired, paired_by};
use std::sync::Wait;
use std::thread::Threads;

/// Returns the order file of the variables of two netlists in this order.
fn text_in<H>(task: &Task<'_, H>, order: &Order) -> Result<Vec<u8>, CheckFault>
    ensures text { OfTask task.now (λ input s. IfOk result (λ text. IsOrderPrinted input s.matching order.now text.items)) }
    ensures fault { IfErrInOrder task.now order.now result }
    ensures ends { IfErr result EndsAtOnce }
{
    let pairing = paired(task, order)?;
    let text = order_text(task.alloc, pairing.names())?;
    Ok(text)
}

/// Returns the order file in this order, and no attempt, since no order is tried. It is the order that is named, or
/// declared order if the report is written in declared order whatever orders are tried.
fn given_text<H>(
    task: &Task<'_, H>,
    order: &Order,
) -> Result<(Vec<u8>, Option<Attempt>), CheckFault>
    requires untried { OfTask task.now (λ input s. IsFound input s.matching s.order s.limit None order.now) }
    requires cause { IsAllowed task.now.settings.now.order order.now }
    ensures text { IfListed task.now result }
    ensures no_attempt { IfOk result (λ r. r.1 ≡ None) }
    ensures fault { IfUnlisted task.now result }
    ensures ends { IfErr result EndsAtOnce }
{
    let text = text_in(task, order)?;
    Ok((text, None))
}

/// Returns the order file in the order that this candidate computes.
fn computed_text<H>(
    task: &Task<'_, H>,
    candidate: Candidate,
) -> Result<(Vec<u8>, Option<Attempt>), CheckFault>
    requires computed { task.now.settings.now.order ≡ Strategy.Computed candidate }
    ensures text { IfListed task.now result }
    ensures no_attempt { IfOk result (λ r. r.1 ≡ None) }
    ensures fault { IfUnlisted task.now result }
    ensures ends { IfErr result EndsAtOnce }
{
    let pairing = paired_by(task, AttemptOrder::Computed(candidate))?;
    let text = order_text(task.alloc, pairing.names())?;
    Ok((text, None))
}

/// Returns the order file in the best order, and the attempt that found it. Only this search builds diagrams.
fn best_text<H: Threads + Wait + Sync, G: Monitor>(
    task: &Task<'_, H>,
    monitor: &G,
) -> Result<(Vec<u8>, Option<Attempt>), CheckFault>
    requires best { task.now.settings.now.order ≡ Strategy.Best }
    ensures text { IfListed task.now result }
    ensures earlier_given_up { OfTask task.now (λ input s.
        IfOk result (λ r. AreGivenUpBefore input s (G.bound monitor.now) r.1)) }
    ensures answer { OfTask task.now (λ input s. IfErr result (MayList input s (G.bound monitor.now))) }
    ensures fault { IfUnlisted task.now result }
    ensures unwritten { result ≢ Err CheckFault.Write }
{
    let (verdicts, tried) = compare_in_best_order(task, monitor)?;
    let text = order_text(task.alloc, verdicts.variables())?;
    Ok((text, tried))
}

/// Returns the order file of the variables of two netlists in the order of their report: the named order, the best, or
/// declared order.
pub(crate) fn text_for<H: Threads + Wait + Sync, G: Monitor>(
    task: &Task<'_, H>,
    monitor: &G,
) -> Result<(Vec<u8>, Option<Attempt>), CheckFault>
    ensures text { IfListed task.now result }
    ensures earlier_given_up { OfTask task.now (λ input s.
        IfOk result (λ r. AreGivenUpBefore input s (G.bound monitor.now) r.1)) }
    ensures answer { OfTask task.now (λ input s. IfErr result (MayList input s (G.bound monitor.now))) }
    ensures fault { IfUnlisted task.now result }
    ensures unwritten { result ≢ Err CheckFault.Write }
{
    match &task.settings.order {
        Strategy::One(order) => given_text(task, order),
        Strategy::Computed(candidate) => computed_text(task, *candidate),
        Strategy::Best => best_text(task, monitor),
        Strategy::Auto | Strategy::Cones | Strategy::Merge => { given_text(task, &Order::Declared) }
        // The list is an order for the cones of single pairs; the report is in declared order.
        Strategy::ConesByList(_) => given_text(task, &Order::Declared),
    }
}
