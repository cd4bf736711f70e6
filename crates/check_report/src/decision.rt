//! The comparison of two netlists in the order that the settings name, or in one that is searched
//! for.
//!
//! In these contracts, as in `pairs`, `full_report` and `ordering`, the three `⊥` say that no
//! device has failed: all texts were read before. An attempt is returned only if several orders
//! were tried.
ghost use Rattle.std.specs.Prelude.{◌≡◌, IfErr};
ghost use Rattle.order_search.specs.Trials.{EndsSearch};
ghost use Rattle.check_report.specs.Decisions.{IfDecided, IfNamed, IfRefused};

use crate::pairs::{compare_auto, compare_by_cones, compare_by_merging};
use compare_built::comparison::compare;
use compare_built::fault::CheckFault;
use compare_built::found::Verdicts;
use compare_built::strategy::{Attempt, AttemptOrder, Candidate, Strategy};
use compare_built::task::Task;
use expand_work::Monitor;
use net_names::order::Order;
use order_search::attempts::Decided;
use order_search::budget_search::find_attempt;
use order_search::trials::{Trial, paired, paired_by};
use std::sync::Wait;
use std::thread::Threads;

/// Compares two netlists in this order. No attempt is reported, since no other order is tried.
fn compare_in_order<H: Threads + Wait + Sync, G: Monitor>(
    task: &Task<'_, H>,
    order: &Order,
    monitor: &G,
) -> Result<(Verdicts, Option<Attempt>), CheckFault>
    requires named { task.now.settings.now.order ≡ Strategy.One order.now }
    ensures decision { IfDecided task.now (G.bound monitor.now) result }
    ensures no_decision { IfRefused task.now (G.bound monitor.now) result }
    ensures named { IfNamed task.now result }
{
    let pairing = paired(task, order)?;
    let verdicts = compare(task, &pairing, task.settings.limit, monitor)?;
    Ok((Verdicts::of(pairing.into_naming(), verdicts), None))
}

/// Compares two netlists in the order that this candidate computes, within the limit.
fn compare_in_computed_order<H: Threads + Wait + Sync, G: Monitor>(
    task: &Task<'_, H>,
    candidate: Candidate,
    monitor: &G,
) -> Result<(Verdicts, Option<Attempt>), CheckFault>
    requires computed { task.now.settings.now.order ≡ Strategy.Computed candidate }
    ensures decision { IfDecided task.now (G.bound monitor.now) result }
    ensures no_decision { IfRefused task.now (G.bound monitor.now) result }
    ensures named { IfNamed task.now result }
{
    let pairing = paired_by(task, AttemptOrder::Computed(candidate))?;
    let verdicts = compare(task, &pairing, task.settings.limit, monitor)?;
    Ok((Verdicts::of(pairing.into_naming(), verdicts), None))
}

/// Compares two netlists in the order of the first candidate that succeeds within a budget. Returns its attempt with
/// the verdicts.
pub(crate) fn compare_in_best_order<H: Threads + Wait + Sync, G: Monitor>(
    task: &Task<'_, H>,
    monitor: &G,
) -> Result<(Verdicts, Option<Attempt>), CheckFault>
    requires best { task.now.settings.now.order ≡ Strategy.Best }
    ensures decision { IfDecided task.now (G.bound monitor.now) result }
    ensures no_decision { IfRefused task.now (G.bound monitor.now) result }
    ensures ends { IfErr result EndsSearch }
    ensures named { IfNamed task.now result }
{
    // Without a pairing of its own for the report, the verdicts are over the variables of the order
    // that decides.
    let decided = find_attempt(task, None, task.settings.limit, monitor)?;
    let Decided {
        trial,
        verdicts,
        budget,
    } = decided;
    let Trial { order, pairing, .. } = trial;
    let attempt = Attempt { order, budget };
    Ok((Verdicts::of(pairing.into_naming(), verdicts), Some(attempt)))
}

/// Compares two netlists by the strategy of the settings. Returns the verdicts, and the attempt that found them if
/// several orders were tried.
pub(crate) fn decide<H: Threads + Wait + Sync, G: Monitor>(
    task: &Task<'_, H>,
    monitor: &G,
) -> Result<(Verdicts, Option<Attempt>), CheckFault>
    ensures decision { IfDecided task.now (G.bound monitor.now) result }
    ensures no_decision { IfRefused task.now (G.bound monitor.now) result }
    ensures named { IfNamed task.now result }
{
    match &task.settings.order {
        Strategy::One(order) => compare_in_order(task, order, monitor),
        Strategy::Computed(candidate) => compare_in_computed_order(task, *candidate, monitor),
        Strategy::Best => compare_in_best_order(task, monitor),
        Strategy::Auto => compare_auto(task, monitor),
        Strategy::Cones => compare_by_cones(task, monitor),
        Strategy::ConesByList(_) => compare_by_cones(task, monitor),
        Strategy::Merge => compare_by_merging(task, monitor),
    }
}
