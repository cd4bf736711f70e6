//! The attempts at the whole netlists that auto makes: some before the pairs are judged, and the
//! others after them if a pair is left.
//!
//! By the steps of docs/ORDERS.md: `search_within` makes those of step 1, `search_again` those of
//! step 4, and `try_rest` those of step 7, with what was left out before. A *trial* is what an
//! attempt leaves if it is given up: its order, with the pairing in it, and how far it came; within
//! a larger budget the order that came furthest is tried first. `declared` is the pairing over
//! whose variables the verdicts are reported, whatever order decides.
ghost use Rattle.std.specs.Prelude.{◌≡◌, ◌↔◌, ◌<◌, ◌^◌, IfOk, IfErr, IsTrue, Some, min};
ghost use Rattle.compare_built.specs.Attempts.{first_whole_limit, whole_limit};
ghost use Rattle.order_search.specs.Trials.{AreAllGivenUp, AreTrials, EndsAtOnce, IsGivingUp, IsReportedIn};
ghost use Rattle.check_report.specs.Wholes.{AreTriedBefore, IsRestOfWhole, IsSearched, IsTriedAgain, IsTriedToLimit, attempt_of};

use compare_built::fault::CheckFault;
use compare_built::found::Verdicts;
use compare_built::strategy::Attempt;
use compare_built::task::Task;
use expand_work::{Monitor, WaveFault};
use net_order::pairing::Pairing;
use order_search::attempts::{Decided, Round, try_again, try_declared};
use order_search::budget_search::search;
use order_search::trials::Trial;
use std::sync::Wait;
use std::thread::Threads;

/// The most nodes of an attempt at the whole netlists before equal signals are merged. This is the
/// second of the budgets (`FIRST_BUDGET` and `GROWTH` in `order_search::budget_search`), and
/// `WHOLE_LIMIT` is less than the third, so no budget is between the two.
/// docs/decisions/orders-and-attempts.md says why merging comes between them.
pub(crate) const FIRST_WHOLE_LIMIT: u64 = 524_288;

/// The most nodes of an attempt at the whole netlists before the pairs are judged by their cones.
pub(crate) const WHOLE_LIMIT: u64 = 4_194_304;

/// The attempts at the whole netlists that were made before the pairs were judged. All of them were given up.
#[derive(Drop)]
pub(crate) enum TriedBefore {
    /// None was made, since any difference is asked for.
    Nothing,
    /// Those within the first limit were made, and have left these trials.
    First(Vec<Trial>),
    /// Those within the second limit were made as well.
    Second(Vec<Trial>),
}

/// The result of attempts at the whole netlists.
#[derive(Drop)]
pub(crate) enum WholeEnd {
    /// One of them has succeeded.
    Decided(Decided),
    /// Each was given up; these are the trials that they have left.
    GivenUp(Vec<Trial>),
}

/// Returns whether a search that fails with this fault has given up each of its attempts. A run
/// that has stopped counts as that: it goes on, without more attempts, to report what was decided
/// before.
fn is_giving_up(fault: CheckFault) -> bool
    ensures { IsTrue result ↔ IsGivingUp fault }
{
    matches!(
        fault,
        CheckFault::Wave(WaveFault::Full)
            | CheckFault::Wave(WaveFault::Stopped)
            | CheckFault::GivenUp
    )
}

/// Makes attempts at the whole netlists within budgets that grow up to the limit of the run, or up to `most` nodes if
/// that is less.
pub(crate) fn search_within<H: Threads + Wait + Sync, G: Monitor>(
    task: &Task<'_, H>,
    declared: &Pairing,
    most: u64,
    monitor: &G,
) -> Result<WholeEnd, CheckFault>
    requires small { most < 2 ^ 32 }
    requires verdict_order { IsReportedIn task.now (Some declared) }
    ensures searched { IfOk result (IsSearched task.now (Some declared.entry) (min most task.now.settings.now.limit) (G.bound monitor.now)) }
    ensures ends { IfErr result EndsAtOnce }
{
    let limit = most.min(task.settings.limit);
    let mut trials = Vec::new(task.alloc);
    let fault = match search(task, Some(declared), &mut trials, limit, monitor) {
        Ok(decided) => return Ok(WholeEnd::Decided(decided)),
        Err(fault) => fault,
    };
    if is_giving_up(fault) {
        return Ok(WholeEnd::GivenUp(trials));
    }
    Err(fault)
}

/// Tries the orders again within the second limit, after all attempts within the first one were given up. If the limit
/// of the run is not larger than the first limit, there is nothing to try.
pub(crate) fn search_again<H: Threads + Wait + Sync, G: Monitor>(
    task: &Task<'_, H>,
    declared: &Pairing,
    trials: Vec<Trial>,
    monitor: &G,
) -> Result<WholeEnd, CheckFault>
    requires verdict_order { IsReportedIn task.now (Some declared) }
    requires trials { AreTrials task.now trials.items }
    requires given_up { AreAllGivenUp task.now (first_whole_limit task.now.settings.now.limit) (G.bound monitor.now) }
    ensures again { IfOk result (IsTriedAgain task.now (Some declared.entry) (G.bound monitor.now)) }
    ensures ends { IfErr result EndsAtOnce }
{
    let limit = task.settings.limit;
    let mut trials = trials;
    if limit <= FIRST_WHOLE_LIMIT {
        return Ok(WholeEnd::GivenUp(trials));
    }
    let budget = WHOLE_LIMIT.min(limit);
    match try_again(task, Some(declared), &mut trials, budget, monitor)? {
        Round::Decided(decided) => Ok(WholeEnd::Decided(decided)),
        Round::GivenUp { .. } => Ok(WholeEnd::GivenUp(trials)),
    }
}

/// Makes those attempts within the second limit that were not made before the pairs were judged.
fn search_rest<H: Threads + Wait + Sync, G: Monitor>(
    task: &Task<'_, H>,
    declared: &Pairing,
    before: TriedBefore,
    monitor: &G,
) -> Result<WholeEnd, CheckFault>
    requires verdict_order { IsReportedIn task.now (Some declared) }
    requires before { AreTriedBefore task.now (G.bound monitor.now) before }
    ensures rest { IfOk result (IsTriedAgain task.now (Some declared.entry) (G.bound monitor.now)) }
    ensures ends { IfErr result EndsAtOnce }
{
    match before {
        TriedBefore::Nothing => search_within(task, declared, WHOLE_LIMIT, monitor),
        TriedBefore::First(trials) => search_again(task, declared, trials, monitor),
        TriedBefore::Second(trials) => Ok(WholeEnd::GivenUp(trials)),
    }
}

/// Tries the orders within the limit of the run, after all attempts within the second limit were given up. If the limit
/// of the run is not larger, they were tried within it already, and no trial is left.
fn try_to_limit<H: Threads + Wait + Sync, G: Monitor>(
    task: &Task<'_, H>,
    declared: &Pairing,
    trials: Vec<Trial>,
    monitor: &G,
) -> Result<WholeEnd, CheckFault>
    requires verdict_order { IsReportedIn task.now (Some declared) }
    requires trials { AreTrials task.now trials.items }
    requires given_up { AreAllGivenUp task.now (whole_limit task.now.settings.now.limit) (G.bound monitor.now) }
    ensures tried { IfOk result (IsTriedToLimit task.now (Some declared.entry) (G.bound monitor.now)) }
    ensures ends { IfErr result EndsAtOnce }
{
    let limit = task.settings.limit;
    if limit <= WHOLE_LIMIT {
        return Ok(WholeEnd::GivenUp(Vec::new(task.alloc)));
    }
    let mut trials = trials;
    match try_again(task, Some(declared), &mut trials, limit, monitor)? {
        Round::Decided(decided) => Ok(WholeEnd::Decided(decided)),
        Round::GivenUp { .. } => Ok(WholeEnd::GivenUp(trials)),
    }
}

/// Makes the remaining attempts at the whole netlists: those within the second limit that were not made before, then
/// those within the limit of the run, if that is larger, and at last one in declared order, unless an order that was
/// tried within the limit of the run is the same. Returns none if each was given up.
pub(crate) fn try_rest<H: Threads + Wait + Sync, G: Monitor>(
    task: &Task<'_, H>,
    declared: &Pairing,
    before: TriedBefore,
    monitor: &G,
) -> Result<Option<Decided>, CheckFault>
    requires verdict_order { IsReportedIn task.now (Some declared) }
    requires before { AreTriedBefore task.now (G.bound monitor.now) before }
    ensures rest { IfOk result (IsRestOfWhole task.now (Some declared.entry) (G.bound monitor.now)) }
    ensures ends { IfErr result EndsAtOnce }
{
    let trials = match search_rest(task, declared, before, monitor)? {
        WholeEnd::Decided(decided) => return Ok(Some(decided)),
        WholeEnd::GivenUp(trials) => trials,
    };
    let tried = match try_to_limit(task, declared, trials, monitor)? {
        WholeEnd::Decided(decided) => return Ok(Some(decided)),
        WholeEnd::GivenUp(tried) => tried,
    };
    let limit = task.settings.limit;
    match try_declared(task, Some(declared), tried, limit, monitor)? {
        Round::Decided(decided) => Ok(Some(decided)),
        Round::GivenUp { .. } => Ok(None),
    }
}

/// Returns the verdicts of an attempt at the whole netlists over the variables in declared order, and the attempt.
pub(crate) fn whole_verdicts(declared: Pairing, decided: Decided) -> (Verdicts, Option<Attempt>)
    ensures verdicts { result.0 ≡ record { naming = declared; verdicts = decided.verdicts.items } }
    ensures tried { result.1 ≡ Some (attempt_of decided) }
{
    let attempt = Attempt {
        order: decided.trial.order,
        budget: decided.budget,
    };
    let Decided { verdicts, .. } = decided;
    (
        Verdicts::of(declared.into_naming(), verdicts),
        Some(attempt),
    )
}
