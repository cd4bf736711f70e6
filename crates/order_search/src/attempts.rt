//! Attempts: comparisons in one order within a budget of nodes; and rounds, which are the attempts within one budget.
//! The last attempt of a run is the only one in declared order (`try_declared`).
ghost use Rattle.std.specs.Prelude.{◌≡◌, ◌<◌, ◌^◌, [], All, IfOk, IfErr};
ghost use Rattle.order_search.specs.Ahead.{IsRunOf};
ghost use Rattle.order_search.specs.Trials.{AreTrials, EndsAtOnce, IsCandidateFault, IsDecided, IsEnded, IsFirstAttempt, IsFirstRound};
ghost use Rattle.order_search.specs.Trials.{IsLastAttempt, IsReportedIn, IsRound, IsRoundInSequence, IsRoundInSomeSequence, IsTrial, IsTrialFault};
ghost use Rattle.order_search.specs.Trials.{WereGivenUp};

use crate::ahead::{next_run, runs_ahead};
use crate::attempt_end::{end_of, give_up_reason};
use crate::bounded_monitor::BoundedMonitor;
use crate::trials::{Trial, is_tried, keep, paired_by, put_furthest_first};
use compare_built::comparison::{compare, compare_as_declared};
use compare_built::fault::CheckFault;
use compare_built::strategy::{AttemptOrder, Candidate, REQUESTS_PER_NODE};
use compare_built::task::Task;
use expand_work::{AttemptEnd, Monitor};
use net_order::pairing::Pairing;
use report_text::Verdict;
use std::sync::Wait;
use std::sync::atomic::AtomicU32;
use std::thread::Threads;

/// The candidates, in the sequence in which they are tried within the first budget.
const CANDIDATES: [Candidate; 3] = [
    Candidate::MsbFirst,
    Candidate::Weights,
    Candidate::ForceGroups,
];

/// The attempt that decides a comparison: the trial with its order, the verdicts, and its budget in nodes.
#[derive(Drop)]
pub struct Decided {
    pub trial: Trial,
    pub verdicts: Vec<Verdict>,
    pub budget: u64,
}

/// The result of an attempt.
#[derive(Drop)]
pub(crate) enum Ended {
    /// The attempt has decided, with these verdicts.
    Decided(Vec<Verdict>),
    /// The attempt was given up. `full` says whether it needs more nodes than its budget.
    GivenUp { full: bool },
}

/// The result of a round.
#[derive(Drop)]
pub enum Round {
    /// One of the attempts has decided.
    Decided(Decided),
    /// All attempts were given up. `full` says that each of them needs more nodes than its budget. It is false if one
    /// of them was given up for the requests of a wave, or because the run was stopped.
    GivenUp { full: bool },
}

/// Compares in the order of a trial within a budget of nodes. The verdicts are reported over the variables of the
/// trial's pairing, or over those of `declared` if it is given. Fails as `compare` does.
pub(crate) fn verdicts_by<H: Threads + Wait + Sync, G: Monitor>(
    task: &Task<'_, H>,
    declared: Option<&Pairing>,
    trial: &Trial,
    budget: u64,
    monitor: &G,
) -> Result<Vec<Verdict>, CheckFault>
    requires small { budget < 2 ^ 32 }
    requires verdict_order { IsReportedIn task.now declared }
    requires trial { IsTrial task.now trial.now }
    ensures decided { IfOk result (λ v. IsDecided task.now declared.entry budget trial.now v.items) }
    ensures fault { IfErr result (IsTrialFault task.now budget (G.bound monitor.now) trial.now.pairing) }
{
    match declared {
        Some(declared) => compare_as_declared(task, &trial.pairing, declared, budget, monitor),
        None => compare(task, &trial.pairing, budget, monitor),
    }
}

/// Compares in the order of a trial within a budget of nodes, and notifies the monitor how that has ended. If the run
/// has stopped already, the attempt is given up at once, and the monitor is not notified.
fn attempt<H: Threads + Wait + Sync, G: Monitor>(
    task: &Task<'_, H>,
    declared: Option<&Pairing>,
    trial: &Trial,
    budget: u64,
    monitor: &G,
) -> Result<Ended, CheckFault>
    requires small { budget < 2 ^ 32 }
    requires verdict_order { IsReportedIn task.now declared }
    requires trial { IsTrial task.now trial.now }
    ensures ended { IfOk result (IsEnded task.now declared.entry budget (G.bound monitor.now) trial.now) }
    ensures fault { IfErr result (IsCandidateFault task.now) }
    ensures ends { IfErr result EndsAtOnce }
{
    if monitor.has_stopped() {
        return Ok(Ended::GivenUp { full: false });
    }
    let bounded = BoundedMonitor {
        monitor,
        most: (budget * REQUESTS_PER_NODE) as usize,
        reached: &trial.reached,
    };
    match verdicts_by(task, declared, trial, budget, &bounded) {
        Ok(verdicts) => {
            let order = trial.order.name();
            monitor.at_attempt(budget, AttemptEnd::Decided { order });
            Ok(Ended::Decided(verdicts))
        }
        Err(fault) => {
            let reason = give_up_reason(fault)?;
            monitor.at_attempt(budget, end_of(trial.order, reason));
            let full = reason.is_for_nodes();
            Ok(Ended::GivenUp { full })
        }
    }
}

/// Returns what the monitor is notified of when an attempt that was made side by side with others has ended. It has no
/// result if it was stopped, so that case is missing.
fn end_of_run(order: AttemptOrder, ended: &Ended) -> AttemptEnd {
    let order = order.name();
    match ended {
        Ended::Decided(_) => AttemptEnd::Decided { order },
        Ended::GivenUp { full } => {
            if *full {
                AttemptEnd::MoreNodes { order }
            } else {
                AttemptEnd::TooManyRequests { order }
            }
        }
    }
}

/// Returns the result of the attempt in the order of a trial. If it was made ahead, `run` is its result, of which the
/// monitor is notified now. Otherwise the attempt is made now.
fn attempt_unless_made<H: Threads + Wait + Sync, G: Monitor>(
    task: &Task<'_, H>,
    declared: Option<&Pairing>,
    trial: &Trial,
    run: Option<Ended>,
    budget: u64,
    monitor: &G,
) -> Result<Ended, CheckFault>
    requires small { budget < 2 ^ 32 }
    requires verdict_order { IsReportedIn task.now declared }
    requires trial { IsTrial task.now trial.now }
    requires run { IsRunOf task.now declared budget (G.bound monitor.now) trial.now run }
    ensures ended { IfOk result (IsEnded task.now declared.entry budget (G.bound monitor.now) trial.now) }
    ensures fault { IfErr result (IsCandidateFault task.now) }
    ensures ends { IfErr result EndsAtOnce }
{
    let Some(ended) = run else {
        return attempt(task, declared, trial, budget, monitor);
    };
    monitor.at_attempt(budget, end_of_run(trial.order, &ended));
    Ok(ended)
}

/// Makes the first attempt in an order, and keeps its trial if it is given up. If a trial before has the same order, no
/// attempt is made, as it would end in the same way. The result has `full` set then, since no other cause is added to
/// that of the earlier trial.
fn try_candidate<H: Threads + Wait + Sync, G: Monitor>(
    task: &Task<'_, H>,
    declared: Option<&Pairing>,
    order: AttemptOrder,
    trials: &mut Vec<Trial>,
    budget: u64,
    monitor: &G,
) -> Result<Round, CheckFault>
    requires small { budget < 2 ^ 32 }
    requires verdict_order { IsReportedIn task.now declared }
    requires own { All (IsTrial task.now) trials.old.items }
    ensures first_attempt { IfOk result (IsFirstAttempt task.now declared.entry budget (G.bound monitor.now) order trials.old.items trials.new.items) }
    ensures fault { IfErr result (IsCandidateFault task.now) }
    ensures ends { IfErr result EndsAtOnce }
{
    let pairing = paired_by(task, order)?;
    if is_tried(trials.as_slice(), pairing.names()) {
        return Ok(Round::GivenUp { full: true });
    }
    let trial = Trial {
        order,
        pairing,
        reached: AtomicU32::new(0),
    };
    match attempt(task, declared, &trial, budget, monitor)? {
        Ended::Decided(verdicts) => Ok(Round::Decided(Decided {
            trial,
            verdicts,
            budget,
        })),
        Ended::GivenUp { full } => {
            keep(trials, trial)?;
            Ok(Round::GivenUp { full })
        }
    }
}

/// Tries the candidates in turn within the first budget, until one decides, and keeps the trials of those that were
/// given up. Fails if an order or memory is refused.
pub fn try_first<H: Threads + Wait + Sync, G: Monitor>(
    task: &Task<'_, H>,
    declared: Option<&Pairing>,
    trials: &mut Vec<Trial>,
    budget: u64,
    monitor: &G,
) -> Result<Round, CheckFault>
    requires small { budget < 2 ^ 32 }
    requires verdict_order { IsReportedIn task.now declared }
    requires none { trials.old.items ≡ [] }
    ensures round { IfOk result (IsRound task.now declared.entry budget (G.bound monitor.now) trials.new.items) }
    ensures first { IfOk result (IsFirstRound task.now budget (G.bound monitor.now)) }
    ensures fault { IfErr result (IsCandidateFault task.now) }
    ensures ends { IfErr result EndsAtOnce }
{
    let mut all_full = true;
    for candidate in CANDIDATES {
        let order = AttemptOrder::Computed(candidate);
        match try_candidate(task, declared, order, trials, budget, monitor)? {
            Round::Decided(decided) => return Ok(Round::Decided(decided)),
            Round::GivenUp { full } => all_full &= full,
        }
    }
    Ok(Round::GivenUp { full: all_full })
}

/// Tries the orders of the trials within a budget, one after the other, until one decides. A trial that decides is taken
/// from the list. Several attempts may be made side by side before the first result is looked at, which does not change
/// which of them decides. Fails if memory is refused.
fn try_in_sequence<H: Threads + Wait + Sync, G: Monitor>(
    task: &Task<'_, H>,
    declared: Option<&Pairing>,
    trials: &mut Vec<Trial>,
    budget: u64,
    monitor: &G,
) -> Result<Round, CheckFault>
    requires small { budget < 2 ^ 32 }
    requires verdict_order { IsReportedIn task.now declared }
    requires trials { AreTrials task.now trials.old.items }
    ensures round { IfOk result (IsRound task.now declared.entry budget (G.bound monitor.now) trials.new.items) }
    ensures first { IfOk result (IsRoundInSequence task.now budget (G.bound monitor.now) trials.old.items trials.new.items) }
    ensures fault { IfErr result (IsCandidateFault task.now) }
    ensures ends { IfErr result EndsAtOnce }
{
    let mut runs = runs_ahead(task, declared, trials.as_slice(), budget, monitor);
    let mut all_full = true;
    for place in 0..trials.len() {
        let run = next_run(&mut runs);
        match attempt_unless_made(task, declared, &trials[place], run, budget, monitor)? {
            Ended::Decided(verdicts) => {
                let trial = trials.remove(place);
                return Ok(Round::Decided(Decided {
                    trial,
                    verdicts,
                    budget,
                }));
            }
            Ended::GivenUp { full } => all_full &= full,
        }
    }
    Ok(Round::GivenUp { full: all_full })
}

/// Tries the orders of the trials again within a larger budget, until one decides; the order whose last attempt reached
/// the highest rank is first. A trial that decides is taken from the list. Fails if memory is refused.
pub fn try_again<H: Threads + Wait + Sync, G: Monitor>(
    task: &Task<'_, H>,
    declared: Option<&Pairing>,
    trials: &mut Vec<Trial>,
    budget: u64,
    monitor: &G,
) -> Result<Round, CheckFault>
    requires small { budget < 2 ^ 32 }
    requires verdict_order { IsReportedIn task.now declared }
    requires trials { AreTrials task.now trials.old.items }
    ensures round { IfOk result (IsRound task.now declared.entry budget (G.bound monitor.now) trials.new.items) }
    ensures first { IfOk result (IsRoundInSomeSequence task.now budget (G.bound monitor.now) trials.old.items trials.new.items) }
    ensures fault { IfErr result (IsCandidateFault task.now) }
    ensures ends { IfErr result EndsAtOnce }
{
    put_furthest_first(trials);
    try_in_sequence(task, declared, trials, budget, monitor)
}

/// Compares in declared order within a budget of nodes, after the orders of some trials were tried within it. If one of
/// them is the same as declared order, no attempt is made, as it would end in the same way. Fails if the order or memory
/// is refused.
pub fn try_declared<H: Threads + Wait + Sync, G: Monitor>(
    task: &Task<'_, H>,
    declared: Option<&Pairing>,
    tried: Vec<Trial>,
    budget: u64,
    monitor: &G,
) -> Result<Round, CheckFault>
    requires small { budget < 2 ^ 32 }
    requires verdict_order { IsReportedIn task.now declared }
    requires given_up { WereGivenUp task.now budget (G.bound monitor.now) tried.items }
    ensures last { IfOk result (IsLastAttempt task.now declared.entry budget (G.bound monitor.now)) }
    ensures fault { IfErr result (IsCandidateFault task.now) }
    ensures ends { IfErr result EndsAtOnce }
{
    let mut trials = tried;
    let order = AttemptOrder::Declared;
    try_candidate(task, declared, order, &mut trials, budget, monitor)
}
