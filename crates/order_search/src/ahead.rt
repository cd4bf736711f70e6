//! Attempts of a round that are made side by side, each by a thread of its own, before their results are looked at in
//! the sequence of the orders.
ghost use Rattle.std.specs.Prelude.{◌≡◌, ◌+◌, ◌*◌, ◌<◌, ◌≤◌, ◌^◌, ℕ, None, All, IfOk, length, slice_index_or};
ghost use Rattle.order_search.specs.Ahead.{AreRuns, IsRunAt, IsRunEnd, IsRunOf};
ghost use Rattle.order_search.specs.Trials.{IsReportedIn, IsTrial};

use crate::ahead_monitor::AheadMonitor;
use crate::attempts::{Ended, verdicts_by};
use crate::bounded_monitor::BoundedMonitor;
use crate::trials::Trial;
use compare_built::fault::CheckFault;
use compare_built::strategy::REQUESTS_PER_NODE;
use compare_built::task::Task;
use expand_work::{Monitor, WaveFault};
use net_order::pairing::Pairing;
use std::alloc::{AllocError, Global};
use std::sync::Wait;
use std::sync::atomic::AtomicBool;
use std::thread::Threads;
use thread_map::fork_each;

/// The greatest budget, in nodes, within which attempts are made side by side. Within a larger one waves are large, and
/// all workers share each of them.
const MOST_NODES: u64 = 1 << 19;

/// Returns the result of an attempt that ends with this fault. It is none if the attempt was stopped or memory was
/// refused: then the attempt is made again by itself, if its turn comes.
fn ended_by(fault: CheckFault) -> Option<Ended>
    ensures { IsRunEnd fault result }
{
    match fault {
        CheckFault::Wave(WaveFault::Full) => Some(Ended::GivenUp { full: true }),
        CheckFault::Wave(WaveFault::TooManyRequests) => Some(Ended::GivenUp { full: false }),
        _ => None,
    }
}

/// Compares in the order of a trial within a budget of nodes. The caller's monitor is not notified here how the attempt
/// has ended: it is notified in the sequence of the orders, if the attempt's turn comes.
fn run_of<H: Threads + Wait + Sync, G: Monitor>(
    task: &Task<'_, H>,
    declared: Option<&Pairing>,
    trial: &Trial,
    budget: u64,
    monitor: &AheadMonitor<'_, G>,
) -> Option<Ended>
    requires small { budget < 2 ^ 32 }
    requires verdict_order { IsReportedIn task.now declared }
    requires trial { IsTrial task.now trial.now }
    ensures { IsRunOf task.now declared.entry budget (G.bound monitor.now.monitor.now) trial.now result }
{
    let bounded = BoundedMonitor {
        monitor,
        most: (budget * REQUESTS_PER_NODE) as usize,
        reached: &trial.reached,
    };
    match verdicts_by(task, declared, trial, budget, &bounded) {
        Ok(verdicts) => {
            monitor.note_decided();
            Some(Ended::Decided(verdicts))
        }
        Err(fault) => ended_by(fault),
    }
}

/// Compares in the order of the trial at the monitor's place; returns none if there is no such trial.
fn run_at<H: Threads + Wait + Sync, G: Monitor>(
    task: &Task<'_, H>,
    declared: Option<&Pairing>,
    trials: &[Trial],
    budget: u64,
    monitor: &AheadMonitor<'_, G>,
) -> Option<Ended>
    requires small { budget < 2 ^ 32 }
    requires verdict_order { IsReportedIn task.now declared }
    requires own { All (IsTrial task.now) trials.now }
    ensures { IsRunAt task.now declared.entry budget (G.bound monitor.now.monitor.now) trials.now monitor.now.place result }
{
    let place = monitor.place;
    if place >= trials.len() {
        return None;
    }
    run_of(task, declared, &trials[place], budget, monitor)
}

/// Returns a list of `count` attempts without a result.
fn no_runs(alloc: Global, count: usize) -> Result<Vec<Option<Ended>>, AllocError>
    ensures one_for_each { IfOk result (λ runs. length runs.items ≡ count) }
    ensures none { IfOk result (λ runs. All (λ run. run ≡ None) runs.items) }
{
    let mut runs = Vec::new(alloc);
    for _ in 0..count {
        runs.push(None)?;
    }
    Ok(runs)
}

/// Returns a list of `count` flags that are not set.
fn no_flags(alloc: Global, count: usize) -> Result<Vec<AtomicBool>, AllocError> {
    let mut flags = Vec::new(alloc);
    for _ in 0..count {
        flags.push(AtomicBool::new(false))?;
    }
    Ok(flags)
}

/// Returns how many of the attempts are made side by side: at most one for each worker, and only as many as have
/// budgets within the limit together, so that they need no more memory than one store. It is 0 if that leaves fewer
/// than two, if the budget is large, or if the monitor lets the caller's thread expand no level.
fn count_ahead<H, G: Monitor>(task: &Task<'_, H>, trials: usize, budget: u64, monitor: &G) -> usize
    ensures one_each { result ≤ trials }
    ensures few { result ≤ task.now.settings.now.workers }
    ensures fit { result * budget ≤ task.now.settings.now.limit }
{
    let settings = task.settings;
    if budget == 0 || budget > MOST_NODES || monitor.caller_level_limit(settings.workers, 0) == 0 {
        return 0;
    }
    let workers = settings.workers as usize;
    let fit = (settings.limit / budget).min(16) as usize;
    let count = trials.min(workers).min(fit);
    if count < 2 {
        return 0;
    }
    count
}

/// Makes attempts side by side, each on a thread, in the orders of the first `count` trials. Returns their results by
/// place.
fn made_ahead<H: Threads + Wait + Sync, G: Monitor>(
    task: &Task<'_, H>,
    declared: Option<&Pairing>,
    trials: &[Trial],
    count: usize,
    budget: u64,
    monitor: &G,
) -> Result<Vec<Option<Ended>>, AllocError>
    requires small { budget < 2 ^ 32 }
    requires verdict_order { IsReportedIn task.now declared }
    requires own { All (IsTrial task.now) trials.now }
    requires few { count ≤ task.now.settings.now.workers }
    requires fit { count * budget ≤ task.now.settings.now.limit }
    ensures { IfOk result (λ runs. AreRuns task.now declared.entry budget (G.bound monitor.now) trials.now runs.items) }
{
    let flags = no_flags(task.alloc, count)?;
    let decided = flags.as_slice();
    let mut runs = no_runs(task.alloc, count)?;
    let run = |place: usize, ended: &mut Option<Ended>|
        requires { (budget < 2 ^ 32) × IsReportedIn task.now declared × All (IsTrial task.now) trials.now }
        ensures { IsRunAt task.entry.now declared.entry budget (G.bound monitor.entry.now) trials.entry.now place ended.exit.now }
    {
        let monitor = AheadMonitor {
            monitor,
            decided,
            place,
        };
        *ended = run_at(task, declared, trials, budget, &monitor);
    };
    fork_each(task.rt, runs.as_mut_slice(), &run);
    Ok(runs)
}

/// Makes attempts of a round side by side, if at least two may be made so, and returns their results by place. An
/// attempt has no result if memory was refused to it or if it was stopped, by the run or because one before it had
/// decided. The list is empty if no attempt was made or if memory for the results was refused. An attempt without a
/// result is made when its turn comes, so the result of a round does not depend on the number of threads.
pub(crate) fn runs_ahead<H: Threads + Wait + Sync, G: Monitor>(
    task: &Task<'_, H>,
    declared: Option<&Pairing>,
    trials: &[Trial],
    budget: u64,
    monitor: &G,
) -> Vec<Option<Ended>>
    requires small { budget < 2 ^ 32 }
    requires verdict_order { IsReportedIn task.now declared }
    requires own { All (IsTrial task.now) trials.now }
    ensures { AreRuns task.now declared.entry budget (G.bound monitor.now) trials.now result.items }
{
    let count = count_ahead(task, trials.len(), budget, monitor);
    if count == 0 {
        return Vec::new(task.alloc);
    }
    match made_ahead(task, declared, trials, count, budget, monitor) {
        Ok(runs) => runs,
        Err(_) => Vec::new(task.alloc),
    }
}

/// Takes the result of the next attempt from the front of the list; it is none if that attempt was not made or has
/// none.
pub(crate) fn next_run(runs: &mut Vec<Option<Ended>>) -> Option<Ended>
    ensures value { result ≡ slice_index_or runs.old.items 0 None }
    ensures rest { (i : ℕ) → slice_index_or runs.new.items i None ≡ slice_index_or runs.old.items (i + 1) None }
{
    if runs.is_empty() {
        return None;
    }
    runs.remove(0)
}
