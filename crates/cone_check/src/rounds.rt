//! Rounds in which pairs are judged by their cones, each round within a larger budget than the one before. So no pair
//! that a small budget decides waits for a hard one, and the smaller a budget is, the more pairs can be judged at once.
ghost use Rattle.std.specs.Prelude.{◌≡◌, ◌<◌, ◌≤◌, ◌*◌, ◌^◌, length, All, IfOk, IfErr, IsPermutation};
ghost use Rattle.std.specs.List.{AllZip};
ghost use Rattle.net_order.specs.Force.{numbers_below};
ghost use Rattle.compare_built.specs.Cones.{cone_limit};
ghost use Rattle.cone_check.specs.ConeRounds.{AreAllJudged, AreKnownAtOnce, EndsPairs, IsConeContext, IsInContext, IsJobResult, IsPairSettings, IsRoundOf};
ghost use Rattle.cone_check.specs.KnownPairs.{AreKept};
ghost use Rattle.cone_check.specs.Batches.{AreAtOnce, AreJobsDone, AreJobsInContext, IsJobDone, jobs_of, pairs_at_once};

use crate::batches::{Batch, PairJob, dealt, gathered};
use crate::judging_order::judging_order;
use crate::pair_cones::ConeContext;
use crate::pairs::{judge_pair, pair_settings};
use crate::remaining::{count_left, left_in, written};
use compare_built::fault::CheckFault;
use compare_built::settings::Settings;
use compare_built::subject::Subject;
use expand_work::{AttemptEnd, Monitor};
use order_search::budget_search::{FIRST_BUDGET, GROWTH};
use report_text::Verdict;
use std::alloc::AllocError;
use std::sync::Wait;
use std::thread::Threads;
use thread_map::fork_each;

/// Judges the pair of a job, and keeps the result in it.
fn run_job<H: Threads + Wait + Sync, G: Monitor>(
    context: &ConeContext<'_, H>,
    settings: &Settings,
    job: &mut PairJob,
    budget: u64,
    monitor: &G,
)
    requires small { budget < 2 ^ 32 }
    requires ready { IsConeContext context.now }
    requires settings { IsPairSettings context.now settings.now }
    requires in_range { IsInContext context.now job.old.subject }
    ensures place { job.new.place ≡ job.old.place }
    ensures subject { job.new.subject ≡ job.old.subject }
    ensures ended { IsJobResult context.now budget (G.bound monitor.now) job.old.subject job.new.ended }
{
    job.ended = judge_pair(context, settings, &job.subject, budget, monitor);
}

/// Judges the pairs of these jobs, one after the other.
fn run_jobs<H: Threads + Wait + Sync, G: Monitor>(
    context: &ConeContext<'_, H>,
    settings: &Settings,
    jobs: &mut Vec<PairJob>,
    budget: u64,
    monitor: &G,
)
    requires small { budget < 2 ^ 32 }
    requires ready { IsConeContext context.now }
    requires settings { IsPairSettings context.now settings.now }
    requires in_range { AreJobsInContext context.now jobs.old.items }
    ensures { AllZip (IsJobDone context.now budget (G.bound monitor.now)) jobs.old.items jobs.new.items }
{
    for place in 0..jobs.len() {
        run_job(context, settings, &mut jobs[place], budget, monitor);
    }
}

/// Judges the pairs of a batch, one after the other, with the workers of the batch.
fn run_batch<H: Threads + Wait + Sync, G: Monitor>(
    context: &ConeContext<'_, H>,
    batch: &mut Batch,
    budget: u64,
    monitor: &G,
)
    requires small { budget < 2 ^ 32 }
    requires ready { IsConeContext context.now }
    requires in_range { AreJobsInContext context.now batch.old.jobs.items }
    ensures { AllZip (IsJobDone context.now budget (G.bound monitor.now)) batch.old.jobs.items batch.new.jobs.items }
{
    let settings = pair_settings(context, batch.workers);
    run_jobs(context, &settings, &mut batch.jobs, budget, monitor);
}

/// Judges the pairs of all batches at the same time, with a thread for each batch. The caller's thread judges the last
/// batch, and those whose threads cannot be started.
fn run_batches<H: Threads + Wait + Sync, G: Monitor>(
    context: &ConeContext<'_, H>,
    batches: &mut [Batch],
    budget: u64,
    monitor: &G,
)
    requires small { budget < 2 ^ 32 }
    requires ready { IsConeContext context.now }
    requires at_once { let s = context.now.task.now.settings.now in AreAtOnce s.workers s.limit budget batches.old }
    requires in_range { AreJobsInContext context.now (jobs_of batches.old) }
    ensures { AllZip (IsJobDone context.now budget (G.bound monitor.now)) (jobs_of batches.old) (jobs_of batches.new) }
{
    let run = |_place: usize, batch: &mut Batch|
        requires { (budget < 2 ^ 32) × IsConeContext context.now × AreJobsInContext context.now batch.now.jobs.items }
        ensures { AllZip (IsJobDone context.entry.now budget (G.bound monitor.entry.now)) batch.entry.now.jobs.items batch.exit.now.jobs.items }
    { run_batch(context, batch, budget, monitor) };
    fork_each(context.task.rt, batches, &run);
}

/// Returns how many pairs are judged at the same time if `left` are left: at most one for each worker, and no more than
/// can each have the budget while all of them are within the limit.
fn pairs_at_once(settings: &Settings, budget: u64, left: usize) -> u32
    requires some { 1 ≤ budget }
    requires within { budget ≤ settings.now.limit }
    requires left { 1 ≤ left }
    ensures value { result ≡ pairs_at_once settings.now.limit budget settings.now.workers left }
    ensures some { 1 ≤ result }
    ensures few { result ≤ settings.now.workers }
    ensures fit { result * budget ≤ settings.now.limit }
{
    let fit = (settings.limit / budget).min(u64::from(settings.workers));
    fit.min(left as u64) as u32
}

/// Judges the pairs at these places, several at the same time, each within `budget` nodes. Fails if memory is refused;
/// a fault of a pair is in its job.
fn judge_at<H: Threads + Wait + Sync, G: Monitor>(
    context: &ConeContext<'_, H>,
    subjects: &[Subject],
    places: &[usize],
    budget: u64,
    monitor: &G,
) -> Result<Vec<PairJob>, AllocError>
    requires some { 1 ≤ budget }
    requires left { 1 ≤ length places.now }
    requires small { budget < 2 ^ 32 }
    requires within { budget ≤ context.now.task.now.settings.now.limit }
    requires ready { IsConeContext context.now }
    requires in_range { All (IsInContext context.now) subjects.now }
    requires places { All (λ place. place < length subjects.now) places.now }
    ensures { IfOk result (λ jobs. AreJobsDone context.now budget (G.bound monitor.now) subjects.now places.now jobs.items) }
{
    let settings = context.task.settings;
    let alloc = context.task.alloc;
    let count = pairs_at_once(settings, budget, places.len());
    let mut batches = dealt(alloc, subjects, places, settings.workers, count)?;
    run_batches(context, batches.as_mut_slice(), budget, monitor);
    gathered(alloc, batches)
}

/// Notifies the monitor of the number of pairs that are left after a round.
fn notify_round<G: Monitor>(known: &[Option<Verdict>], budget: u64, monitor: &G) {
    let end = AttemptEnd::Left {
        left: count_left(known),
        pairs: known.len(),
    };
    monitor.at_attempt(budget, end);
}

/// Judges the pairs that have no verdict yet, each within `budget` nodes, and notifies the monitor of the number that
/// is left. A round that has no pair to judge, or does not begin since the run has stopped, is not reported.
fn judge_round<H: Threads + Wait + Sync, G: Monitor>(
    context: &ConeContext<'_, H>,
    subjects: &[Subject],
    order: &[usize],
    known: Vec<Option<Verdict>>,
    budget: u64,
    monitor: &G,
) -> Result<Vec<Option<Verdict>>, CheckFault>
    requires some { 1 ≤ budget }
    requires small { budget < 2 ^ 32 }
    requires within { budget ≤ context.now.task.now.settings.now.limit }
    requires ready { IsConeContext context.now }
    requires in_range { All (IsInContext context.now) subjects.now }
    requires order { IsPermutation (numbers_below (length subjects.now)) order.now }
    requires one_for_each { length known.items ≡ length subjects.now }
    ensures round { IfOk result (λ all. IsRoundOf context.now budget (G.bound monitor.now) subjects.now known.items all.items) }
    ensures ends { IfErr result EndsPairs }
{
    if monitor.has_stopped() {
        return Ok(known);
    }
    let left = left_in(context.task.alloc, order, known.as_slice())?;
    let count = left.len();
    if count == 0 {
        return Ok(known);
    }
    let jobs = judge_at(context, subjects, left.as_slice(), budget, monitor)?;
    let all = written(known, jobs)?;
    notify_round(all.as_slice(), budget, monitor);
    Ok(all)
}

/// Returns the most nodes that the cones of one pair may need in a run with this limit: a quarter of it, so that also
/// in the last round four pairs can be judged at the same time, and at least 1.
pub fn cone_limit(limit: u64) -> u64
    ensures { result ≡ cone_limit limit }
{
    (limit / 4).max(1)
}

/// Judges pairs by their cones in rounds, each of which judges the pairs that are left. The budgets grow from
/// `FIRST_BUDGET` by the factor `GROWTH`, and the last one is the `cone_limit` of the run. Verdicts that are known at
/// once are kept, and their pairs are not judged. In each round the pairs that no pattern shows to differ, by their
/// flags, come first, and of those and of the others the ones with the most gates in their cones. Fails only if memory
/// is refused, to a wave or elsewhere.
pub(crate) fn judge_all<H: Threads + Wait + Sync, G: Monitor>(
    context: &ConeContext<'_, H>,
    subjects: &[Subject],
    known: Vec<Option<Verdict>>,
    flags: &[bool],
    monitor: &G,
) -> Result<Vec<Option<Verdict>>, CheckFault>
    requires ready { IsConeContext context.now }
    requires in_range { All (IsInContext context.now) subjects.now }
    requires at_once { AreKnownAtOnce context.now subjects.now known.items }
    ensures known { IfOk result (λ known. AreAllJudged context.now (G.bound monitor.now) subjects.now known.items) }
    ensures kept { IfOk result (λ all. AreKept known.items all.items) }
    ensures ends { IfErr result EndsPairs }
{
    let limit = cone_limit(context.task.settings.limit);
    let order = judging_order(context, subjects, flags)?;
    let mut known = known;
    let mut budget = FIRST_BUDGET;
    while budget < limit {
        known = judge_round(context, subjects, order.as_slice(), known, budget, monitor)?;
        budget *= GROWTH;
    }
    judge_round(context, subjects, order.as_slice(), known, limit, monitor)
}
