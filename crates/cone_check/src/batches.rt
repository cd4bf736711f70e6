//! The pairs of a round as jobs in batches. One thread judges a batch, and has workers of its own for the waves.
ghost use Rattle.std.specs.Prelude.{◌≡◌, ◌+◌, ◌++◌, ◌∷◌, [], ◌<◌, ◌≤◌, length, All, IfOk, OnOk};
ghost use Rattle.std.specs.List.Sorted.{IsNonDecreasingBy, IsPermutation};
ghost use Rattle.compare_built.specs.PairSelection.{serpentine_share};
ghost use Rattle.cone_check.specs.declared.batches.PairJob.{PairJob as PairJobValue};
ghost use Rattle.cone_check.specs.Batches.{AreJobsFor, ShareWorkers, batch_workers, jobs_in, jobs_of, put_at, workers_of};

use compare_built::fault::CheckFault;
use compare_built::subject::Subject;
use expand_work::Workers;
use pair_facts::serpentine_share;
use report_text::Verdict;
use std::alloc::{AllocError, Global};

/// A pair that a round judges, and its result.
#[derive(Drop)]
pub struct PairJob {
    /// The place of the pair among all pairs.
    pub place: usize,
    pub subject: Subject,
    /// The verdict, or `Ok(None)` if the pair is not judged yet or was left undecided. It is kept in the job, since the
    /// thread of a batch returns nothing.
    pub ended: Result<Option<Verdict>, CheckFault>,
}

/// The pairs that one thread judges, one after the other, and the workers that do their waves.
#[derive(Drop)]
pub struct Batch {
    pub workers: Workers,
    pub jobs: Vec<PairJob>,
}

impl PairJob {
    /// Returns the job of a pair that is not judged yet.
    fn of(place: usize, subject: Subject) -> PairJob
        ensures place { result.place ≡ place }
        ensures subject { result.subject ≡ subject }
    {
        PairJob {
            place,
            subject,
            ended: Ok(None),
        }
    }
}

impl Batch {
    /// Adds a job after the others. Fails if memory is refused.
    fn add(&mut self, job: PairJob) -> Result<(), AllocError>
        ensures jobs { OnOk result (self.new.jobs.items ≡ self.old.jobs.items ++ job ∷ []) }
        ensures workers { self.new.workers ≡ self.old.workers }
    {
        self.jobs.push(job)?;
        Ok(())
    }
}

/// Returns the number of workers of the batch at this place, if `batches` batches share `workers` workers. If they
/// cannot be shared evenly, the first batches have one more than the others.
fn batch_workers(workers: u32, batches: u32, place: u32) -> Workers
    requires some { 1 ≤ batches }
    requires few { batches ≤ workers }
    requires most { workers ≤ 16 }
    ensures { result.count ≡ batch_workers workers batches place }
{
    let more = if place < workers % batches { 1 } else { 0 };
    Workers::new(workers / batches + more)
}

/// Returns `count` batches without jobs, which share the workers. Fails if memory is refused.
fn empty_batches(alloc: Global, workers: u32, count: u32) -> Result<Vec<Batch>, AllocError>
    requires some { 1 ≤ count }
    requires few { count ≤ workers }
    requires most { workers ≤ 16 }
    ensures one_for_each { IfOk result (λ v. length v.items ≡ count) }
    ensures none { IfOk result (λ v. jobs_of v.items ≡ []) }
    ensures workers { IfOk result (λ v. ShareWorkers workers (workers_of v.items)) }
{
    let mut batches = Vec::new(alloc);
    for place in 0..count {
        let jobs = Vec::new(alloc);
        let workers = batch_workers(workers, count, place);
        batches.push(Batch { workers, jobs })?;
    }
    Ok(batches)
}

/// Returns the number of the batch, counted from 0, into which the job at this position goes in serpentine order.
fn batch_number(batches: u32, position: usize) -> usize
    requires { 1 ≤ batches }
    ensures value { result + 1 ≡ serpentine_share batches position }
    ensures low { result < batches }
{
    (serpentine_share(batches, position) - 1) as usize
}

/// Adds a job to the batch of this number, after its other jobs.
fn add_job(batches: &mut Vec<Batch>, number: usize, job: PairJob) -> Result<(), AllocError>
    requires { number < length batches.old.items }
    ensures jobs { OnOk result (jobs_in batches.new.items ≡ put_at number job (jobs_in batches.old.items)) }
    ensures workers { OnOk result (workers_of batches.new.items ≡ workers_of batches.old.items) }
{
    batches[number].add(job)?;
    Ok(())
}

/// Returns the jobs of the pairs at these places, in `count` batches, which share the workers. The jobs are dealt in
/// serpentine order, to batch 1, 2, .. n, n, .. 2, 1, and so on, so that batches have about the same weight if the
/// places are sorted by weight. Fails if memory is refused.
pub fn dealt(
    alloc: Global,
    subjects: &[Subject],
    places: &[usize],
    workers: u32,
    count: u32,
) -> Result<Vec<Batch>, AllocError>
    requires some { 1 ≤ count }
    requires few { count ≤ workers }
    requires most { workers ≤ 16 }
    requires places { All (λ place. place < length subjects.now) places.now }
    ensures one_for_each { IfOk result (λ v. length v.items ≡ count) }
    ensures workers { IfOk result (λ v. ShareWorkers workers (workers_of v.items)) }
    ensures jobs { IfOk result (λ v. AreJobsFor subjects.now places.now (jobs_of v.items)) }
{
    let mut batches = empty_batches(alloc, workers, count)?;
    for position in 0..places.len() {
        let place = places[position];
        let job = PairJob::of(place, subjects[place]);
        let number = batch_number(count, position);
        add_job(&mut batches, number, job)?;
    }
    Ok(batches)
}

/// Returns the jobs of all batches, sorted by place: so it does not depend on the number of batches which of several
/// faults is the first. Fails if memory is refused.
pub fn gathered(alloc: Global, batches: Vec<Batch>) -> Result<Vec<PairJob>, AllocError>
    ensures same { IfOk result (λ v. IsPermutation (jobs_of batches.items) v.items) }
    ensures by_place { IfOk result (λ v. IsNonDecreasingBy (λ (t : PairJobValue). t.place) v.items) }
{
    let mut jobs = Vec::new(alloc);
    for batch in batches {
        let Batch { jobs: more, .. } = batch;
        let mut more = more;
        jobs.append(&mut more)?;
    }
    jobs.sort_by_key(|job| job.place)?;
    Ok(jobs)
}
