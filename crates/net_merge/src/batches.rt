//! Pairs that are judged side by side: each batch by one thread.
ghost use Rattle.std.specs.Prelude.{◌≡◌, [], All, IfSome};
ghost use Rattle.net_merge.specs.Merging.{AreJudged, IsJudged};

use crate::pair_job::PairJob;
use crate::probe::{Probe, RankedGraph};
use expand_work::{Crew, Monitor, Workers};
use pair_graph::Graph;
use std::alloc::{AllocError, Global};
use std::sync::Wait;
use std::thread;
use std::thread::Threads;
use wave_engine::Engine;
use wave_judge::{WaveJudge, WindowBound};

/// Fewer pairs are judged by the caller's thread: to start a thread takes as long as a small window.
const LEAST_FOR_THREADS: usize = 4;

/// Who judges pairs, and how many nodes the diagrams of a window may have.
#[derive(Drop)]
pub struct MergeCrew<'a, R, G> {
    pub rt: &'a R,
    pub alloc: Global,
    pub monitor: &'a G,
    pub nodes: u32,
}

/// Pairs that one thread judges, one after the other.
#[derive(Drop)]
pub struct ProbeBatch {
    pub probe: Probe,
    pub jobs: Vec<PairJob>,
    /// Whether memory was refused before the first pair.
    pub is_refused: bool,
}

/// So many batches, at least one, that have no pair.
pub(crate) fn empty_batches(alloc: Global, count: u32) -> Result<Vec<ProbeBatch>, AllocError> {
    let mut batches = Vec::new(alloc);
    for _ in 0..count.max(1) {
        batches.push(ProbeBatch {
            probe: Probe::new(alloc),
            jobs: Vec::new(alloc),
            is_refused: false,
        })?;
    }
    Ok(batches)
}

/// Judges pairs, one after the other.
fn run_jobs<R: Threads + Wait + Sync, G: Monitor>(
    judge: &mut WaveJudge<'_, R, G>,
    on: &RankedGraph<'_>,
    probe: &mut Probe,
    jobs: &mut Vec<PairJob>,
)
    ensures { All (IsJudged on.now.graph.now) jobs.new.items }
{
    for place in 0..jobs.len() {
        probe.run(judge, on, &mut jobs[place]);
    }
}

/// Notes that memory was refused before the first pair of a batch. Its pairs are dropped.
fn refuse(alloc: Global, batch: &mut ProbeBatch)
    ensures { batch.new.jobs.items ≡ [] }
{
    batch.is_refused = true;
    batch.jobs = Vec::new(alloc);
}

/// Judges the pairs of a batch by an engine of its own.
fn run_batch<R: Threads + Wait + Sync, G: Monitor>(
    crew: &MergeCrew<'_, R, G>,
    on: &RankedGraph<'_>,
    batch: &mut ProbeBatch,
)
    ensures { All (IsJudged on.now.graph.now) batch.new.jobs.items }
{
    let bound = WindowBound::of(crew.nodes, crew.monitor);
    let judges = Crew {
        rt: crew.rt,
        alloc: crew.alloc,
        workers: Workers::new(1),
        monitor: &bound,
    };
    match Engine::new(&judges) {
        Ok(engine) => {
            let mut judge = WaveJudge::new(engine, crew.nodes);
            run_jobs(&mut judge, on, &mut batch.probe, &mut batch.jobs);
        }
        Err(_) => refuse(crew.alloc, batch),
    }
}

/// Judges the pairs of all batches, of which there are so many, those of each batch on one thread. What is found does not depend on the
/// number of batches.
pub(crate) fn run_batches<R: Threads + Wait + Sync, G: Monitor>(
    crew: &MergeCrew<'_, R, G>,
    on: &RankedGraph<'_>,
    batches: &mut [ProbeBatch],
    jobs: usize,
)
    ensures { AreJudged on.now.graph.now batches.new }
{
    let run = |_place: usize, batch: &mut ProbeBatch|
        ensures { All (IsJudged on.entry.now.graph.now) batch.exit.now.jobs.items }
    { run_batch(crew, on, batch) };
    let threads = if jobs < LEAST_FOR_THREADS {
        1
    } else {
        batches.len().max(1)
    };
    thread::for_each_mut(crew.rt, batches, threads, &run);
}

/// The batch of this number.
fn batch_at<'a>(graph: &Graph, batches: &'a [ProbeBatch], number: usize) -> Option<&'a ProbeBatch>
    requires { AreJudged graph.now batches.now }
    ensures { IfSome result (λ batch. All (IsJudged graph.now) batch.now.jobs.items) }
{
    let _ = graph.len(); // For the proof.
    if number >= batches.len() {
        return None;
    }
    Some(&batches[number])
}

/// The job at this place of a batch.
fn job_in<'a>(graph: &Graph, batch: &'a ProbeBatch, place: usize) -> Option<&'a PairJob>
    requires { All (IsJudged graph.now) batch.now.jobs.items }
    ensures { IfSome result (λ job. IsJudged graph.now job.now) }
{
    let _ = graph.len(); // For the proof.
    if place >= batch.jobs.len() {
        return None;
    }
    Some(&batch.jobs[place])
}

/// The job that so many come before, if they are dealt to batches in turn.
pub(crate) fn job_at<'a>(
    graph: &Graph,
    batches: &'a [ProbeBatch],
    place: usize,
) -> Option<&'a PairJob>
    requires { AreJudged graph.now batches.now }
    ensures { IfSome result (λ job. IsJudged graph.now job.now) }
{
    let count = batches.len().max(1);
    let batch = batch_at(graph, batches, place % count)?;
    job_in(graph, batch, place / count)
}
