//! The search for older nodes that are equal to new ones. Only what the judge finds counts.
ghost use Rattle.std.specs.Prelude.{◌≡◌, ◌≤◌, false, All, IfOk, IsTrue, OnOk};
ghost use Rattle.net_merge.specs.Merging.{AreJudged, IsShown};

use crate::batches::{MergeCrew, ProbeBatch, empty_batches, run_batches};
use crate::learned::Learned;
use crate::pair_job::{Effort, PairJob};
use crate::probe::RankedGraph;
use crate::round_work::{MOST_JOBS, WorkLimits, most_side_by_side};
use crate::shown::{ShownPair, keep_shown};
use crate::signatures::Signatures;
use crate::words::gate_of;
use cut_window::{Finding, NodeRanks};
use expand_work::Monitor;
use pair_graph::{Graph, Literal};
use std::alloc::AllocError;
use std::mem;
use std::sync::Wait;
use std::thread::Threads;

/// The most candidates that are tried for one node. A candidate that differs is distinguished by what is learned, so another one comes.
const MOST_CANDIDATES: u32 = 256;

/// A cut that has more nodes above it is not grown further.
const MOST_ABOVE: usize = 1000;

/// The same for the cuts below two signals that are wanted equal.
const MOST_ABOVE_WANTED: usize = 8000;

/// How many guesses are made before two signals that are wanted equal are judged.
const GUESSES_WANTED: usize = 3;

/// The windows of a node that is rarely 1 get one eighth of the nodes, since most such nodes have no equal.
const RARE_SHARE: u32 = 8;

/// Words of so many nodes count as one node of a diagram.
const VALUES_PER_WORK: u64 = 16;

/// A new node that is neither merged nor a candidate yet.
#[derive(Clone, Copy, Drop)]
struct OpenNode {
    node: u32,
    /// How many candidates of it were tried.
    tried: u32,
}

/// Looks for older nodes that are equal to new ones: candidates by signatures, judged by windows over cuts, several side by side.
#[derive(Drop)]
pub(crate) struct Merger<'a, R, G: Monitor> {
    crew: MergeCrew<'a, R, G>,
    ranks: NodeRanks,
    signatures: Signatures,
    batches: Vec<ProbeBatch>,
    /// How many pairs the batches have.
    jobs: usize,
    /// The first node that was not proposed.
    next: usize,
    /// Nodes before it that are open, by number.
    open: Vec<OpenNode>,
    limits: WorkLimits,
    /// The work of all pairs so far.
    work: u64,
    /// How much work was done when a node was last merged, or a pair that is wanted equal last found so.
    found_at: u64,
    counts: MergeCounts,
}

/// What a round has done.
#[derive(Clone, Copy, Drop, Debug, PartialEq, Eq)]
pub struct MergeCounts {
    /// How many nodes were merged with older ones.
    pub merged: usize,
    /// How many windows were judged.
    pub windows: usize,
    /// How many nodes had an older one that no assignment distinguished from them, but that no window showed equal.
    pub candidates: usize,
}

/// So much work, and that of so many words of values.
fn with_values(work: u64, words: u64) -> u64
    ensures { work ≤ result }
{
    work.saturating_add(words / VALUES_PER_WORK)
}

impl<'a, R: Threads + Wait + Sync, G: Monitor> Merger<'a, R, G> {
    /// A merger that has seen no node, with so many workers.
    pub(crate) fn new(
        crew: MergeCrew<'a, R, G>,
        workers: u32,
        limits: WorkLimits,
        learned: &Learned,
    ) -> Result<Self, AllocError> {
        let alloc = crew.alloc;
        Ok(Merger {
            crew,
            ranks: NodeRanks::new(alloc),
            signatures: Signatures::new(alloc, learned)?,
            batches: empty_batches(alloc, workers)?,
            jobs: 0,
            next: 0,
            open: Vec::new(alloc),
            limits,
            work: 0,
            found_at: 0,
            counts: MergeCounts {
                merged: 0,
                windows: 0,
                candidates: 0,
            },
        })
    }

    /// What the search has done so far.
    pub(crate) fn counts(&self) -> MergeCounts {
        self.counts
    }

    /// Adds what was learned, and how much was done, to what earlier rounds have.
    pub(crate) fn save(&self, learned: &mut Learned) -> Result<(), AllocError> {
        learned.count(self.counts.merged, self.counts.windows);
        self.signatures.save(learned)
    }

    /// How many pairs were judged side by side.
    pub(crate) fn jobs(&self) -> usize {
        self.jobs
    }

    /// The pairs that were judged side by side.
    pub(crate) fn batches(&self) -> &[ProbeBatch]
        ensures { result.now ≡ self.now.batches.items }
    {
        self.batches.as_slice()
    }

    /// How much work is done.
    fn work_done(&self) -> u64
        ensures { self.now.work ≤ result }
    {
        with_values(self.work, self.signatures.evaluated())
    }

    /// Takes note of how much work is done, if something was found just now.
    fn note_found(&mut self, found: bool)
        ensures found { IsTrue found → self.old.work ≤ self.new.found_at }
        ensures kept { found ≡ false → self.new.found_at ≡ self.old.found_at }
    {
        if found {
            self.found_at = self.work_done();
        }
    }

    /// Takes the nodes that the graph has got since.
    pub(crate) fn extend(&mut self, graph: &Graph) -> Result<(), AllocError> {
        self.ranks.extend(graph)?;
        self.signatures.extend(graph)
    }

    /// Judges the next candidates of open nodes, side by side. Whether there were some.
    pub(crate) fn judge_next(&mut self, graph: &Graph) -> Result<bool, AllocError>
        ensures { IfOk result (λ some. IsTrue some → AreJudged graph.now self.new.batches.items) }
    {
        self.propose(graph)?;
        if self.jobs == 0 {
            return Ok(false);
        }
        self.run(graph)?;
        Ok(true)
    }

    /// Judges the pairs of all batches.
    fn run(&mut self, graph: &Graph) -> Result<(), AllocError>
        ensures { OnOk result (AreJudged graph.now self.new.batches.items) }
    {
        let on = RankedGraph {
            graph,
            ranks: &self.ranks,
        };
        run_batches(&self.crew, &on, self.batches.as_mut_slice(), self.jobs);
        self.check_memory()
    }

    /// Whether memory was refused to no pair.
    fn check_memory(&self) -> Result<(), AllocError> {
        for batch in &self.batches {
            if batch.is_refused {
                return Err(AllocError);
            }
            for job in &batch.jobs {
                if job.report.is_refused {
                    return Err(AllocError);
                }
            }
        }
        Ok(())
    }

    /// Removes the pairs of all batches.
    fn clear_jobs(&mut self) {
        for batch in self.batches.iter_mut() {
            batch.jobs.clear();
        }
        self.jobs = 0;
    }

    /// Adds a pair to the batches, which are dealt pairs in turn.
    fn add_job(&mut self, job: PairJob) -> Result<(), AllocError> {
        let place = self.jobs % self.batches.len().max(1);
        if let Some(batch) = self.batches.get_mut(place) {
            batch.jobs.push(job)?;
        }
        self.jobs = self.jobs.saturating_add(1);
        Ok(())
    }

    /// Proposes pairs: open nodes with their candidates, and the next nodes with theirs, as long as there are few. Of each class there is one
    /// pair.
    fn propose(&mut self, graph: &Graph) -> Result<(), AllocError> {
        self.clear_jobs();
        let alloc = self.crew.alloc;
        let open = mem::replace(&mut self.open, Vec::new(alloc));
        let mut keys: Vec<u64> = Vec::new(alloc);
        for node in &open {
            self.propose_node(graph, *node, &mut keys)?;
        }
        for node in self.next..graph.len() {
            if self.jobs >= MOST_JOBS || self.open.len() >= MOST_JOBS {
                break;
            }
            self.next = node.saturating_add(1);
            let node = node as u32;
            if gate_of(graph, node).is_some() {
                self.propose_node(graph, OpenNode { node, tried: 0 }, &mut keys)?;
            }
        }
        Ok(())
    }

    /// Proposes the pair of a node and its candidate. A node stays open if another one of its class is proposed, and becomes a candidate if
    /// it has none.
    fn propose_node(
        &mut self,
        graph: &Graph,
        open: OpenNode,
        keys: &mut Vec<u64>,
    ) -> Result<(), AllocError> {
        let key = self.signatures.key(open.node);
        if self.jobs >= MOST_JOBS || keys.as_slice().contains(&key) {
            self.open.push(open)?;
            return Ok(());
        }
        match self.job_of(graph, open)? {
            Some(job) => {
                keys.push(key)?;
                self.add_job(job)
            }
            None => self.signatures.add_to_class(open.node),
        }
    }

    /// The pair of an open node and its candidate, if there is one and it may be tried.
    fn job_of(&mut self, graph: &Graph, open: OpenNode) -> Result<Option<PairJob>, AllocError> {
        if open.tried >= MOST_CANDIDATES || open.node >= 1 << 31 {
            return Ok(None);
        }
        let literal = Literal::new(open.node, false);
        let Some(candidate) = self.signatures.candidate(graph, literal)? else {
            return Ok(None);
        };
        if candidate.node() >= open.node {
            return Ok(None);
        }
        if self.work_done() > self.limits.for_gates(self.found_at) {
            self.counts.candidates = self.counts.candidates.saturating_add(1);
            return Ok(None);
        }
        let all = self.crew.nodes;
        let effort = Effort {
            guesses: 0,
            nodes: if self.signatures.is_rare(open.node) {
                all / RARE_SHARE
            } else {
                all
            },
            above: MOST_ABOVE,
        };
        let pair = (literal, candidate);
        Ok(Some(PairJob::of(self.crew.alloc, pair, effort, open.tried)))
    }

    /// Counts what the pairs have taken, and learns the assignments at which they differ.
    fn count_jobs(&mut self) -> Result<(), AllocError> {
        for place in 0..self.jobs {
            let number = place % self.batches.len().max(1);
            let index = place / self.batches.len().max(1);
            if let Some(batch) = self.batches.get(number)
                && let Some(job) = batch.jobs.get(index)
            {
                let report = &job.report;
                self.work = self.work.saturating_add(report.work);
                self.counts.windows = self.counts.windows.saturating_add(report.windows);
                if !report.assignment.is_empty() {
                    self.signatures.learn(report.assignment.as_slice())?;
                }
            }
        }
        Ok(())
    }

    /// Takes note of what pairs have shown: a node is merged, or is open for the next candidate, or becomes one itself.
    pub(crate) fn settle_jobs(&mut self) -> Result<(), AllocError> {
        self.count_jobs()?;
        let merged = self.counts.merged;
        for place in 0..self.jobs {
            let number = place % self.batches.len().max(1);
            let index = place / self.batches.len().max(1);
            if let Some(batch) = self.batches.get(number)
                && let Some(job) = batch.jobs.get(index)
            {
                let node = job.newer.node();
                match &job.finding {
                    Finding::Differ(_) => self.open.push(OpenNode {
                        node,
                        tried: job.tried.saturating_add(1),
                    })?,
                    Finding::GivenUp => {
                        self.counts.candidates = self.counts.candidates.saturating_add(1);
                        self.signatures.add_to_class(node)?;
                    }
                    _ => self.counts.merged = self.counts.merged.saturating_add(1),
                }
            }
        }
        self.note_found(self.counts.merged > merged);
        self.open.sort_by_key(|open| open.node)?;
        Ok(())
    }

    /// Which of these pairs of literals are shown equal, by their places: with the effort for signals that are wanted equal.
    pub(crate) fn show_wanted(
        &mut self,
        graph: &Graph,
        wanted: &[(Literal, Literal)],
    ) -> Result<Vec<ShownPair>, AllocError>
        ensures { IfOk result (λ shown. All (IsShown graph.now) shown.items) }
    {
        let mut shown = Vec::new(self.crew.alloc);
        let begun_at = self.work_done();
        self.note_found(true);
        let mut from = 0;
        for _ in 0..wanted.len() {
            if from >= wanted.len() {
                break;
            }
            let limit = self.limits.for_wanted(begun_at, self.found_at);
            from = self.propose_wanted(graph, wanted, from, limit)?;
            self.run(graph)?;
            let before = shown.len();
            self.keep_jobs(graph, &mut shown)?;
            self.count_jobs()?;
            self.note_found(shown.len() > before);
        }
        Ok(shown)
    }

    /// Keeps those pairs that are shown equal.
    fn keep_jobs(&self, graph: &Graph, shown: &mut Vec<ShownPair>) -> Result<(), AllocError>
        requires judged { AreJudged graph.now self.now.batches.items }
        requires shown { All (IsShown graph.now) shown.old.items }
        ensures { All (IsShown graph.now) shown.new.items }
    {
        let batches = self.batches.as_slice();
        for place in 0..self.jobs {
            keep_shown(graph, batches, place, shown)?;
        }
        Ok(())
    }

    /// Proposes the next of the wanted pairs, from a place on, that differ in their literals and in no value, up to so
    /// much work in all. Answers the place after them.
    fn propose_wanted(
        &mut self,
        graph: &Graph,
        wanted: &[(Literal, Literal)],
        from: usize,
        limit: u64,
    ) -> Result<usize, AllocError> {
        self.clear_jobs();
        let rest = limit.saturating_sub(self.work_done());
        let most = most_side_by_side(rest, self.crew.nodes);
        let effort = Effort {
            guesses: GUESSES_WANTED,
            nodes: self.crew.nodes,
            above: MOST_ABOVE_WANTED,
        };
        for place in from..wanted.len() {
            if self.jobs >= most {
                return Ok(place);
            }
            let (first, second) = wanted[place];
            if first != second
                && self.work_done() < limit
                && !self.signatures.tell_apart(graph, first, second)?
            {
                self.add_job(PairJob::of(self.crew.alloc, (first, second), effort, 0))?;
            }
        }
        Ok(wanted.len())
    }
}
