//! The judging of one pair: windows over cuts that grow, and guesses. Only what the judge finds counts.
ghost use Rattle.std.specs.Prelude.{IfOk};
ghost use Rattle.cut_window.specs.Windows.{Holds};
ghost use Rattle.net_merge.specs.Merging.{IsJudged};

use crate::assignment::{Assignment, add_bit};
use crate::guess::Guess;
use crate::pair_job::{Effort, JobReport, PairJob};
use crate::window_values::WindowValues;
use cut_window::{Cut, CutKind, Finding, LeafOrder, NodeRanks, Window};
use expand_work::Monitor;
use pair_graph::{Graph, Literal};
use std::alloc::{AllocError, Global};
use std::sync::Wait;
use std::thread::Threads;
use wave_judge::WaveJudge;

/// About how many nodes are above the first cut of a pair.
const FIRST_ABOVE: usize = 8;

/// The order of leaves by FORCE is tried only if a window's diagrams may have at least so many nodes.
const LEAST_FOR_FORCE: u32 = 1000;

/// So many values that are computed count as one node of a diagram.
const VALUES_PER_WORK: u64 = 16;

/// A leaf or a node that is visited while a cut grows counts as so many values.
const VALUES_PER_VISIT: u64 = 16;

/// The most cuts of one kind that are tried for a pair.
const MOST_CUTS: u32 = 64;

/// So many gates that a guess visits count as one node of a diagram: a visit takes about as long as a few values.
const GUESSED_PER_WORK: u64 = 4;

/// A graph with the ranks of its nodes.
#[derive(Clone, Copy, Drop)]
pub struct RankedGraph<'a> {
    pub graph: &'a Graph,
    pub ranks: &'a NodeRanks,
}

/// What one thread judges pairs with. It keeps memory from pair to pair, and nothing else.
#[derive(Drop)]
pub struct Probe {
    alloc: Global,
    cut: Cut,
    guess: Guess,
    values: WindowValues,
    /// An assignment at which the two literals differ, if one was found.
    assignment: Assignment,
    windows: usize,
    /// How many values were computed, and what counts as such.
    evaluated: u64,
}

impl Probe {
    /// A probe that has judged no pair.
    pub fn new(alloc: Global) -> Probe {
        Probe {
            alloc,
            cut: Cut::new(alloc),
            guess: Guess::new(alloc),
            values: WindowValues::new(alloc),
            assignment: Vec::new(alloc),
            windows: 0,
            evaluated: 0,
        }
    }

    /// Judges the pair of a job.
    pub fn run<R: Threads + Wait + Sync, G: Monitor>(
        &mut self,
        judge: &mut WaveJudge<'_, R, G>,
        on: &RankedGraph<'_>,
        job: &mut PairJob,
    )
        ensures { IsJudged on.now.graph.now job.new }
    {
        let pair = (job.newer, job.older);
        let before = judge.work();
        self.restart(&pair);
        let ended = self.judge_pair(judge, on, &pair, job.effort);
        job.report = self.report(judge.work().saturating_sub(before));
        job.end(on.graph, ended);
    }

    /// Begins with a pair.
    fn restart(&mut self, pair: &(Literal, Literal)) {
        let number = (u64::from(pair.0.word()) << 32) | u64::from(pair.1.word());
        self.guess.restart(number);
        self.values.restart(number);
        self.assignment.clear();
        self.windows = 0;
        self.evaluated = 0;
    }

    /// What judging a pair has taken, besides so much by diagrams, and a difference that it has met.
    fn report(&mut self, judged: u64) -> JobReport {
        let guessed = self.guess.take_gates() / GUESSED_PER_WORK;
        let evaluated = self.evaluated / VALUES_PER_WORK;
        let mut report = JobReport::new(self.alloc);
        report.work = judged.saturating_add(guessed).saturating_add(evaluated);
        report.windows = self.windows;
        for bit in &self.assignment {
            if report.assignment.push(*bit).is_err() {
                report.is_refused = true;
            }
        }
        report
    }

    /// Guesses an assignment at which two literals differ. Whether there is one.
    fn guess_difference(
        &mut self,
        graph: &Graph,
        pair: &(Literal, Literal),
    ) -> Result<bool, AllocError> {
        self.guess.find(graph, pair.0, pair.1, &mut self.assignment)
    }

    /// What windows show of two literals: first over cuts at which both cones meet, then, if a guess finds no
    /// difference, over cuts by rank.
    fn judge_pair<R: Threads + Wait + Sync, G: Monitor>(
        &mut self,
        judge: &mut WaveJudge<'_, R, G>,
        on: &RankedGraph<'_>,
        pair: &(Literal, Literal),
        effort: Effort,
    ) -> Result<Finding, AllocError>
        ensures { IfOk result (Holds on.now.graph.now pair.now.0 pair.now.1) }
    {
        for _ in 0..effort.guesses {
            if self.guess_difference(on.graph, pair)? {
                return Ok(Finding::Differ(Vec::new(self.alloc)));
            }
        }
        if !pair.1.is_constant() {
            let finding = self.judge_by_cuts(judge, on, pair, effort, CutKind::Shared)?;
            if !matches!(finding, Finding::GivenUp) {
                return Ok(finding);
            }
        }
        if self.guess_difference(on.graph, pair)? {
            return Ok(Finding::Differ(Vec::new(self.alloc)));
        }
        self.judge_by_cuts(judge, on, pair, effort, CutKind::Rank)
    }

    /// What windows over cuts of one kind show of two literals. If they differ over a cut, it is grown, since the
    /// leaves may have values there that never occur together. If a cut cannot be judged, the search ends.
    fn judge_by_cuts<R: Threads + Wait + Sync, G: Monitor>(
        &mut self,
        judge: &mut WaveJudge<'_, R, G>,
        on: &RankedGraph<'_>,
        pair: &(Literal, Literal),
        effort: Effort,
        kind: CutKind,
    ) -> Result<Finding, AllocError>
        ensures { IfOk result (Holds on.now.graph.now pair.now.0 pair.now.1) }
    {
        let (first, second) = (pair.0.node(), pair.1.node());
        self.cut.start(on.graph, first, second, kind)?;
        let mut size = FIRST_ABOVE;
        for turn in 0..MOST_CUTS {
            if turn > 0 && size > effort.above {
                break;
            }
            let grown = self.grow_cut(on, size)?;
            if grown || turn == 0 {
                let finding = self.judge_cut(judge, on, pair, effort.nodes)?;
                if !matches!(finding, Finding::Differ(_)) || self.cut.is_at_variables(on.graph) {
                    return Ok(finding);
                }
            }
            let above = size.max(self.cut.above());
            size = above.saturating_add(1).max(above.saturating_mul(8) / 5);
        }
        Ok(Finding::GivenUp)
    }

    /// Grows the cut until about so many nodes are above it. Whether there is one more now.
    fn grow_cut(&mut self, on: &RankedGraph<'_>, size: usize) -> Result<bool, AllocError> {
        let before = self.cut.above();
        let grown = self.cut.grow(on.graph, on.ranks, size)?;
        let more = self.cut.above().saturating_sub(before) as u64;
        let visited = more.saturating_add(self.cut.leaves().len() as u64);
        let counted = visited.saturating_mul(VALUES_PER_VISIT);
        self.evaluated = self.evaluated.saturating_add(counted);
        Ok(grown)
    }

    /// What the window over the cut shows of two literals, with leaves in the order of a walk, and if that is given up,
    /// in the order of FORCE.
    fn judge_cut<R: Threads + Wait + Sync, G: Monitor>(
        &mut self,
        judge: &mut WaveJudge<'_, R, G>,
        on: &RankedGraph<'_>,
        pair: &(Literal, Literal),
        nodes: u32,
    ) -> Result<Finding, AllocError>
        ensures { IfOk result (Holds on.now.graph.now pair.now.0 pair.now.1) }
    {
        let finding = self.judge_in_order(judge, on, pair, nodes, LeafOrder::Walk)?;
        if !matches!(finding, Finding::GivenUp) || nodes < LEAST_FOR_FORCE {
            return Ok(finding);
        }
        self.judge_in_order(judge, on, pair, nodes, LeafOrder::Force)
    }

    /// What the window over the cut shows of two literals, its leaves in this order. An assignment of variables at which they differ is
    /// kept.
    fn judge_in_order<R: Threads + Wait + Sync, G: Monitor>(
        &mut self,
        judge: &mut WaveJudge<'_, R, G>,
        on: &RankedGraph<'_>,
        pair: &(Literal, Literal),
        nodes: u32,
        order: LeafOrder,
    ) -> Result<Finding, AllocError>
        ensures { IfOk result (Holds on.now.graph.now pair.now.0 pair.now.1) }
    {
        let (graph, ranks) = (on.graph, on.ranks);
        self.windows = self.windows.saturating_add(1);
        if order == LeafOrder::Walk && self.differ_by_values(graph, pair)? {
            return Ok(Finding::Differ(Vec::new(self.alloc)));
        }
        let roots = (pair.0.node(), pair.1.node());
        let window = self.cut.window(self.alloc, graph, ranks, roots, order)?;
        let finding = judge.judge(nodes, graph, &window, pair.0, pair.1)?;
        if self.cut.is_at_variables(graph) {
            self.keep_difference(graph, &window, &finding)?;
        }
        Ok(finding)
    }

    /// Whether values at random bits of the leaves show that two literals differ over the cut. An assignment of variables is kept.
    fn differ_by_values(
        &mut self,
        graph: &Graph,
        pair: &(Literal, Literal),
    ) -> Result<bool, AllocError> {
        let computed = self.cut.leaves().len().saturating_add(self.cut.above()) as u64;
        self.evaluated = self.evaluated.saturating_add(computed);
        self.cut.sort();
        if !self.values.tell_apart(graph, &self.cut, pair.0, pair.1)? {
            return Ok(false);
        }
        if self.cut.is_at_variables(graph) {
            for leaf in self.cut.leaves() {
                let bit = self.values.bit(*leaf);
                add_bit(&mut self.assignment, graph, *leaf, bit)?;
            }
        }
        Ok(true)
    }

    /// Keeps the assignment at which two literals differ over a window whose leaves are variables.
    fn keep_difference(
        &mut self,
        graph: &Graph,
        window: &Window,
        finding: &Finding,
    ) -> Result<(), AllocError> {
        let Finding::Differ(bits) = finding else {
            return Ok(());
        };
        for (leaf, bit) in window.nodes().iter().zip(bits.as_slice()) {
            add_bit(&mut self.assignment, graph, *leaf, *bit)?;
        }
        Ok(())
    }
}
