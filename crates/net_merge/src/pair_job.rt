//! Pairs of literals that windows are to show equal, and what they have shown.
ghost use Rattle.std.specs.Prelude.{IfOk, IfSome, IsTrue};
ghost use Rattle.cut_window.specs.Windows.{Holds};
ghost use Rattle.pair_graph.specs.Graphs.{AreEquivalent};
ghost use Rattle.net_merge.specs.Merging.{IsJudged};

use crate::assignment::Assignment;
use cut_window::Finding;
use pair_graph::{Graph, Literal};
use std::alloc::{AllocError, Global};

/// How much is done for one pair.
#[derive(Clone, Copy, Drop)]
pub struct Effort {
    /// How often an assignment is guessed before the first window.
    pub guesses: usize,
    /// The most nodes of a window's diagrams.
    pub nodes: u32,
    /// The most nodes above the last cut.
    pub above: usize,
}

/// What judging a pair has taken, and a difference that it has met.
#[derive(Drop)]
pub struct JobReport {
    /// An assignment at which the two literals differ, if one was found.
    pub assignment: Assignment,
    /// How many windows were judged.
    pub windows: usize,
    /// The nodes of diagrams, and what counts as much.
    pub work: u64,
    /// Whether memory was refused. Then nothing is found.
    pub is_refused: bool,
}

/// A pair of literals, and what windows show of it. It depends on the graph and on this pair only, so pairs may be judged in any order, and
/// by any thread.
#[derive(Drop)]
pub struct PairJob {
    pub newer: Literal,
    pub older: Literal,
    pub effort: Effort,
    /// How many candidates of the newer literal were tried before.
    pub tried: u32,
    pub finding: Finding,
    pub report: JobReport,
}

impl JobReport {
    /// Nothing was done.
    pub fn new(alloc: Global) -> JobReport {
        JobReport {
            assignment: Vec::new(alloc),
            windows: 0,
            work: 0,
            is_refused: false,
        }
    }
}

impl PairJob {
    /// A pair that is not judged yet.
    pub fn of(alloc: Global, pair: (Literal, Literal), effort: Effort, tried: u32) -> PairJob {
        PairJob {
            newer: pair.0,
            older: pair.1,
            effort,
            tried,
            finding: Finding::GivenUp,
            report: JobReport::new(alloc),
        }
    }

    /// Keeps what windows show of the pair: nothing, if memory was refused.
    pub fn end(&mut self, graph: &Graph, ended: Result<Finding, AllocError>)
        requires { IfOk ended (Holds graph.now self.old.newer self.old.older) }
        ensures { IsJudged graph.now self.new }
    {
        let _ = graph.len(); // For the proof.
        match ended {
            Ok(finding) => self.finding = finding,
            Err(_) => {
                self.report.is_refused = true;
                self.finding = Finding::GivenUp;
            }
        }
    }

    /// A literal of which the newer one is shown to have the values.
    pub fn equivalent(&self, graph: &Graph) -> Option<Literal>
        requires { IsJudged graph.now self.now }
        ensures { IfSome result (AreEquivalent graph.now self.now.newer) }
    {
        let _ = graph.len(); // For the proof.
        match &self.finding {
            Finding::Equal => Some(self.older),
            Finding::Complement => Some(self.older.negate()),
            _ => None,
        }
    }

    /// Whether these two literals are the pair's, and are shown to be equal.
    pub fn shows_equal(&self, graph: &Graph, first: Literal, second: Literal) -> bool
        requires { IsJudged graph.now self.now }
        ensures { IsTrue result → AreEquivalent graph.now first second }
    {
        let _ = graph.len(); // For the proof.
        if self.newer != first || self.older != second {
            return false;
        }
        match &self.finding {
            Finding::Equal => true,
            _ => false,
        }
    }
}
