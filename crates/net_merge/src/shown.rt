//! Pairs of literals that windows have shown equal.
ghost use Rattle.std.specs.Prelude.{◌≡◌, All, IsTrue};
ghost use Rattle.pair_graph.specs.Graphs.{AreEquivalent};
ghost use Rattle.net_merge.specs.Merging.{AreJudged, IsShown};

use crate::batches::{ProbeBatch, job_at};
use pair_graph::{Graph, Literal};
use std::alloc::AllocError;

/// Two literals that have the same value at every assignment.
#[derive(Clone, Copy, Drop)]
pub struct ShownPair {
    pub first: Literal,
    pub second: Literal,
}

/// Adds the pair of the job that so many come before, if it is shown equal.
pub(crate) fn keep_shown(
    graph: &Graph,
    batches: &[ProbeBatch],
    place: usize,
    shown: &mut Vec<ShownPair>,
) -> Result<(), AllocError>
    requires judged { AreJudged graph.now batches.now }
    requires shown { All (IsShown graph.now) shown.old.items }
    ensures { All (IsShown graph.now) shown.new.items }
{
    let Some(job) = job_at(graph, batches, place) else {
        return Ok(());
    };
    let pair = ShownPair {
        first: job.newer,
        second: job.older,
    };
    let is_equal = job.shows_equal(graph, pair.first, pair.second);
    if !is_equal {
        return Ok(());
    }
    shown.push(pair)?;
    Ok(())
}

/// Whether a pair is of these two literals.
fn is_of(pair: &ShownPair, first: Literal, second: Literal) -> bool
    ensures { IsTrue result → (pair.now.first ≡ first) × (pair.now.second ≡ second) }
{
    pair.first == first && pair.second == second
}

/// Whether the shown pair at a place is of these two literals.
pub(crate) fn is_shown(
    graph: &Graph,
    shown: &[ShownPair],
    place: usize,
    first: Literal,
    second: Literal,
) -> bool
    requires { All (IsShown graph.now) shown.now }
    ensures { IsTrue result → AreEquivalent graph.now first second }
{
    let _ = graph.len(); // For the proof.
    if place >= shown.len() {
        return false;
    }
    let pair = shown[place];
    is_of(&pair, first, second)
}
