//! Two netlists merged in one graph.
ghost use Rattle.std.specs.Prelude.{◌≡◌, ◌↔◌, All, IfOk, IsTrue, slice_index};
ghost use Rattle.std.specs.List.{AllZip};
ghost use Rattle.net_bench.specs.Circuit.{circuit};
ghost use Rattle.pair_graph.specs.Graphs.{AreEquivalent, IsGraph};
ghost use Rattle.net_merge.specs.Merging.{IsShown};
ghost use Rattle.net_merge.specs.SignalLiterals.{AreSignalLiterals, IsPairFinding, literal_at};

use crate::batches::MergeCrew;
use crate::learned::Learned;
use crate::merged_graph::MergedGraph;
use crate::merger::{MergeCounts, Merger};
use crate::round_work::WorkLimits;
use crate::shown::{ShownPair, is_shown};
use crate::signals::{LevelledNetlist, add_netlist, literal_of};
use expand_work::Monitor;
use net_bench::netlist::Signal;
use pair_graph::{Graph, GraphFault, Literal};
use std::alloc::{AllocError, Global};
use std::marker::Model;
use std::sync::Wait;
use std::thread::Threads;

/// Two netlists that are to be merged, and the pairs of their signals that are wanted equal, the first netlist's signal first.
#[derive(Clone, Copy, Drop)]
pub struct MergeTask<'a> {
    pub first: LevelledNetlist<'a>,
    pub second: LevelledNetlist<'a>,
    pub wanted: &'a [(Signal, Signal)],
    /// By how many threads windows are judged, at least one. What is found does not depend on it.
    pub workers: u32,
}

/// Two netlists merged in one graph: a literal for each signal, and for each pair that was wanted equal whether it was found so.
#[derive(Drop)]
pub struct MergedNetlists {
    graph: Graph,
    first: Vec<Literal>,
    second: Vec<Literal>,
    equal: Vec<bool>,
    counts: MergeCounts,
}

impl Model for MergedNetlists {
    ghost use Rattle.net_merge.specs.SignalLiterals.{MergedModel};

    ghost Value = { MergedModel };

    ghost view = { λ m. record { graph = m.graph; first = m.first.items; second = m.second.items; equal = m.equal.items } };
}

impl MergedNetlists {
    /// The graph.
    pub fn graph(&self) -> &Graph
        ensures { result.now ≡ self.now.graph }
    {
        &self.graph
    }

    /// The literal of a signal of the first netlist.
    pub fn first(&self, signal: Signal) -> Literal
        ensures { result ≡ literal_at self.now.first signal }
    {
        literal_of(self.first.as_slice(), signal)
    }

    /// The literal of a signal of the second netlist.
    pub fn second(&self, signal: Signal) -> Literal
        ensures { result ≡ literal_at self.now.second signal }
    {
        literal_of(self.second.as_slice(), signal)
    }

    /// For each pair that was wanted equal, whether it is found so. If it is, the functions of its signals are equal
    /// (`equivalent_literals`); if not, nothing is known.
    pub fn equal(&self) -> &[bool]
        ensures { result.now ≡ self.now.equal }
    {
        self.equal.as_slice()
    }

    /// The same list, without the graph.
    pub fn into_equal(self) -> Vec<bool>
        ensures { result.items ≡ self.equal }
    {
        let MergedNetlists {
            graph: _,
            first: _,
            second: _,
            equal,
            counts: _,
        } = self;
        equal
    }

    /// What the round has done.
    pub fn counts(&self) -> MergeCounts {
        self.counts
    }

    /// Whether a signal of the first netlist and one of the second have the same literal. If so, their functions are equal
    /// (`same_literal`); if not, nothing is known.
    pub fn have_same_literal(&self, first: Signal, second: Signal) -> bool
        ensures { IsTrue result ↔ (literal_at self.now.first first ≡ literal_at self.now.second second) }
    {
        self.first(first) == self.second(second)
    }
}

/// How much work the windows of a round may do.
fn work_limits(task: &MergeTask<'_>) -> WorkLimits {
    let gates = task.first.net.gates().len() as u64;
    let more = task.second.net.gates().len() as u64;
    let texts = gates.saturating_add(more);
    WorkLimits::of(texts)
}

/// Whether two literals are the same.
fn are_same(first: Literal, second: Literal) -> bool
    ensures { IsTrue result ↔ (first ≡ second) }
{
    first == second
}

/// The literals of the pairs that are wanted equal.
fn wanted_literals(
    alloc: Global,
    firsts: &[Literal],
    seconds: &[Literal],
    wanted: &[(Signal, Signal)],
) -> Result<Vec<(Literal, Literal)>, AllocError> {
    let mut literals = Vec::new(alloc);
    for pair in wanted {
        literals.push((literal_of(firsts, pair.0), literal_of(seconds, pair.1)))?;
    }
    Ok(literals)
}

/// Whether two literals are the same, or are those that are shown equal at a place.
fn find_pair(
    graph: &Graph,
    shown: &[ShownPair],
    place: usize,
    first: Literal,
    second: Literal,
) -> bool
    requires { All (IsShown graph.now) shown.now }
    ensures equal { IsTrue result → AreEquivalent graph.now first second }
    ensures same { first ≡ second → IsTrue result }
{
    let _ = graph.len(); // For the proof.
    if are_same(first, second) {
        return true;
    }
    is_shown(graph, shown, place, first, second)
}

/// For each pair whether its literals are the same, or are shown equal. Pairs that are shown equal are in the same order.
fn pair_findings(
    alloc: Global,
    graph: &Graph,
    firsts: &[Literal],
    seconds: &[Literal],
    wanted: &[(Signal, Signal)],
    shown: &[ShownPair],
) -> Result<Vec<bool>, AllocError>
    requires { All (IsShown graph.now) shown.now }
    ensures { IfOk result (λ v. AllZip (IsPairFinding graph.now firsts.now seconds.now) wanted.now v.items) }
{
    let _ = graph.len(); // For the proof.
    let mut found = Vec::new(alloc);
    let mut next = 0usize;
    for i in 0..wanted.len() {
        let pair = wanted[i];
        let one = literal_of(firsts, pair.0);
        let two = literal_of(seconds, pair.1);
        let finding = find_pair(graph, shown, next, one, two);
        next = next.saturating_add((finding && one != two) as usize);
        found.push(finding)?;
    }
    Ok(found)
}

/// Which pairs are equal, by their literals or by windows of their own.
fn wanted_findings<R: Threads + Wait + Sync, G: Monitor>(
    alloc: Global,
    graph: &mut MergedGraph<'_, R, G>,
    firsts: &[Literal],
    seconds: &[Literal],
    wanted: &[(Signal, Signal)],
) -> Result<Vec<bool>, AllocError>
    ensures found { IfOk result (λ v. AllZip (IsPairFinding graph.old firsts.now seconds.now) wanted.now v.items) }
    ensures unchanged { graph.new ≡ graph.old }
{
    let _ = graph.len(); // For the proof.
    let literals = wanted_literals(alloc, firsts, seconds, wanted)?;
    let shown = graph.show_wanted(literals.as_slice())?;
    let nodes = graph.graph();
    let pairs = shown.as_slice();
    let found = pair_findings(alloc, nodes, firsts, seconds, wanted, pairs)?;
    Ok(found)
}

/// Adds two netlists to a graph that has only the constant, and judges the pairs that are wanted equal.
fn merge_into<R: Threads + Wait + Sync, G: Monitor>(
    alloc: Global,
    task: &MergeTask<'_>,
    mut graph: MergedGraph<'_, R, G>,
    learned: &mut Learned,
) -> Result<MergedNetlists, GraphFault>
    ensures first { IfOk result (λ m. AreSignalLiterals (circuit task.now.first.net.now) (slice_index task.now.first.levels.now) m.graph m.first) }
    ensures second { IfOk result (λ m. AreSignalLiterals (circuit task.now.second.net.now) (slice_index task.now.second.levels.now) m.graph m.second) }
    ensures found { IfOk result (λ m. AllZip (IsPairFinding m.graph m.first m.second) task.now.wanted.now m.equal) }
    ensures sound { IfOk result (λ m. IsGraph m.graph) }
{
    let first = add_netlist(alloc, &task.first, &mut graph)?;
    let second = add_netlist(alloc, &task.second, &mut graph)?;
    let (firsts, seconds) = (first.as_slice(), second.as_slice());
    let equal = wanted_findings(alloc, &mut graph, firsts, seconds, task.wanted)?;
    graph.save(learned)?;
    let counts = graph.counts();
    Ok(MergedNetlists {
        graph: graph.into_graph(),
        first,
        second,
        equal,
        counts,
    })
}

/// Adds two netlists to one graph, over the variables of their levels: the gates of the first netlist by rising rank,
/// then those of the second. A gate's node that a window shows equal to an older one is merged with it. Then the pairs
/// of signals that are wanted equal, but have different literals, are judged by windows of their own. The diagrams of a
/// window may have at most `nodes` nodes. The round begins with what earlier rounds have learned, and adds what it
/// learns. Once the monitor stops the run, no window is judged any more, and no node merged. The only errors are
/// refused memory and a graph that is full.
pub fn merge_netlists<R: Threads + Wait + Sync, G: Monitor>(
    rt: &R,
    alloc: Global,
    task: &MergeTask<'_>,
    nodes: u32,
    learned: &mut Learned,
    monitor: &G,
) -> Result<MergedNetlists, GraphFault>
    // Each signal has a literal with its values.
    ensures first { IfOk result (λ m. AreSignalLiterals (circuit task.now.first.net.now) (slice_index task.now.first.levels.now) m.graph m.first) }
    ensures second { IfOk result (λ m. AreSignalLiterals (circuit task.now.second.net.now) (slice_index task.now.second.levels.now) m.graph m.second) }
    // A pair is found equal only if its literals have the same value at every assignment, and always if they are the same.
    ensures found { IfOk result (λ m. AllZip (IsPairFinding m.graph m.first m.second) task.now.wanted.now m.equal) }
    ensures sound { IfOk result (λ m. IsGraph m.graph) }
{
    let crew = MergeCrew {
        rt,
        alloc,
        monitor,
        nodes,
    };
    let merger = Merger::new(crew, task.workers, work_limits(task), learned)?;
    let graph = MergedGraph::new(alloc, merger)?;
    merge_into(alloc, task, graph, learned)
}
