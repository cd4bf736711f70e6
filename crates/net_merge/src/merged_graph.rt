//! A graph in which new nodes are merged with older ones that are found equal.
ghost use Rattle.std.specs.Prelude.{◌≡◌, ◌<◌, ◌∷◌, ◌&&◌, [], All, Bool, List, IfOk, length};
ghost use Rattle.pair_graph.specs.Graphs.{HasNode, IsGraph, KeepsNodes, bit, exclusive_or, value};
ghost use Rattle.net_merge.specs.Merging.{AreJudged, AreRepresentatives, IsSettled, IsShown};

use crate::batches::{ProbeBatch, job_at};
use crate::learned::Learned;
use crate::merger::{MergeCounts, Merger};
use crate::representatives::Representatives;
use crate::shown::ShownPair;
use expand_work::Monitor;
use pair_graph::{Graph, GraphFault, Literal, Node};
use std::alloc::{AllocError, Global};
use std::marker::Model;
use std::sync::Wait;
use std::thread::Threads;

/// A graph in which operands are replaced by their representatives. It is seen as the graph: a representative has the same values. New
/// nodes wait until one of them is an operand; then all that wait are tried, several side by side.
#[derive(Drop)]
pub(crate) struct MergedGraph<'a, R, G: Monitor> {
    graph: Graph,
    representatives: Representatives,
    merger: Merger<'a, R, G>,
    /// How many nodes were tried.
    tried: usize,
}

impl<'a, R, G: Monitor> Model for MergedGraph<'a, R, G> {
    ghost use Rattle.std.specs.Prelude.{List};
    ghost use Rattle.pair_graph.specs.declared.node.Node.{Node};
    ghost use Rattle.net_merge.specs.Merging.{AreRepresentatives};

    ghost Value = { List Node };

    ghost view = { λ m. m.graph };

    ghost invariant = { λ m. AreRepresentatives m.graph m.representatives };
}

/// The representative of a literal.
fn representative_in(graph: &Graph, representatives: &Representatives, literal: Literal) -> Literal
    requires { AreRepresentatives graph.now representatives.now }
    ensures { IsSettled graph.now literal result }
{
    let _ = graph.len(); // For the proof.
    representatives.of(literal)
}

/// Merges the node of the job at a place with an older one, if the two are shown equivalent.
fn merge_job(
    graph: &Graph,
    representatives: &mut Representatives,
    batches: &[ProbeBatch],
    place: usize,
) -> Result<(), AllocError>
    requires representatives { AreRepresentatives graph.now representatives.old }
    requires judged { AreJudged graph.now batches.now }
    ensures representatives { AreRepresentatives graph.now representatives.new }
{
    let Some(job) = job_at(graph, batches, place) else {
        return Ok(());
    };
    let newer = job.newer;
    let Some(older) = job.equivalent(graph) else {
        return Ok(());
    };
    if newer.node() as usize >= graph.len() || older.node() > newer.node() {
        return Ok(());
    }
    representatives.merge(graph, newer, older)
}

/// Merges the nodes of so many jobs.
fn merge_jobs(
    graph: &Graph,
    representatives: &mut Representatives,
    batches: &[ProbeBatch],
    jobs: usize,
) -> Result<(), AllocError>
    requires representatives { AreRepresentatives graph.now representatives.old }
    requires judged { AreJudged graph.now batches.now }
    ensures representatives { AreRepresentatives graph.now representatives.new }
{
    for place in 0..jobs {
        merge_job(graph, representatives, batches, place)?;
    }
    Ok(())
}

/// Judges the next nodes that wait, side by side, and merges those that are found equal to older ones. Whether there were some.
fn merge_next<R: Threads + Wait + Sync, G: Monitor>(
    graph: &Graph,
    representatives: &mut Representatives,
    merger: &mut Merger<'_, R, G>,
) -> Result<bool, AllocError>
    requires representatives { AreRepresentatives graph.now representatives.old }
    ensures representatives { AreRepresentatives graph.now representatives.new }
{
    let some = merger.judge_next(graph)?;
    if !some {
        return Ok(false);
    }
    merge_jobs(graph, representatives, merger.batches(), merger.jobs())?;
    merger.settle_jobs()?;
    Ok(true)
}

/// Tries all nodes that wait.
fn merge_waiting<R: Threads + Wait + Sync, G: Monitor>(
    graph: &Graph,
    representatives: &mut Representatives,
    merger: &mut Merger<'_, R, G>,
) -> Result<(), AllocError>
    requires representatives { AreRepresentatives graph.now representatives.old }
    ensures representatives { AreRepresentatives graph.now representatives.new }
{
    merger.extend(graph)?;
    for _ in 0..u64::MAX {
        if !merge_next(graph, representatives, merger)? {
            break;
        }
    }
    Ok(())
}

impl<'a, R: Threads + Wait + Sync, G: Monitor> MergedGraph<'a, R, G> {
    /// Returns a graph that has only the constant.
    pub(crate) fn new(alloc: Global, merger: Merger<'a, R, G>) -> Result<Self, GraphFault>
        ensures { IfOk result (λ m. m ≡ Node.Constant ∷ []) }
    {
        let graph = Graph::new(alloc)?;
        Ok(MergedGraph {
            graph,
            representatives: Representatives::new(alloc),
            merger,
            tried: 0,
        })
    }

    /// How many nodes there are.
    pub(crate) fn len(&self) -> usize
        ensures value { result ≡ length self.now }
        ensures sound { IsGraph self.now }
    {
        self.graph.len()
    }

    /// Tries all nodes that wait.
    fn try_waiting(&mut self) -> Result<(), AllocError>
        ensures { self.new ≡ self.old }
    {
        merge_waiting(&self.graph, &mut self.representatives, &mut self.merger)?;
        self.tried = self.graph.len();
        Ok(())
    }

    /// The representative of a literal, as far as nodes were tried.
    fn representative(&self, literal: Literal) -> Literal
        ensures { IsSettled self.now literal result }
    {
        representative_in(&self.graph, &self.representatives, literal)
    }

    /// The representative of a literal. If its node waits, all that wait are tried before.
    pub(crate) fn settled(&mut self, literal: Literal) -> Result<Literal, AllocError>
        ensures settled { IfOk result (IsSettled self.old literal) }
        ensures unchanged { self.new ≡ self.old }
        ensures keeps { KeepsNodes self.old self.new }
        ensures sound { IsGraph self.new }
    {
        let _ = self.len(); // For the proof.
        if (literal.node() as usize) < self.tried {
            return Ok(self.representative(literal));
        }
        self.try_waiting()?;
        let answer = self.representative(literal);
        Ok(answer)
    }

    /// Which of these pairs of literals are shown equal by windows below them, in their order.
    pub(crate) fn show_wanted(
        &mut self,
        wanted: &[(Literal, Literal)],
    ) -> Result<Vec<ShownPair>, AllocError>
        ensures shown { IfOk result (λ v. All (IsShown self.new) v.items) }
        ensures unchanged { self.new ≡ self.old }
    {
        self.merger.extend(&self.graph)?;
        self.merger.show_wanted(&self.graph, wanted)
    }

    /// What the search for equal nodes has done.
    pub(crate) fn counts(&self) -> MergeCounts {
        self.merger.counts()
    }

    /// Adds what the search has learned to what earlier rounds have.
    pub(crate) fn save(&self, learned: &mut Learned) -> Result<(), AllocError> {
        self.merger.save(learned)
    }

    /// The graph.
    pub(crate) fn graph(&self) -> &Graph
        ensures { result.now ≡ self.now }
    {
        &self.graph
    }

    /// The graph, without the representatives and the search.
    pub(crate) fn into_graph(self) -> Graph
        ensures { result ≡ self.entry }
    {
        let MergedGraph {
            graph,
            representatives: _,
            merger: _,
            tried: _,
        } = self;
        graph
    }

    /// The literal of a variable.
    pub(crate) fn variable(&mut self, number: u32) -> Result<Literal, GraphFault>
        ensures value { IfOk result (λ l. (x : List Bool) → value self.new x l ≡ bit x number) }
        ensures has { IfOk result (HasNode self.new) }
        ensures sound { IsGraph self.new }
        ensures keeps { KeepsNodes self.old self.new }
    {
        let _ = self.graph.len(); // For the proof.
        self.graph.variable(number)
    }

    /// A literal whose value is the And of the values of two.
    fn add_and(&mut self, first: Literal, second: Literal) -> Result<Literal, GraphFault>
        requires first { HasNode self.old first }
        requires second { HasNode self.old second }
        ensures value { IfOk result (λ l. (x : List Bool) → value self.new x l ≡ (value self.old x first && value self.old x second)) }
        ensures has { IfOk result (HasNode self.new) }
        ensures sound { IsGraph self.new }
        ensures keeps { KeepsNodes self.old self.new }
    {
        let _ = self.graph.len(); // For the proof.
        self.graph.and_of(first, second)
    }

    /// A literal whose value is the Xor of the values of two.
    fn add_xor(&mut self, first: Literal, second: Literal) -> Result<Literal, GraphFault>
        requires first { HasNode self.old first }
        requires second { HasNode self.old second }
        ensures value { IfOk result (λ l. (x : List Bool) →
            value self.new x l ≡ exclusive_or (value self.old x first) (value self.old x second)) }
        ensures has { IfOk result (HasNode self.new) }
        ensures sound { IsGraph self.new }
        ensures keeps { KeepsNodes self.old self.new }
    {
        let _ = self.graph.len(); // For the proof.
        self.graph.xor_of(first, second)
    }

    /// The literal whose value is the And of two, of their representatives.
    pub(crate) fn and_of(&mut self, first: Literal, second: Literal) -> Result<Literal, GraphFault>
        requires first { HasNode self.old first }
        requires second { HasNode self.old second }
        ensures value { IfOk result (λ l. (x : List Bool) → value self.new x l ≡ (value self.old x first && value self.old x second)) }
        ensures has { IfOk result (HasNode self.new) }
        ensures sound { IsGraph self.new }
        ensures keeps { KeepsNodes self.old self.new }
    {
        let _ = self.len(); // For the proof.
        let one = self.settled(first)?;
        let two = self.settled(second)?;
        let literal = self.add_and(one, two)?;
        Ok(literal)
    }

    /// The literal whose value is the Xor of two, of their representatives.
    pub(crate) fn xor_of(&mut self, first: Literal, second: Literal) -> Result<Literal, GraphFault>
        requires first { HasNode self.old first }
        requires second { HasNode self.old second }
        ensures value { IfOk result (λ l. (x : List Bool) →
            value self.new x l ≡ exclusive_or (value self.old x first) (value self.old x second)) }
        ensures has { IfOk result (HasNode self.new) }
        ensures sound { IsGraph self.new }
        ensures keeps { KeepsNodes self.old self.new }
    {
        let _ = self.len(); // For the proof.
        let one = self.settled(first)?;
        let two = self.settled(second)?;
        let literal = self.add_xor(one, two)?;
        Ok(literal)
    }
}
