//! Rounds of merging, which find pairs that are equal inside.
ghost use Rattle.std.specs.Prelude.{◌≡◌, false, All, IfOk, IfSome, IsTrue, length, replicate};
ghost use Rattle.std.specs.List.{AllZip};
ghost use Rattle.net_bench.specs.Circuit.{circuit};
ghost use Rattle.compare_built.specs.Comparing.{IsInside};
ghost use Rattle.compare_built.specs.Facts.{IsEqualInside};

use crate::levels::{first_levels, second_levels};
use crate::pairs::signals_of;
use compare_built::subject::Subject;
use compare_built::task::Task;
use expand_work::{MergeRound, Monitor};
use net_merge::{Learned, LevelledNetlist, MergeTask, MergedNetlists, merge_netlists};
use net_order::naming::Naming;
use pair_graph::GraphFault;
use std::alloc::{AllocError, Global};
use std::sync::Wait;
use std::thread::Threads;

/// What the rounds of merging so far have learned. It changes what the next round tries, but never whether its answers are right.
#[derive(Drop)]
pub struct Merging {
    learned: Learned,
}

impl Merging {
    /// What is known before the first round: nothing.
    pub fn new(alloc: Global) -> Merging {
        Merging {
            learned: Learned::new(alloc),
        }
    }
}

/// How many of the pairs were found equal.
fn count_of(equal: &[bool]) -> usize {
    equal.iter().filter(|found| **found).count()
}

/// For each of so many pairs that it was not found equal.
fn none_found(alloc: Global, count: usize) -> Result<Vec<bool>, AllocError>
    ensures { IfOk result (λ v. v.items ≡ replicate count false) }
{
    Vec::from_elem(alloc, false, count)
}

/// Merges both netlists of a task in one graph; the diagrams of a window may have at most `nodes` nodes. None if the
/// graph is full, or the run was stopped.
fn merged<H: Threads + Wait + Sync, G: Monitor>(
    task: &Task<'_, H>,
    naming: &Naming,
    subjects: &[Subject],
    merging: &mut Merging,
    nodes: u32,
    monitor: &G,
) -> Result<Option<MergedNetlists>, AllocError>
    requires in_range { All (IsInside (circuit task.now.first.now) (circuit task.now.second.now)) subjects.now }
    ensures { IfOk result (λ o. IfSome o (λ m. AllZip (λ s b. IsTrue b
        → IsEqualInside (circuit task.now.first.now) (circuit task.now.second.now) naming.now s) subjects.now m.equal)) }
{
    if monitor.has_stopped() {
        return Ok(None);
    }
    let alloc = task.alloc;
    let first = first_levels(alloc, task.first, naming)?;
    let second = second_levels(alloc, task.second, naming)?;
    let wanted = signals_of(alloc, subjects)?;
    let merge_task = MergeTask {
        first: LevelledNetlist {
            net: task.first,
            levels: first.as_slice(),
        },
        second: LevelledNetlist {
            net: task.second,
            levels: second.as_slice(),
        },
        wanted: wanted.as_slice(),
        workers: task.settings.workers,
    };
    let _ = (task.first.count(), task.second.count()); // For the proof.
    let learned = &mut merging.learned;
    match merge_netlists(task.rt, alloc, &merge_task, nodes, learned, monitor) {
        Ok(merged) => Ok(Some(merged)),
        Err(GraphFault::Full) => Ok(None),
        Err(GraphFault::OutOfMemory) => Err(AllocError),
    }
}

/// Notifies the monitor of how a round has ended.
fn report<G: Monitor>(monitor: &G, merging: &Merging, merged: &MergedNetlists, nodes: u32) {
    monitor.at_merge(MergeRound {
        budget: nodes as u64,
        gates: merged.graph().len(),
        merged: merging.learned.merged(),
        windows: merging.learned.windows(),
        candidates: merged.counts().candidates,
        decided: count_of(merged.equal()),
        pairs: merged.equal().len(),
    });
}

/// One round of merging, in which the diagrams of a window may have at most `nodes` nodes: for each pair whether it was
/// found equal inside. Which pairs are found follows from the texts, the budget and the earlier rounds, unless the run
/// was stopped: then no window is judged any more. If the graph is full, which takes 2^31 gates, no pair is found.
pub fn equal_inside<H: Threads + Wait + Sync, G: Monitor>(
    task: &Task<'_, H>,
    naming: &Naming,
    subjects: &[Subject],
    merging: &mut Merging,
    nodes: u32,
    monitor: &G,
) -> Result<Vec<bool>, AllocError>
    requires in_range { All (IsInside (circuit task.now.first.now) (circuit task.now.second.now)) subjects.now }
    // A pair is found equal only if its two functions agree at each assignment.
    ensures equal { IfOk result (λ v. AllZip (λ s b. IsTrue b
        → IsEqualInside (circuit task.now.first.now) (circuit task.now.second.now) naming.now s) subjects.now v.items) }
    ensures each { IfOk result (λ v. length v.items ≡ length subjects.now) }
{
    let round = merged(task, naming, subjects, merging, nodes, monitor)?;
    match round {
        Some(found) => {
            report(monitor, merging, &found, nodes);
            Ok(found.into_equal())
        }
        None => {
            let none = none_found(task.alloc, subjects.len())?;
            Ok(none)
        }
    }
}
