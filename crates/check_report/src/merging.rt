//! Rounds of merging equal signals, which decide the pairs that are equal inside
//! (docs/EQUAL_INSIDE.md). A pair is *known* here if merging has shown it to be equal, or a pattern
//! has shown it to differ. In each list of flags, place i is of the pair at place i of
//! `facts.subjects`.
ghost use Rattle.std.specs.Prelude.{◌≡◌, ◌<◌, ◌≤◌, ◌||◌, ℕ, false, length, slice_index_or, All, IfOk};
ghost use Rattle.order_search.specs.Tasks.{IsInTask};
ghost use Rattle.cone_check.specs.KnownPairs.{AreFacts};
ghost use Rattle.check_report.specs.Pairs.{AreEqualIf};

use compare_built::subject::Subject;
use compare_built::task::Task;
use expand_work::Monitor;
use inside_check::{Merging, equal_inside};
use net_order::naming::Naming;
use pair_facts::PairFacts;
use std::alloc::{AllocError, Global};
use std::sync::Wait;
use std::thread::Threads;

/// The most nodes that the diagrams of a window may have in the first round. No contract depends on
/// this number or the next one; how much all windows together may take is in `net_merge`.
const FIRST_WINDOW: u32 = 8_000;

/// The same in the second round.
const SECOND_WINDOW: u32 = 64_000;

/// The result of a round of merging.
#[derive(Drop)]
pub(crate) struct Merged {
    /// What the round has learned: assignments that show signals to differ. The next round merges
    /// anew, and begins with these.
    pub merging: Merging,
    /// For each pair, whether it is known to be equal inside.
    pub equal: Vec<bool>,
}

/// Returns false for each pair: none is known to be equal inside. It is for comparisons without
/// merging, and for a round that has nothing to do. Fails if memory is refused.
pub(crate) fn none_equal(alloc: Global, facts: &PairFacts) -> Result<Vec<bool>, AllocError>
    ensures each { IfOk result (λ equal. length equal.items ≡ length facts.now.subjects.items) }
    ensures none { IfOk result (λ equal. All (λ flag. flag ≡ false) equal.items) }
{
    let count = facts.subjects.len();
    let mut equal = Vec::with_capacity(alloc, count)?;
    for _ in 0..count {
        equal.push(false)?;
    }
    Ok(equal)
}

/// Returns whether patterns show that all pairs differ, so that there is nothing to merge for.
fn are_all_shown(facts: &PairFacts) -> bool {
    for shown in &facts.shown {
        if shown.is_none() {
            return false;
        }
    }
    true
}

/// Returns whether each pair is known to be equal inside, or is shown to differ by a pattern. Both
/// lists have a place for each pair; the lesser of both lengths spares a clause that says so.
fn are_known(facts: &PairFacts, equal: &[bool]) -> bool {
    for place in 0..facts.shown.len().min(equal.len()) {
        if !equal[place] && facts.shown[place].is_none() {
            return false;
        }
    }
    true
}

/// Returns how many pairs are known to be equal inside.
fn count_equal(equal: &[bool]) -> usize
    ensures { result ≤ length equal.now }
{
    let mut count = 0;
    for place in 0..equal.len() {
        if equal[place] {
            count += 1;
        }
    }
    count
}

/// Returns whether the first round of merging has decided enough to judge the pairs next, without
/// more attempts at the whole netlists: at least half of all pairs are equal inside. What a round
/// has decided to a half is seldom a whole that one order could keep small, and the attempts that
/// are left out are the longest. Of a pair that a pattern shows to differ the least difference is
/// still to be found, so it counts as one that is left.
pub(crate) fn is_enough(equal: &[bool]) -> bool {
    let count = count_equal(equal);
    equal.len() - count <= count
}

/// Returns the pairs of the facts. The contract says that they are signals of the netlists.
fn subjects_in<'a, H>(task: &Task<'_, H>, naming: &Naming, facts: &'a PairFacts) -> &'a [Subject]
    requires { AreFacts task.now naming.now facts.now }
    ensures value { result.now ≡ facts.entry.now.subjects.items }
    ensures inside { All (IsInTask task.now) result.now }
{
    let _ = task; // For the proof.
    let _ = naming; // For the proof.
    facts.subjects.as_slice()
}

/// Returns which pairs are equal inside, by merging within windows of at most `nodes` nodes. Fails if memory is
/// refused.
fn equal_within<H: Threads + Wait + Sync, G: Monitor>(
    task: &Task<'_, H>,
    naming: &Naming,
    facts: &PairFacts,
    merging: &mut Merging,
    nodes: u32,
    monitor: &G,
) -> Result<Vec<bool>, AllocError>
    requires { AreFacts task.now naming.now facts.now }
    ensures { IfOk result (λ equal. AreEqualIf task.now naming.now facts.now equal.items) }
{
    let subjects = subjects_in(task, naming, facts);
    equal_inside(task, naming, subjects, merging, nodes, monitor)
}

/// Merges within small windows, unless patterns show that all pairs differ. Fails if memory is refused.
pub(crate) fn first_round<H: Threads + Wait + Sync, G: Monitor>(
    task: &Task<'_, H>,
    naming: &Naming,
    facts: &PairFacts,
    monitor: &G,
) -> Result<Merged, AllocError>
    requires { AreFacts task.now naming.now facts.now }
    ensures { IfOk result (λ merged. AreEqualIf task.now naming.now facts.now merged.equal.items) }
{
    let mut merging = Merging::new(task.alloc);
    if are_all_shown(facts) {
        let equal = none_equal(task.alloc, facts)?;
        return Ok(Merged { merging, equal });
    }
    let equal = equal_within(task, naming, facts, &mut merging, FIRST_WINDOW, monitor)?;
    Ok(Merged { merging, equal })
}

/// Returns whether a flag of either list is set at each place. Fails if memory is refused.
fn either(alloc: Global, one: &[bool], other: &[bool]) -> Result<Vec<bool>, AllocError>
    requires { length other.now ≡ length one.now }
    ensures each { IfOk result (λ flags. length flags.items ≡ length one.now) }
    ensures flags { IfOk result (λ flags. (i : ℕ) → i < length one.now
        → slice_index_or flags.items i false ≡ (slice_index_or one.now i false || slice_index_or other.now i false)) }
{
    let mut flags = Vec::with_capacity(alloc, one.len())?;
    for place in 0..one.len() {
        flags.push(one[place] || other[place])?;
    }
    Ok(flags)
}

/// Returns the pairs that one of two rounds has found to be equal inside. Fails if memory is refused.
fn either_equal<H>(
    task: &Task<'_, H>,
    naming: &Naming,
    facts: &PairFacts,
    one: &[bool],
    other: &[bool],
) -> Result<Vec<bool>, AllocError>
    requires one { AreEqualIf task.now naming.now facts.now one.now }
    requires other { AreEqualIf task.now naming.now facts.now other.now }
    ensures { IfOk result (λ equal. AreEqualIf task.now naming.now facts.now equal.items) }
{
    let _ = task; // For the proof.
    let _ = naming; // For the proof.
    let _ = facts; // For the proof.
    let flags = either(task.alloc, one, other)?;
    Ok(flags)
}

/// Merges within larger windows, if a pair is left that is not equal inside so far and that no
/// pattern shows to differ. A pair that the first round has found to be equal inside stays so, also
/// if the run is stopped meanwhile and this round finds less. What the rounds have learned is
/// freed. Fails if memory is refused.
pub(crate) fn second_round<H: Threads + Wait + Sync, G: Monitor>(
    task: &Task<'_, H>,
    naming: &Naming,
    facts: &PairFacts,
    merged: Merged,
    monitor: &G,
) -> Result<Vec<bool>, AllocError>
    requires facts { AreFacts task.now naming.now facts.now }
    requires merged { AreEqualIf task.now naming.now facts.now merged.equal.items }
    ensures { IfOk result (λ equal. AreEqualIf task.now naming.now facts.now equal.items) }
{
    let Merged { merging, equal } = merged;
    if are_known(facts, equal.as_slice()) {
        return Ok(equal);
    }
    let mut merging = merging;
    let more = equal_within(task, naming, facts, &mut merging, SECOND_WINDOW, monitor)?;
    either_equal(task, naming, facts, equal.as_slice(), more.as_slice())
}

/// Does both rounds of merging, and returns for each pair whether it is equal inside. Fails if memory is refused.
pub(crate) fn equal_pairs<H: Threads + Wait + Sync, G: Monitor>(
    task: &Task<'_, H>,
    naming: &Naming,
    facts: &PairFacts,
    monitor: &G,
) -> Result<Vec<bool>, AllocError>
    requires { AreFacts task.now naming.now facts.now }
    ensures { IfOk result (λ equal. AreEqualIf task.now naming.now facts.now equal.items) }
{
    let merged = first_round(task, naming, facts, monitor)?;
    second_round(task, naming, facts, merged, monitor)
}
