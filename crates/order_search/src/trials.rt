//! Trials: the orders that are tried, each with its pairing.
ghost use Rattle.std.specs.Prelude.{◌≡◌, ◌≢◌, ◌↔◌, true, false, [], ◌∷◌, ◌++◌, All, Contains, Err, IfOk, IfErr, OnOk, IsTrue};
ghost use Rattle.std.specs.List.Sorted.{IsPermutation};
ghost use Rattle.group_order.specs.Orders.{IsOrderBy};
ghost use Rattle.compare_built.specs.declared.strategy.AttemptOrder.TheVariants.{Computed};
ghost use Rattle.compare_built.specs.Candidates.{rule_of};
ghost use Rattle.order_search.specs.Tasks.{HasNoOrder, IfErrInOrder, IsAttemptOrder, IsFitFor, IsOfOrder};
ghost use Rattle.order_search.specs.Trials.{HasTooManyVariables, IsDeclaredNaming, IsPairedBy, IsPairingIn};
ghost use Rattle.order_search.specs.declared.trials.Trial.{Trial as TrialValue};

use compare_built::fault::CheckFault;
use compare_built::named_signals::is_same;
use compare_built::strategy::{AttemptOrder, Candidate};
use compare_built::task::Task;
use group_order::{force_groups, msb_first, weights};
use net_names::names::Names;
use net_names::order::{Order, OrderFault};
use net_order::naming::{Naming, naming_of};
use net_order::pairing::{Pairing, pair};
use std::alloc::AllocError;
use std::cmp::Reverse;
use std::sync::atomic::{AtomicU32, Ordering};

/// An order that is tried, with the pairing in this order, and how far its last attempt came.
#[derive(Drop)]
pub struct Trial {
    pub order: AttemptOrder,
    pub pairing: Pairing,
    /// The last rank whose build its last attempt has begun; 0 if it has begun none.
    pub reached: AtomicU32,
}

/// Returns the pairing of a task's netlists in the given order. Fails if netlists that are matched by position have
/// different counts, if the order does not fit them, if there are more than 4,096 variables, or if memory is refused.
pub fn paired<H>(task: &Task<'_, H>, order: &Order) -> Result<Pairing, CheckFault>
    ensures paired { IfOk result (IsPairingIn task.now order.now) }
    ensures fault { IfErrInOrder task.now order.now result }
    ensures refused { IfErr result IsOfOrder }
    ensures many { result ≡ Err (CheckFault.Order OrderFault.TooManyInputs) → HasTooManyVariables task.now }
{
    Ok(pair(
        task.alloc,
        task.first,
        task.second,
        task.given,
        task.settings.matching,
        order,
    )?)
}

/// Returns the order of a candidate, by its rule.
fn order_by_rule<H>(task: &Task<'_, H>, candidate: Candidate) -> Result<Order, OrderFault>
    ensures rule { IfOk result (IsOrderBy (rule_of candidate) task.now.settings.now.matching task.now.first.now task.now.second.now task.now.given) }
    ensures each_once { IfOk result (IsFitFor task.now) }
    ensures refused { IfErr result (HasNoOrder task.now) }
{
    let alloc = task.alloc;
    let how = task.settings.matching;
    match candidate {
        Candidate::MsbFirst => msb_first(alloc, task.first, task.second, task.given, how),
        Candidate::Weights => weights(alloc, task.first, task.second, task.given, how),
        Candidate::ForceGroups => force_groups(alloc, task.first, task.second, task.given, how),
    }
}

/// Returns the order of a candidate, which is computed from a task's netlists. Fails as a pairing in declared order
/// does.
pub fn candidate_order<H>(task: &Task<'_, H>, candidate: Candidate) -> Result<Order, OrderFault>
    ensures order { IfOk result (IsAttemptOrder task.now (Computed candidate)) }
    ensures each_once { IfOk result (IsFitFor task.now) }
    ensures refused { IfErr result (HasNoOrder task.now) }
{
    let _ = task.first.inputs(); // For the proof.
    let _ = task.second.inputs(); // For the proof.
    match task.given {
        None => order_by_rule(task, candidate),
        Some(given) => {
            let _ = given.inputs(); // For the proof.
            order_by_rule(task, candidate)
        }
    }
}

/// Returns the order of an attempt.
fn attempt_order<H>(task: &Task<'_, H>, order: AttemptOrder) -> Result<Order, OrderFault>
    ensures order { IfOk result (IsAttemptOrder task.now order) }
    ensures each_once { IfOk result (IsFitFor task.now) }
    ensures refused { IfErr result (HasNoOrder task.now) }
{
    match order {
        AttemptOrder::Computed(candidate) => candidate_order(task, candidate),
        AttemptOrder::Declared => Ok(Order::Declared),
    }
}

/// Returns the pairing of a task's netlists in the order of an attempt. Fails as a pairing in declared order does.
pub fn paired_by<H>(task: &Task<'_, H>, order: AttemptOrder) -> Result<Pairing, CheckFault>
    ensures paired { IfOk result (IsPairedBy task.now order) }
    ensures fault { IfErrInOrder task.now Order.Declared result }
    ensures refused { IfErr result IsOfOrder }
{
    let order = attempt_order(task, order)?;
    Ok(pair(
        task.alloc,
        task.first,
        task.second,
        task.given,
        task.settings.matching,
        &order,
    )?)
}

/// Returns the naming of a task's netlists in declared order. Unlike a pairing, it may have any number of variables.
/// Fails if netlists that are matched by position have different counts, or if memory is refused.
pub fn named<H>(task: &Task<'_, H>) -> Result<Naming, CheckFault>
    ensures named { IfOk result (IsDeclaredNaming task.now) }
    ensures fault { IfErrInOrder task.now Order.Declared result }
    ensures refused { IfErr result IsOfOrder }
    ensures any_number_of_inputs { result ≢ Err (CheckFault.Order OrderFault.TooManyInputs) }
{
    Ok(naming_of(
        task.alloc,
        task.first,
        task.second,
        task.given,
        task.settings.matching,
    )?)
}

/// Whether two lists have the same names in the same order.
fn are_same(names: &Names, others: &Names) -> bool
    ensures { IsTrue result ↔ (names.now ≡ others.now) }
{
    if names.len() != others.len() {
        return false;
    }
    for place in 0..names.len() {
        if !is_same(names.at(place), others.at(place)) {
            return false;
        }
    }
    true
}

/// Whether one of the trials has these names in this order.
pub(crate) fn is_tried(trials: &[Trial], names: &Names) -> bool
    ensures tried { result ≡ true → (trial : TrialValue) × Contains trials.now trial × (trial.pairing.names ≡ names.now) }
    ensures new { result ≡ false → All (λ trial. trial.pairing.names ≢ names.now) trials.now }
{
    for trial in trials {
        if are_same(trial.pairing.names(), names) {
            return true;
        }
    }
    false
}

/// Appends a trial. Fails if memory is refused.
pub(crate) fn keep(trials: &mut Vec<Trial>, trial: Trial) -> Result<(), AllocError>
    ensures { OnOk result (trials.new.items ≡ trials.old.items ++ trial ∷ []) }
{
    trials.push(trial)?;
    Ok(())
}

/// Sorts the trials by falling rank that their last attempts have reached; those with the same rank stay in their
/// order. Three trials are sorted without more memory. If more were needed and refused, the list would be as before.
pub(crate) fn put_furthest_first(trials: &mut Vec<Trial>)
    ensures { IsPermutation trials.old.items trials.new.items }
{
    let _ = trials.sort_by_key(|trial| Reverse(trial.reached.load(Ordering::SeqCst)));
}
