//! The judging of one pair by its cones, within a budget of nodes.
ghost use Rattle.std.specs.Prelude.{◌≡◌, ◌<◌, ◌^◌, ◌∷◌, [], false, length, Option, None, Some, Ok, All, IfOk, IfErr, IfSome};
ghost use Rattle.net_names.specs.declared.order.Order.{Order as OrderValue};
ghost use Rattle.compare_built.specs.declared.strategy.Candidate.{Candidate as CandidateValue};
ghost use Rattle.order_search.specs.Trials.{EndsAtOnce, IsCandidateGivenUp, IsSomePairing};
ghost use Rattle.cone_check.specs.ConeRounds.{AreConesOf, AreConesWithin, HasOneVerdict, IsConeContext, IsInContext, IsJobResult};
ghost use Rattle.cone_check.specs.ConeRounds.{IsListedLeft, IsOnlyVerdict, IsPairSettings, IsWidened};

use crate::pair_cones::{
    ConeContext, Cones, as_comparison_fault, cone_pairing, cones_of, places_of, task_of,
};
use crate::pair_monitor::PairMonitor;
use compare_built::fault::CheckFault;
use compare_built::scatter::widen_verdict;
use compare_built::settings::Settings;
use compare_built::strategy::Strategy;
use compare_built::subject::Subject;
use compare_built::task::Task;
use expand_work::{Monitor, Workers};
use net_names::order::{Match, Order};
use net_order::pairing::Pairing;
use order_search::attempts::{Decided, Round, try_first};
use order_search::listed_attempt::try_pairing;
use order_search::trials::paired;
use report_text::{Difference, PairFilter, Verdict};
use std::alloc::AllocError;
use std::sync::Wait;
use std::thread::Threads;

/// Returns the settings by which the cones of a pair are compared: matched by name, in the order of the first candidate
/// that succeeds, for the least difference and without sizes. Filters, the report's form and its additions belong to
/// the whole comparison. So does `Difference::AnyOne`: it lets pairs be decided by patterns, without an attempt, and an
/// attempt always finds the least difference.
pub fn pair_settings<H>(context: &ConeContext<'_, H>, workers: Workers) -> Settings
    ensures settings { IsPairSettings context.now result }
    ensures workers { result.workers ≡ workers.count }
{
    let settings = context.task.settings;
    Settings {
        matching: Match::Name,
        order: Strategy::Best,
        picked: PairFilter::All,
        difference: Difference::Least,
        workers: workers.count(),
        limit: settings.limit,
        sizes: false,
        json: false,
        explain: Vec::new(context.task.alloc),
        assignment: settings.assignment,
        vcd: false,
        causes: false,
    }
}

/// Returns the only verdict of the list: there is one, since each cone has one output.
fn only_one(verdicts: Vec<Verdict>) -> Verdict
    requires { length verdicts.items ≡ 1 }
    ensures { verdicts.items ≡ result ∷ [] }
{
    let mut verdicts = verdicts;
    verdicts.remove(0)
}

/// Returns the verdict of the cones over the variables of their pairing, by an attempt in this order, or none if the
/// attempt was given up. The pairing is that of the verdict; for the diagrams the cones are paired in the order.
fn try_order<H: Threads + Wait + Sync, G: Monitor>(
    task: &Task<'_, H>,
    pairing: &Pairing,
    order: &Order,
    budget: u64,
    monitor: &G,
) -> Result<Option<Verdict>, CheckFault>
    requires small { budget < 2 ^ 32 }
    requires paired { IsSomePairing task.now pairing.now }
    requires no_sizes { task.now.settings.now.sizes ≡ false }
    requires one { HasOneVerdict task.now pairing.now }
    ensures decided { IfOk result (λ o. IfSome o (IsOnlyVerdict task.now pairing.now)) }
    ensures within { IfOk result (λ o. IfSome o (λ _. AreConesWithin task.now (Some order.now) budget)) }
    ensures left { result ≡ Ok None → IsListedLeft task.now (Some order.now) budget (G.bound monitor.now) }
    ensures ends { IfErr result EndsAtOnce }
{
    let own = paired(task, order)?;
    let found = try_pairing(task, pairing, &own, budget, monitor)?;
    match found {
        Some(verdicts) => Ok(Some(only_one(verdicts))),
        None => Ok(None),
    }
}

/// Returns the verdict of the cones by an attempt in the order that is listed for them, or none if it was given up or
/// no order is listed.
fn try_listed<H: Threads + Wait + Sync, G: Monitor>(
    task: &Task<'_, H>,
    pairing: &Pairing,
    order: &Option<Order>,
    budget: u64,
    monitor: &G,
) -> Result<Option<Verdict>, CheckFault>
    requires small { budget < 2 ^ 32 }
    requires paired { IsSomePairing task.now pairing.now }
    requires no_sizes { task.now.settings.now.sizes ≡ false }
    requires one { HasOneVerdict task.now pairing.now }
    ensures decided { IfOk result (λ o. IfSome o (IsOnlyVerdict task.now pairing.now)) }
    ensures within { IfOk result (λ o. IfSome o (λ _. AreConesWithin task.now order.now budget)) }
    ensures left { result ≡ Ok None → IsListedLeft task.now order.now budget (G.bound monitor.now) }
    ensures ends { IfErr result EndsAtOnce }
{
    match order {
        Some(order) => try_order(task, pairing, order, budget, monitor),
        None => Ok(None),
    }
}

/// Returns the verdict of the cones by attempts in the orders of the candidates, or none if each attempt within the
/// budget was given up. The trials are not kept: the next round makes the orders anew, as it does the cones.
fn try_candidates<H: Threads + Wait + Sync, G: Monitor>(
    task: &Task<'_, H>,
    pairing: &Pairing,
    budget: u64,
    monitor: &G,
) -> Result<Option<Verdict>, CheckFault>
    requires small { budget < 2 ^ 32 }
    requires paired { IsSomePairing task.now pairing.now }
    requires no_sizes { task.now.settings.now.sizes ≡ false }
    requires one { HasOneVerdict task.now pairing.now }
    ensures decided { IfOk result (λ o. IfSome o (IsOnlyVerdict task.now pairing.now)) }
    ensures within { (order : Option OrderValue) → IfOk result (λ o. IfSome o (λ _. AreConesWithin task.now order budget)) }
    ensures left { result ≡ Ok None → (c : CandidateValue) → IsCandidateGivenUp task.now budget (G.bound monitor.now) c }
    ensures ends { IfErr result EndsAtOnce }
{
    let mut trials = Vec::new(task.alloc);
    match try_first(task, Some(pairing), &mut trials, budget, monitor)? {
        Round::Decided(decided) => {
            let Decided { verdicts, .. } = decided;
            Ok(Some(only_one(verdicts)))
        }
        Round::GivenUp { .. } => Ok(None),
    }
}

/// Returns the verdict of the cones over the variables of their pairing, or none if each attempt within the budget was
/// given up. The order that is listed for cones, if there is one, is tried before those of the candidates.
fn try_cones<H: Threads + Wait + Sync, G: Monitor>(
    task: &Task<'_, H>,
    pairing: &Pairing,
    order: &Option<Order>,
    budget: u64,
    monitor: &G,
) -> Result<Option<Verdict>, CheckFault>
    requires small { budget < 2 ^ 32 }
    requires paired { IsSomePairing task.now pairing.now }
    requires no_sizes { task.now.settings.now.sizes ≡ false }
    requires one { HasOneVerdict task.now pairing.now }
    ensures decided { IfOk result (λ o. IfSome o (IsOnlyVerdict task.now pairing.now)) }
    ensures within { IfOk result (λ o. IfSome o (λ _. AreConesWithin task.now order.now budget)) }
    ensures left { result ≡ Ok None → (c : CandidateValue) → IsCandidateGivenUp task.now budget (G.bound monitor.now) c }
    ensures listed_left { result ≡ Ok None → IsListedLeft task.now order.now budget (G.bound monitor.now) }
    ensures ends { IfErr result EndsAtOnce }
{
    let silent = PairMonitor { monitor };
    let listed = try_listed(task, pairing, order, budget, &silent)?;
    match listed {
        Some(verdict) => Ok(Some(verdict)),
        None => try_candidates(task, pairing, budget, &silent),
    }
}

/// Returns the verdict of a pair over all variables of the naming, from that over the variables at these levels, if
/// there is one. Variables that the cones do not have are 0 in a difference.
fn over_all_variables<H>(
    context: &ConeContext<'_, H>,
    subject: &Subject,
    places: &[u32],
    found: Option<Verdict>,
) -> Result<Option<Verdict>, AllocError>
    requires in_range { IsInContext context.now subject.now }
    requires low { All (λ place. place < length context.now.naming.now.names) places.now }
    ensures { IfOk result (IsWidened context.now subject.now places.now found) }
{
    let Some(verdict) = found else {
        return Ok(None);
    };
    let name = context.task.first.name(subject.named);
    let levels = context.naming.names().len();
    let verdict = widen_verdict(
        context.task.alloc,
        verdict,
        subject.role,
        name,
        levels,
        places,
    )?;
    Ok(Some(verdict))
}

/// Judges a pair by its cones. It is left undecided if they have more variables together than a pairing can have.
fn judge_cones<H: Threads + Wait + Sync, G: Monitor>(
    context: &ConeContext<'_, H>,
    settings: &Settings,
    subject: &Subject,
    cones: &Cones,
    budget: u64,
    monitor: &G,
) -> Result<Option<Verdict>, CheckFault>
    requires small { budget < 2 ^ 32 }
    requires ready { IsConeContext context.now }
    requires settings { IsPairSettings context.now settings.now }
    requires in_range { IsInContext context.now subject.now }
    requires cones { AreConesOf context.now subject.now cones.now }
    ensures { IsJobResult context.now budget (G.bound monitor.now) subject.now result }
{
    let _ = context.task.first.inputs(); // For the proof.
    let _ = context.task.second.inputs(); // For the proof.
    let places = places_of(context, cones)?;
    let task = task_of(context, settings, cones);
    let paired = cone_pairing(&task, context.naming.names(), places.as_slice())?;
    let Some(pairing) = paired else {
        return Ok(None);
    };
    let found = match try_cones(&task, &pairing, context.order, budget, monitor) {
        Ok(found) => found,
        Err(fault) => return Err(as_comparison_fault(fault)),
    };
    let verdict = over_all_variables(context, subject, places.as_slice(), found)?;
    Ok(verdict)
}

/// Returns the verdict of a pair over all variables of the naming, by an attempt at its cones within `budget` nodes.
/// There is none if each attempt was given up, or the cones together have more variables than a pairing can have, or
/// the run has stopped. Each round makes the cones anew, since those of all pairs together may be many times as large
/// as the netlists. They are freed at the end, as is all memory that the attempts take. Fails only if memory is
/// refused, to a wave or elsewhere.
pub fn judge_pair<H: Threads + Wait + Sync, G: Monitor>(
    context: &ConeContext<'_, H>,
    settings: &Settings,
    subject: &Subject,
    budget: u64,
    monitor: &G,
) -> Result<Option<Verdict>, CheckFault>
    requires small { budget < 2 ^ 32 }
    requires ready { IsConeContext context.now }
    requires settings { IsPairSettings context.now settings.now }
    requires in_range { IsInContext context.now subject.now }
    ensures { IsJobResult context.now budget (G.bound monitor.now) subject.now result }
{
    if monitor.has_stopped() {
        return Ok(None);
    }
    let cones = cones_of(context, subject)?;
    judge_cones(context, settings, subject, &cones, budget, monitor)
}
