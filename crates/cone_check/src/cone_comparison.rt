//! The comparison of two netlists pair by pair, each pair by its cones.
ghost use Rattle.std.specs.Prelude.{◌≡◌, ◌<◌, ◌++◌, length, All, IfOk, IfErr, IfSome};
ghost use Rattle.std.specs.List.{AllZip};
ghost use Rattle.net_bench.specs.Circuit.{circuit};
ghost use Rattle.net_order.specs.Order.{condition};
ghost use Rattle.compare_built.specs.Cones.{IsConditionCone};
ghost use Rattle.compare_built.specs.Findings.{found_of};
ghost use Rattle.compare_built.specs.Scatter.{IsOfNet};
ghost use Rattle.order_search.specs.Tasks.{IsInTask};
ghost use Rattle.order_search.specs.Trials.{IsDeclaredNaming};
ghost use Rattle.cone_check.specs.ConeRounds.{AreAllJudged, AreKnownAtOnce, EndsPairs, IsConeContext, IsFinalVerdict, IsFoundByCones};
ghost use Rattle.cone_check.specs.ConeRounds.{IsInContext, IsPairVerdict, all_or_undecided, circuit_in, or_undecided};
ghost use Rattle.cone_check.specs.EqualCones.{AreKnownVerdictsFor};
ghost use Rattle.cone_check.specs.KnownPairs.{AreEqualFlags, AreEqualReported, AreFacts, AreFirstShown};

use crate::at_once::{known_at_once, put_all_shown};
use crate::equal_cones::{Distinct, distinct_pairs, verdicts_for};
use crate::judging_order::shown_flags;
use crate::pair_cones::{ConeContext, cone_order, cones_of, places_of};
use crate::rounds::judge_all;
use crate::variable_names::names_in;
use compare_built::fault::CheckFault;
use compare_built::found::Verdicts;
use compare_built::subject::Subject;
use compare_built::task::Task;
use expand_work::Monitor;
use net_bench::netlist::Netlist;
use net_cone::{Cone, cone_of, gate_signals};
use net_order::naming::Naming;
use net_order::netlist_role::NetlistRole;
use net_patterns::ShownPattern;
use pair_facts::PairFacts;
use report_text::{Name, Verdict};
use std::alloc::{AllocError, Global};
use std::sync::Wait;
use std::thread::Threads;

/// Returns the cone of the condition's output, if there is a condition.
fn given_cone<H>(task: &Task<'_, H>, naming: &Naming) -> Result<Option<Cone>, AllocError>
    requires { IsDeclaredNaming task.now naming.now }
    ensures cone { IfOk result (λ cone. IsConditionCone (condition task.now.given) naming.now (circuit_in cone)) }
    ensures net { IfOk result (λ cone. IfSome (condition task.now.given) IsOfNet) }
{
    let _ = task.first.inputs(); // For the proof.
    let _ = task.second.inputs(); // For the proof.
    let Some(given) = task.given else {
        return Ok(None);
    };
    let names = names_in(task.alloc, given, naming, NetlistRole::Given)?;
    let gates = gate_signals(task.alloc, given)?;
    let root = given.outputs()[0]; // A condition has exactly one output.
    let cone = cone_of(task.alloc, given, root, names.as_slice(), gates.as_slice())?;
    Ok(Some(cone))
}

/// Returns the verdict of a pair, which is Undecided if none is known.
fn or_undecided(
    alloc: Global,
    first: &Netlist,
    subject: Subject,
    known: Option<Verdict>,
) -> Result<Verdict, AllocError>
    requires { subject.named < length first.now.names }
    ensures { IfOk result (λ v. v ≡ or_undecided (circuit first.now) subject known) }
{
    match known {
        Some(verdict) => Ok(verdict),
        None => Ok(Verdict::Undecided {
            role: subject.role,
            name: Name::copied(alloc, first.name(subject.named))?,
        }),
    }
}

/// Returns the verdicts of all pairs.
fn verdicts_or_undecided(
    alloc: Global,
    first: &Netlist,
    subjects: &[Subject],
    known: Vec<Option<Verdict>>,
) -> Result<Vec<Verdict>, AllocError>
    requires one_for_each { length known.items ≡ length subjects.now }
    requires named { All (λ s. s.named < length first.now.names) subjects.now }
    ensures { IfOk result (λ v. v.items ≡ all_or_undecided (circuit first.now) subjects.now known.items) }
{
    let mut all = Vec::new(alloc);
    let mut place = 0;
    for one in known {
        let verdict = or_undecided(alloc, first, subjects[place], one)?;
        all.push(verdict)?;
        place += 1;
    }
    Ok(all)
}

/// Notifies the monitor of a pair that has no verdict, with the number of variables of its cones.
fn notify_undecided<H, G: Monitor>(
    context: &ConeContext<'_, H>,
    subject: &Subject,
    known: &Option<Verdict>,
    monitor: &G,
) -> Result<(), AllocError>
    requires ready { IsConeContext context.now }
    requires in_range { IsInContext context.now subject.now }
{
    if known.is_none() {
        let cones = cones_of(context, subject)?;
        monitor.at_undecided(places_of(context, &cones)?.len());
    }
    Ok(())
}

/// Notifies the monitor of each pair that has no verdict. If the run has stopped, it does not: computing the cones
/// would delay the end of the run.
fn notify_all_undecided<H, G: Monitor>(
    context: &ConeContext<'_, H>,
    subjects: &[Subject],
    known: &[Option<Verdict>],
    monitor: &G,
) -> Result<(), AllocError>
    requires ready { IsConeContext context.now }
    requires in_range { All (IsInContext context.now) subjects.now }
    requires one_for_each { length known.now ≡ length subjects.now }
{
    if monitor.has_stopped() {
        return Ok(());
    }
    for place in 0..subjects.len() {
        notify_undecided(context, &subjects[place], &known[place], monitor)?;
    }
    Ok(())
}

/// Notifies the monitor of the number of pairs that take the verdict of another pair, if there are any.
fn notify_equal_cones<G: Monitor>(distinct: &Distinct, monitor: &G) {
    let pairs = distinct.numbers.len();
    let same = pairs.saturating_sub(distinct.subjects.len());
    if same > 0 {
        monitor.at_equal_cones(same, pairs);
    }
}

/// Judges pairs by their cones, in each round first those that no pattern shows to differ. Only one of the pairs that
/// have the same cones is judged, and the others take its verdict.
fn judge_distinct<H: Threads + Wait + Sync, G: Monitor>(
    context: &ConeContext<'_, H>,
    subjects: &[Subject],
    known: Vec<Option<Verdict>>,
    shown: &[Option<ShownPattern>],
    monitor: &G,
) -> Result<Vec<Option<Verdict>>, CheckFault>
    requires ready { IsConeContext context.now }
    requires in_range { All (IsInContext context.now) subjects.now }
    requires at_once { AreKnownAtOnce context.now subjects.now known.items }
    requires shown { length shown.now ≡ length subjects.now }
    ensures known { IfOk result (λ known. AreAllJudged context.now (G.bound monitor.now) subjects.now known.items) }
    ensures kept { IfOk result (λ all. AreKnownVerdictsFor (circuit context.now.task.now.first.now) subjects.now known.items all.items) }
    ensures ends { IfErr result EndsPairs }
{
    let task = context.task;
    let _ = task.first.inputs(); // For the proof.
    let _ = task.second.inputs(); // For the proof.
    let distinct = distinct_pairs(context, subjects, known.as_slice())?;
    notify_equal_cones(&distinct, monitor);
    let Distinct {
        subjects: judged,
        known,
        numbers,
    } = distinct;
    let flags = shown_flags(task.alloc, numbers.as_slice(), shown)?;
    let found = judge_all(context, judged.as_slice(), known, flags.as_slice(), monitor)?;
    let all = verdicts_for(
        task.alloc,
        task.first,
        subjects,
        numbers.as_slice(),
        found.as_slice(),
    )?;
    Ok(all)
}

/// Returns the verdicts of these pairs: those known at once, then those that the cones give, and for pairs that are
/// left the differences that patterns show. The last step does not depend on the setting, since a difference that need
/// not be the least is better than none.
fn judged<H: Threads + Wait + Sync, G: Monitor>(
    context: &ConeContext<'_, H>,
    subjects: &[Subject],
    equal: &[bool],
    shown: &[Option<ShownPattern>],
    monitor: &G,
) -> Result<Vec<Verdict>, CheckFault>
    requires ready { IsConeContext context.now }
    requires in_range { All (IsInContext context.now) subjects.now }
    requires equal { AreEqualFlags context.now.task.now context.now.naming.now subjects.now equal.now }
    requires shown { AreFirstShown context.now.task.now context.now.naming.now subjects.now shown.now }
    ensures verdicts { IfOk result (λ v. AllZip (IsFinalVerdict context.now (G.bound monitor.now)) subjects.now v.items) }
    ensures equal { IfOk result (λ v. AreEqualReported (circuit context.now.task.now.first.now) subjects.now equal.now v.items) }
    ensures ends { IfErr result EndsPairs }
{
    let task = context.task;
    let _ = task.first.inputs(); // For the proof.
    let _ = task.second.inputs(); // For the proof.
    let known = known_at_once(context, subjects, equal, shown)?;
    let mut known = judge_distinct(context, subjects, known, shown, monitor)?;
    put_all_shown(task, context.naming, subjects, shown, &mut known)?;
    notify_all_undecided(context, subjects, known.as_slice(), monitor)?;
    let verdicts = verdicts_or_undecided(task.alloc, task.first, subjects, known)?;
    Ok(verdicts)
}

/// Returns the verdicts with the lines of the unmatched signals after them.
fn and_unmatched(
    mut verdicts: Vec<Verdict>,
    mut unmatched_lines: Vec<Verdict>,
) -> Result<Vec<Verdict>, AllocError>
    ensures { IfOk result (λ all. all.items ≡ verdicts.items ++ unmatched_lines.items) }
{
    verdicts.append(&mut unmatched_lines)?;
    Ok(verdicts)
}

/// Judges the pairs after the parts that their cones share were made: the names of variables, the signals of gates and
/// the cone of the condition.
fn judge_selected<H: Threads + Wait + Sync, G: Monitor>(
    task: &Task<'_, H>,
    naming: &Naming,
    subjects: &[Subject],
    equal: &[bool],
    shown: &[Option<ShownPattern>],
    monitor: &G,
) -> Result<Vec<Verdict>, CheckFault>
    requires naming { IsDeclaredNaming task.now naming.now }
    requires in_range { All (IsInTask task.now) subjects.now }
    requires equal { AreEqualFlags task.now naming.now subjects.now equal.now }
    requires shown { AreFirstShown task.now naming.now subjects.now shown.now }
    ensures verdicts { IfOk result (λ v. AllZip (IsPairVerdict task.now (G.bound monitor.now) naming.now) subjects.now v.items) }
    ensures equal { IfOk result (λ v. AreEqualReported (circuit task.now.first.now) subjects.now equal.now v.items) }
    ensures ends { IfErr result EndsPairs }
{
    let _ = task.first.inputs(); // For the proof.
    let _ = task.second.inputs(); // For the proof.
    let first = names_in(task.alloc, task.first, naming, NetlistRole::First)?;
    let second = names_in(task.alloc, task.second, naming, NetlistRole::Second)?;
    let first_gates = gate_signals(task.alloc, task.first)?;
    let second_gates = gate_signals(task.alloc, task.second)?;
    let given = given_cone(task, naming)?;
    let order = cone_order(task.alloc, &task.settings.order)?;
    let context = ConeContext {
        task,
        naming,
        first: first.as_slice(),
        second: second.as_slice(),
        first_gates: first_gates.as_slice(),
        second_gates: second_gates.as_slice(),
        given: &given,
        order: &order,
    };
    judged(&context, subjects, equal, shown, monitor)
}

/// Judges each pair that is selected, and returns the verdicts over the variables of the naming, which is in declared
/// order, with the lines of unmatched signals after them.
///
/// The verdict of a pair that is equal inside is known at once, and if any difference is asked for, so is that of a
/// pair that a pattern shows to differ. The other pairs are judged by their cones. A pair that they leave undecided has
/// the difference that a pattern shows, if there is one, and is Undecided otherwise.
///
/// Fails only if memory is refused, to a wave or elsewhere. An attempt that is given up is no fault.
pub fn verdicts_by_cones<H: Threads + Wait + Sync, G: Monitor>(
    task: &Task<'_, H>,
    naming: Naming,
    facts: PairFacts,
    equal: &[bool],
    monitor: &G,
) -> Result<Verdicts, CheckFault>
    requires naming { IsDeclaredNaming task.now naming }
    requires facts { AreFacts task.now naming facts }
    requires equal { AreEqualFlags task.now naming facts.subjects.items equal.now }
    ensures verdicts { IfOk result (λ v. IsFoundByCones task.now (G.bound monitor.now) naming (found_of v)) }
    ensures equal { IfOk result (λ v. AreEqualReported (circuit task.now.first.now) facts.subjects.items equal.now (found_of v).verdicts) }
    ensures named { IfOk result (λ v. v.naming ≡ naming) }
    ensures ends { IfErr result EndsPairs }
{
    let PairFacts {
        subjects,
        unmatched_lines,
        shown,
    } = facts;
    let verdicts = judge_selected(
        task,
        &naming,
        subjects.as_slice(),
        equal,
        shown.as_slice(),
        monitor,
    )?;
    let verdicts = and_unmatched(verdicts, unmatched_lines)?;
    Ok(Verdicts::of(naming, verdicts))
}
