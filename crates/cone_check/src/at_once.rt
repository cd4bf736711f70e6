//! Pairs whose verdict is known without an attempt: those that are equal inside (docs/EQUAL_INSIDE.md), and those at
//! which a simulated pattern shows a difference.
ghost use Rattle.std.specs.Prelude.{◌≡◌, ◌<◌, All, IfOk, OnOk, length};
ghost use Rattle.net_bench.specs.Circuit.{circuit};
ghost use Rattle.net_order.specs.Order.{condition};
ghost use Rattle.order_search.specs.Tasks.{IsInTask};
ghost use Rattle.cone_check.specs.ConeRounds.{AreKnownAtOnce, IsConeContext, IsInContext, IsShownElse, or_equal};
ghost use Rattle.cone_check.specs.KnownPairs.{AreEqualFlags, AreEqualKnown, AreFirstShown, AreKept, AreOrEqual};
ghost use Rattle.cone_check.specs.KnownPairs.{AreShownElse, IsFirstShownIn};

use crate::pair_cones::ConeContext;
use crate::remaining::no_verdicts;
use compare_built::subject::Subject;
use compare_built::task::Task;
use net_bench::netlist::Netlist;
use net_order::naming::Naming;
use net_patterns::ShownPattern;
use pair_facts::shown_verdict;
use report_text::{Difference, Name, Verdict};
use std::alloc::{AllocError, Global};

/// Sets the verdict Equal, without a size, if the pair is equal inside. Fails if memory is refused.
fn put_equal(
    alloc: Global,
    first: &Netlist,
    subject: &Subject,
    equal: bool,
    known: &mut Option<Verdict>,
) -> Result<(), AllocError>
    requires { subject.now.named < length first.now.names }
    ensures { OnOk result (known.new ≡ or_equal (circuit first.now) subject.now equal known.old) }
{
    if equal {
        *known = Some(Verdict::Equal {
            role: subject.role,
            name: Name::copied(alloc, first.name(subject.named))?,
            size: None,
        });
    }
    Ok(())
}

/// Returns for each pair the verdict Equal if it is equal inside, and none otherwise.
fn equal_verdicts(
    alloc: Global,
    first: &Netlist,
    subjects: &[Subject],
    equal: &[bool],
) -> Result<Vec<Option<Verdict>>, AllocError>
    requires one_for_each { length equal.now ≡ length subjects.now }
    requires named { All (λ s. s.named < length first.now.names) subjects.now }
    ensures { IfOk result (λ known. AreOrEqual (circuit first.now) subjects.now equal.now known.items) }
{
    let mut known = no_verdicts(alloc, subjects.len())?;
    for place in 0..subjects.len() {
        put_equal(
            alloc,
            first,
            &subjects[place],
            equal[place],
            &mut known[place],
        )?;
    }
    Ok(known)
}

/// Sets the difference that the pattern shows, if there is a pattern and the pair has no verdict yet.
fn put_shown<H>(
    task: &Task<'_, H>,
    naming: &Naming,
    subject: &Subject,
    shown: Option<ShownPattern>,
    known: &mut Option<Verdict>,
) -> Result<(), AllocError>
    requires in_range { IsInTask task.now subject.now }
    requires shown { IsFirstShownIn task.now naming.now subject.now shown }
    ensures { OnOk result (IsShownElse (circuit task.now.first.now) (circuit task.now.second.now) (condition task.now.given)
        naming.now subject.now shown known.old known.new) }
{
    if known.is_some() {
        return Ok(());
    }
    let Some(pattern) = shown else {
        return Ok(());
    };
    *known = Some(shown_verdict(task, naming, subject, pattern)?);
    Ok(())
}

/// Sets the difference of each pair that has no verdict yet and that a pattern shows to differ. Such a difference need
/// not be the least one. Fails if memory is refused.
pub fn put_all_shown<H>(
    task: &Task<'_, H>,
    naming: &Naming,
    subjects: &[Subject],
    shown: &[Option<ShownPattern>],
    known: &mut Vec<Option<Verdict>>,
) -> Result<(), AllocError>
    requires one_for_each { length known.old.items ≡ length subjects.now }
    requires in_range { All (IsInTask task.now) subjects.now }
    requires shown { AreFirstShown task.now naming.now subjects.now shown.now }
    ensures { OnOk result (AreShownElse (circuit task.now.first.now) (circuit task.now.second.now) (condition task.now.given)
        naming.now subjects.now shown.now known.old.items known.new.items) }
{
    for place in 0..subjects.len() {
        put_shown(
            task,
            naming,
            &subjects[place],
            shown[place],
            &mut known[place],
        )?;
    }
    Ok(())
}

/// Returns the verdicts that are known before an attempt is made. By place, `equal` has whether a pair was found to be
/// equal inside, and `shown` the first pattern that shows it to differ, if there is one. A pair that is equal inside is
/// Equal. A pair that a pattern shows to differ has this difference, but only if any difference is asked for: with
/// `Difference::Least` an attempt has to find the least one. Fails if memory is refused.
pub fn known_at_once<H>(
    context: &ConeContext<'_, H>,
    subjects: &[Subject],
    equal: &[bool],
    shown: &[Option<ShownPattern>],
) -> Result<Vec<Option<Verdict>>, AllocError>
    requires ready { IsConeContext context.now }
    requires in_range { All (IsInContext context.now) subjects.now }
    requires equal { AreEqualFlags context.now.task.now context.now.naming.now subjects.now equal.now }
    requires shown { AreFirstShown context.now.task.now context.now.naming.now subjects.now shown.now }
    ensures at_once { IfOk result (λ known. AreKnownAtOnce context.now subjects.now known.items) }
    ensures equal { IfOk result (λ known. AreEqualKnown (circuit context.now.task.now.first.now) subjects.now equal.now known.items) }
{
    let task = context.task;
    let known = equal_verdicts(task.alloc, task.first, subjects, equal)?;
    match task.settings.difference {
        Difference::Least => Ok(known),
        Difference::AnyOne => with_shown(context, subjects, shown, known),
    }
}

/// Adds the differences that patterns show to the verdicts that are known.
fn with_shown<H>(
    context: &ConeContext<'_, H>,
    subjects: &[Subject],
    shown: &[Option<ShownPattern>],
    known: Vec<Option<Verdict>>,
) -> Result<Vec<Option<Verdict>>, AllocError>
    requires ready { IsConeContext context.now }
    requires any { context.now.task.now.settings.now.difference ≡ Difference.AnyOne }
    requires in_range { All (IsInContext context.now) subjects.now }
    requires shown { AreFirstShown context.now.task.now context.now.naming.now subjects.now shown.now }
    requires known { AreKnownAtOnce context.now subjects.now known.items }
    ensures at_once { IfOk result (λ all. AreKnownAtOnce context.now subjects.now all.items) }
    ensures kept { IfOk result (λ all. AreKept known.items all.items) }
{
    let mut all = known;
    put_all_shown(context.task, context.naming, subjects, shown, &mut all)?;
    Ok(all)
}
