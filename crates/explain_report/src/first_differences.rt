//! The pairs that differ, each with the first of its inner signals that differ.
ghost use Rattle.std.specs.Prelude.{◌≡◌, ◌<◌, ◌++◌, length, option_map, option_to_list, slice_get, zip, All, IfOk, IfSome, OnOk};
ghost use Rattle.net_explain.specs.Explaining.{ExplanationModel, IsExplanation};
ghost use Rattle.order_search.specs.Tasks.{IsInTask};
ghost use Rattle.explain_report.specs.Causing.{AreFirstDifferences, IsFirstDifference, IsPairFirstDifference, IsSignalKnown, first_difference};

use compare_built::subject::Subject;
use compare_built::task::Task;
use net_explain::{InnerSignal, explain};
use net_order::naming::Naming;
use report_text::{Name, PairKind, PairName, Verdict};
use std::alloc::{AllocError, Global};

/// A pair that differs, with the first of its inner signals that differ.
#[derive(Drop)]
pub struct FirstDifference {
    pub pair: PairName,
    pub inner: InnerSignal,
}

/// The first of these inner signals; None if there are none.
fn first_of(inner: &[InnerSignal]) -> Option<InnerSignal>
    ensures { result ≡ slice_get inner.now 0 }
{
    inner.first().copied()
}

/// The first of a pair's inner signals that differ at an assignment; None if none does.
fn first_inner<H>(
    task: &Task<'_, H>,
    naming: &Naming,
    subject: Subject,
    at: &[bool],
) -> Result<Option<InnerSignal>, AllocError>
    requires { IsInTask task.now subject }
    ensures first { IfOk result (λ first. (e : ExplanationModel) × IsExplanation task.now.first.now task.now.second.now naming.now
        (subject.first, subject.second) at.now e × (first ≡ slice_get e.inner 0)) }
    ensures known { IfOk result (λ first. IfSome first (λ inner. inner.first < length task.now.first.now.names)) }
{
    let pair = (subject.first, subject.second);
    let explanation = explain(task.alloc, task.first, task.second, naming, pair, at)?;
    Ok(first_of(explanation.inner()))
}

/// A pair with its first inner signal; None if it has none.
fn first_difference(pair: PairName, first: Option<InnerSignal>) -> Option<FirstDifference>
    ensures { result ≡ option_map (first_difference pair) first }
{
    match first {
        Some(inner) => Some(FirstDifference { pair, inner }),
        None => None,
    }
}

/// A pair with the first of its inner signals that differ at an assignment; None if none does.
fn subject_first_difference<H>(
    task: &Task<'_, H>,
    naming: &Naming,
    subject: Subject,
    pair: PairName,
    at: &[bool],
) -> Result<Option<FirstDifference>, AllocError>
    requires { IsInTask task.now subject }
    ensures differences { IfOk result (IsPairFirstDifference task.now.first.now task.now.second.now naming.now pair at.now subject) }
    ensures known { IfOk result (λ difference. IfSome difference (IsSignalKnown task.now.first.now)) }
{
    let first = first_inner(task, naming, subject, at)?;
    Ok(first_difference(pair, first))
}

/// The pair with this role and this name.
fn pair_of(alloc: Global, role: PairKind, name: &Name) -> Result<PairName, AllocError>
    ensures { IfOk result (λ pair. pair ≡ record { role = role; name = name.now }) }
{
    let name = Name::copied(alloc, name.as_slice())?;
    Ok(PairName { role, name })
}

/// A pair with the first of its inner signals that differ, by its verdict; None if the pair does not differ, or no inner signal does.
fn first_difference_of<H>(
    task: &Task<'_, H>,
    naming: &Naming,
    subject: Subject,
    verdict: &Verdict,
) -> Result<Option<FirstDifference>, AllocError>
    requires { IsInTask task.now subject }
    ensures differences { IfOk result (IsFirstDifference task.now.first.now task.now.second.now naming.now subject verdict.now) }
    ensures known { IfOk result (λ difference. IfSome difference (IsSignalKnown task.now.first.now)) }
{
    match verdict {
        Verdict::Differs { role, name, at, .. } => {
            let pair = pair_of(task.alloc, *role, name)?;
            subject_first_difference(task, naming, subject, pair, at.as_slice())
        }
        Verdict::Equal { .. } | Verdict::Unmatched { .. } | Verdict::Undecided { .. } => Ok(None),
    }
}

/// Appends a pair, if there is one.
fn add_first_difference(
    all: &mut Vec<FirstDifference>,
    one: Option<FirstDifference>,
) -> Result<(), AllocError>
    ensures { OnOk result (all.new.items ≡ all.old.items ++ option_to_list one) }
{
    if let Some(one) = one {
        all.push(one)?;
    }
    Ok(())
}

/// All of these pairs that differ and have inner signals that differ, each with the first of these. The verdict at a place
/// is that of the pair at this place; there may be more verdicts than pairs.
pub fn all_first_differences<H>(
    task: &Task<'_, H>,
    naming: &Naming,
    pairs: &[Subject],
    verdicts: &[Verdict],
) -> Result<Vec<FirstDifference>, AllocError>
    requires { All (IsInTask task.now) pairs.now }
    ensures differences { IfOk result (λ v. AreFirstDifferences task.now.first.now task.now.second.now naming.now
        (zip pairs.now verdicts.now) v.items) }
    ensures known { IfOk result (λ v. All (IsSignalKnown task.now.first.now) v.items) }
{
    let mut all = Vec::new(task.alloc);
    for place in 0..pairs.len().min(verdicts.len()) {
        let one = first_difference_of(task, naming, pairs[place], &verdicts[place])?;
        add_first_difference(&mut all, one)?;
    }
    Ok(all)
}
