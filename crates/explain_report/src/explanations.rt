//! What comes after a report: an explanation of each pair that is asked for.
ghost use Rattle.std.specs.Prelude.{◌≡◌, ◌++◌, ◌↔◌, ◌<◌, true, false, length, find, All, IfOk, IsTrue, OnOk};
ghost use Rattle.net_bench.specs.Circuit.{circuit};
ghost use Rattle.net_explain.specs.Explaining.{ExplanationModel, IsExplanation};
ghost use Rattle.net_explain.specs.Text.{explanation_text};
ghost use Rattle.report_text.specs.Lines.{subject_text};
ghost use Rattle.compare_built.specs.Findings.{found_of};
ghost use Rattle.compare_built.specs.Report.{subjects};
ghost use Rattle.order_search.specs.Tasks.{IsInTask};
ghost use Rattle.explain_report.specs.Explaining.{AreExplained, AreTargetsIn, ExplainsPair, ExplainsTarget, ExplainsVerdict};
ghost use Rattle.explain_report.specs.Explaining.{HasTargets, HasUnknownTarget, HaveSomeReportNaming, IsAppended, IsTargetIn, OfReport, is_same_role};
ghost use Rattle.explain_report.specs.Explaining.{is_subject_of, is_target, is_verdict_on, status_text};

use compare_built::compared_pairs::subjects_of;
use compare_built::found::Verdicts;
use compare_built::named_signals::{has_name, is_same, registers_of};
use compare_built::subject::Subject;
use compare_built::task::Task;
use net_bench::netlist::Netlist;
use net_explain::{explain, explanation_of};
use net_order::naming::Naming;
use report_text::{PairKind, PairName, Verdict};
use std::alloc::{AllocError, Global};

/// Whether two roles are the same.
fn is_same_role(role: PairKind, other: PairKind) -> bool
    ensures { result ≡ is_same_role role other }
{
    match (role, other) {
        (PairKind::Output, PairKind::Output) => true,
        (PairKind::Output, PairKind::NextState) => false,
        (PairKind::NextState, PairKind::Output) => false,
        (PairKind::NextState, PairKind::NextState) => true,
    }
}

/// Whether this role and this name are those that are asked for.
fn is_target(target: &PairName, role: PairKind, name: &[u8]) -> bool
    ensures { result ≡ is_target target.now role name.now }
{
    is_same_role(target.role, role) && is_same(target.name.as_slice(), name)
}

/// Whether the netlist has this output, or this register.
pub fn has_pair(net: &Netlist, target: &PairName) -> bool
    ensures { IsTrue result ↔ IsTargetIn (circuit net.now) target.now }
{
    let name = target.name.as_slice();
    match target.role {
        PairKind::Output => has_name(net, net.outputs(), name),
        PairKind::NextState => has_name(net, registers_of(net), name),
    }
}

/// Whether the netlist has each of these outputs and registers.
pub fn has_pairs(net: &Netlist, targets: &[PairName]) -> bool
    ensures known { result ≡ true → AreTargetsIn (circuit net.now) targets.now }
    ensures unknown { result ≡ false → HasUnknownTarget (circuit net.now) targets.now }
{
    for target in targets {
        if !has_pair(net, target) {
            return false;
        }
    }
    true
}

/// Appends the name of what is asked for, as a line of the report has it.
fn add_subject(text: &mut Vec<u8>, target: &PairName) -> Result<(), AllocError>
    ensures { OnOk result (text.new.items ≡ text.old.items ++ subject_text target.now.role target.now.name) }
{
    match target.role {
        PairKind::Output => {}
        PairKind::NextState => text.extend_from_slice(b"NEXT ")?,
    }
    text.extend_from_slice(target.name.as_slice())?;
    Ok(())
}

/// The line for a pair that has no assignment at which it could be explained.
fn status_line(alloc: Global, target: &PairName, said: &[u8]) -> Result<Vec<u8>, AllocError>
    ensures { IfOk result (λ text. text.items ≡ status_text target.now said.now) }
{
    let mut text = Vec::new(alloc);
    text.extend_from_slice(b"EXPLAIN ")?;
    add_subject(&mut text, target)?;
    text.extend_from_slice(b": ")?;
    text.extend_from_slice(said)?;
    text.extend_from_slice(b"\n")?;
    Ok(text)
}

/// The explanation of a pair that differs at an assignment.
fn difference<H>(
    task: &Task<'_, H>,
    naming: &Naming,
    target: &PairName,
    subject: Subject,
    at: &[bool],
) -> Result<Vec<u8>, AllocError>
    requires { IsInTask task.now subject }
    ensures { IfOk result (λ text. (e : ExplanationModel) × IsExplanation task.now.first.now task.now.second.now naming.now
        (subject.first, subject.second) at.now e
        × (text.items ≡ explanation_text (subject_text target.now.role target.now.name) task.now.first.now.names e)) }
{
    let mut name = Vec::new(task.alloc);
    add_subject(&mut name, target)?;
    let pair = (subject.first, subject.second);
    let explanation = explain(task.alloc, task.first, task.second, naming, pair, at)?;
    explanation_of(task.alloc, name.as_slice(), task.first, &explanation)
}

/// The explanation of a pair with this verdict.
fn explained<H>(
    task: &Task<'_, H>,
    naming: &Naming,
    target: &PairName,
    subject: Subject,
    verdict: &Verdict,
) -> Result<Vec<u8>, AllocError>
    requires { IsInTask task.now subject }
    ensures { IfOk result (λ text. ExplainsVerdict task.now.first.now task.now.second.now naming.now target.now subject verdict.now
        text.items) }
{
    match verdict {
        Verdict::Equal { .. } => status_line(task.alloc, target, b"equal"),
        Verdict::Differs { at, .. } => difference(task, naming, target, subject, at.as_slice()),
        Verdict::Unmatched { .. } => status_line(task.alloc, target, b"no partner"),
        Verdict::Undecided { .. } => status_line(task.alloc, target, b"undecided"),
    }
}

/// Whether a verdict is about the pair that is asked for.
fn is_verdict_on(target: &PairName, verdict: &Verdict) -> bool
    ensures { result ≡ is_verdict_on target.now verdict.now }
{
    match verdict {
        Verdict::Equal { role, name, .. } => is_target(target, *role, name.as_slice()),
        Verdict::Differs { role, name, .. } => is_target(target, *role, name.as_slice()),
        Verdict::Unmatched { role, name, .. } => is_target(target, *role, name.as_slice()),
        Verdict::Undecided { role, name } => is_target(target, *role, name.as_slice()),
    }
}

/// The explanation of a pair, by its verdict among these.
fn explained_pair<H>(
    task: &Task<'_, H>,
    naming: &Naming,
    target: &PairName,
    subject: Subject,
    verdicts: &[Verdict],
) -> Result<Vec<u8>, AllocError>
    requires { IsInTask task.now subject }
    ensures { IfOk result (λ text. ExplainsPair task.now.first.now task.now.second.now naming.now target.now subject
        (find (is_verdict_on target.now) verdicts.now) text.items) }
{
    for place in 0..verdicts.len() {
        let verdict = &verdicts[place];
        if is_verdict_on(target, verdict) {
            return explained(task, naming, target, subject, verdict);
        }
    }
    status_line(task.alloc, target, b"not compared")
}

/// The pair that is asked for; None if there is none.
fn subject_of(net: &Netlist, target: &PairName, subjects: &[Subject]) -> Option<Subject>
    requires { All (λ subject. subject.named < length net.now.names) subjects.now }
    ensures { result ≡ find (is_subject_of (circuit net.now) target.now) subjects.now }
{
    for place in 0..subjects.len() {
        let subject = subjects[place];
        if is_target(target, subject.role, net.name(subject.named)) {
            return Some(subject);
        }
    }
    None
}

/// The explanation of what is asked for, by its pair and its verdict among these.
fn explanation<H>(
    task: &Task<'_, H>,
    naming: &Naming,
    target: &PairName,
    subjects: &[Subject],
    verdicts: &[Verdict],
) -> Result<Vec<u8>, AllocError>
    requires { All (IsInTask task.now) subjects.now }
    ensures { IfOk result (λ text. ExplainsTarget task.now.first.now task.now.second.now naming.now target.now
        (find (is_subject_of (circuit task.now.first.now) target.now) subjects.now)
        (find (is_verdict_on target.now) verdicts.now) text.items) }
{
    match subject_of(task.first, target, subjects) {
        Some(subject) => explained_pair(task, naming, target, subject, verdicts),
        None => status_line(task.alloc, target, b"no partner"),
    }
}

/// The explanations of all that is asked for, one after the other.
fn explanations<H>(
    task: &Task<'_, H>,
    naming: &Naming,
    pairs: &[Subject],
    verdicts: &[Verdict],
) -> Result<Vec<u8>, AllocError>
    requires all { pairs.now ≡ subjects (circuit task.now.first.now) (circuit task.now.second.now) naming.now }
    requires in_range { All (IsInTask task.now) pairs.now }
    ensures { IfOk result (λ text. AreExplained task.now.first.now task.now.second.now naming.now verdicts.now
        task.now.settings.now.explain.items text.items) }
{
    let targets = task.settings.explain.as_slice();
    let mut text = Vec::new(task.alloc);
    for place in 0..targets.len() {
        let one = explanation(task, naming, &targets[place], pairs, verdicts)?;
        text.extend_from_slice(one.as_slice())?;
    }
    Ok(text)
}

/// The explanations that the settings ask for, by the verdicts of the comparison, over their naming.
pub fn explanations_after<H>(task: &Task<'_, H>, verdicts: &Verdicts) -> Result<Vec<u8>, AllocError>
    requires named { HaveSomeReportNaming task.now verdicts.now }
    requires known { HasTargets task.now }
    ensures explanations_after { OfReport task.now verdicts.now (λ input s tried.
        IfOk result (λ text. IsAppended s.explain.items input s tried (found_of verdicts.now) text.items)) }
{
    let targets = task.settings.explain.as_slice();
    if targets.is_empty() {
        return Ok(Vec::new(task.alloc));
    }
    let _ = task.first.inputs(); // For the proof.
    let _ = task.second.inputs(); // For the proof.
    let naming = verdicts.naming();
    let subjects = subjects_of(task.alloc, task.first, task.second, naming)?;
    explanations(task, naming, subjects.as_slice(), verdicts.as_slice())
}
