//! The text of a report with the explanations after it, and the VCD of the first pair that differs.
ghost use Rattle.std.specs.Prelude.{◌≢◌, IfOk, IfErr, Err};
ghost use Rattle.compare_built.specs.Findings.{found_of};
ghost use Rattle.order_search.specs.Tasks.{OfTask};
ghost use Rattle.explain_report.specs.Dumping.{IsReportWithVcd, bytes_in};
ghost use Rattle.explain_report.specs.Explaining.{HasTargets, HaveReportNaming, IsReportFault};
ghost use Rattle.check_report.specs.Decisions.{AreGivenUpBefore};
ghost use Rattle.check_report.specs.Refusals.{MayAnswer};
ghost use Rattle.check_report.specs.Texts.{IsFullText};

use crate::decision::decide;
use compare_built::fault::CheckFault;
use compare_built::found::Verdicts;
use compare_built::strategy::Attempt;
use compare_built::task::Task;
use expand_work::Monitor;
use explain_report::causes::{causes, listed};
use explain_report::explanations::{explanations_after, has_pairs};
use explain_report::report::{Circumstances, form_text};
use explain_report::vcd_dump::dump;
use report_text::Outcome;
use std::alloc::AllocError;
use std::sync::Wait;
use std::thread::Threads;

/// The texts that a comparison makes, in memory.
#[derive(Drop)]
pub(crate) struct ReportTexts {
    pub(crate) report: Vec<u8>,
    /// The values of the first pair that differs, if the settings ask for them and a pair differs.
    pub(crate) vcd: Option<Vec<u8>>,
}

/// Returns the bytes of a report, with the causes of differences if they are asked for, and after
/// them the explanations of the pairs that are to be explained. Both evaluate the netlists at the
/// assignments of the report; no diagram is left by then.
fn full_text<H>(
    task: &Task<'_, H>,
    tried: Option<Attempt>,
    stopped: bool,
    verdicts: &Verdicts,
) -> Result<Vec<u8>, AllocError>
    requires named { HaveReportNaming task.now tried verdicts.now }
    requires known { HasTargets task.now }
    ensures text { OfTask task.now (λ input s.
        IfOk result (λ text. IsFullText input s tried stopped (found_of verdicts.now) text.items)) }
{
    let given = task.given.is_some();
    let causes = causes(task, verdicts)?;
    let list = listed(&causes);
    let circumstances = Circumstances {
        tried,
        given,
        stopped,
    };
    let mut text = form_text(task.alloc, task.settings, circumstances, list, verdicts)?;
    let explanations = explanations_after(task, verdicts)?;
    text.extend_from_slice(explanations.as_slice())?;
    Ok(text)
}

/// Returns the report of a task with its VCD, its counts and the attempt that it comes from. The names of what is to be
/// explained are looked up before anything is compared, so that a wrong name is refused at once and not after a long
/// run.
pub(crate) fn task_report<H: Threads + Wait + Sync, G: Monitor>(
    task: &Task<'_, H>,
    monitor: &G,
) -> Result<(ReportTexts, Outcome, Option<Attempt>), CheckFault>
    ensures report { OfTask task.now (λ input s. IfOk result
        (λ r. IsReportWithVcd input s (G.bound monitor.now) r.2 r.1 r.0.report.items (bytes_in r.0.vcd))) }
    ensures earlier_given_up { OfTask task.now (λ input s.
        IfOk result (λ r. AreGivenUpBefore input s (G.bound monitor.now) r.2)) }
    ensures answer { OfTask task.now (λ input s. IfErr result (MayAnswer input s (G.bound monitor.now))) }
    ensures fault { OfTask task.now (λ input s. IfErr result (IsReportFault input ⊥ ⊥ ⊥ s)) }
    ensures unwritten { OfTask task.now (λ input s. result ≢ Err CheckFault.Write) }
    ensures names_first { result ≢ Err CheckFault.Explain → HasTargets task.now }
{
    if !has_pairs(task.first, task.settings.explain.as_slice()) {
        return Err(CheckFault::Explain);
    }
    let (verdicts, tried) = decide(task, monitor)?;
    // After the last attempt, and not of the clock: a run whose time is over only now was not
    // stopped.
    let stopped = monitor.was_stopped();
    let report = full_text(task, tried, stopped, &verdicts)?;
    let vcd = dump(task, &verdicts)?;
    Ok((ReportTexts { report, vcd }, verdicts.outcome(), tried))
}
