//! The comparison of what two readers hold, as verdicts or as a written report. Here and in
//! `listing` texts are read and written. What is called with a `Task` has netlists only, so its
//! contracts know of no device: they speak, by `OfTask`, of all texts that give these netlists.
ghost use Rattle.std.specs.Prelude.{◌≡◌, ◌≢◌, ℕ, List, Option, IfOk, IfErr, OnOk, OnErr, IsTrue, Err};
ghost use Rattle.std.specs.Io.KnownBytes.{Appends};
ghost use Rattle.report_text.specs.declared.outcome.Outcome.{Outcome};
ghost use Rattle.compare_built.specs.Findings.{found_of};
ghost use Rattle.report_text.specs.Writing.{AppendsFront};
ghost use Rattle.compare_built.specs.declared.strategy.Attempt.{Attempt as AttemptValue};
ghost use Rattle.compare_built.specs.Devices.{HasFailedIn, device_text, device_texts};
ghost use Rattle.explain_report.specs.Deciding.{IsReportBy};
ghost use Rattle.explain_report.specs.Dumping.{Bytes, IsReportWithVcd, bytes_in};
ghost use Rattle.explain_report.specs.Explaining.{AreTargetsKnown, IsAfterNames, IsReportFault};
ghost use Rattle.check_report.specs.Decisions.{AreGivenUpBefore, IsDecision, IsNoDecision};
ghost use Rattle.check_report.specs.Refusals.{MayAnswer};

use crate::decision::decide;
use crate::full_report::{ReportTexts, task_report};
use crate::lone_variables::notify_lone_variables;
use crate::reading::read_netlists;
use compare_built::fault::CheckFault;
use compare_built::found::Verdicts;
use compare_built::strategy::Attempt;
use compare_built::task::Context;
use expand_work::Monitor;
use report_text::{Outcome, write_whole};
use std::sync::Wait;
use std::thread::Threads;
use text_device::{Sink, Source};

/// Reads two netlists, and a condition if there is one, and compares their outputs and the next states of their
/// registers at the assignments at which the condition holds. The order of the variables is the one that the settings
/// name, or is searched for. Returns the verdicts, and the attempt that found them if several orders were tried. The
/// diagrams of the gates are built by as many threads as the settings have workers.
///
/// Fails with the first cause in the order of `CheckFault`, but never with `CheckFault::Write`.
pub fn judge<H: Threads + Wait + Sync, R1: Source, R2: Source, R3: Source, G: Monitor>(
    context: &Context<'_, H, G>,
    first: &mut R1,
    second: &mut R2,
    given: &mut Option<R3>,
) -> Result<(Verdicts, Option<Attempt>), CheckFault>
    // The verdicts are those of what was read, in an order that the settings allow, or of each pair by its cones. Two
    // outputs, or the next states of two registers, are Equal exactly if their functions agree at each assignment at
    // which the condition holds. The nodes that are needed in this order are within the limit, and within the budget of
    // the attempt. A pair is Undecided only if no pattern shows that it differs, and its cones have more variables than
    // a pairing can have, or each attempt at them was given up. A difference that may not be the least is reported only
    // in the same two cases, or if any difference is asked for. Each attempt within a smaller budget than that of the
    // reported one was given up, and within the first budget each attempt before it. If the monitor may stop the run,
    // an attempt may also be given up because the run was stopped.
    ensures decision { let input = device_texts (R1.remaining first.old) (R2.remaining second.old) (device_text R3.remaining given.old) in
        let s = context.now.settings.now in
        IfOk result (λ r. IsDecision input s (G.bound context.now.monitor.now) (found_of r.0) r.1) }
    // A fault has its cause, everything that is examined before it was accepted, and the table of faults allows it.
    ensures no_decision { let input = device_texts (R1.remaining first.old) (R2.remaining second.old) (device_text R3.remaining given.old) in
        let s = context.now.settings.now in
        IfErr result (IsNoDecision input (IsTrue (R1.has_failed first.new)) (IsTrue (R2.has_failed second.new))
        (HasFailedIn R3.has_failed given.new) s (G.bound context.now.monitor.now)) }
    // Each device is still the one of its path, so that a failure can be said of a file.
    ensures origins { (R1.origin first.new ≡ R1.origin first.old) × (R2.origin second.new ≡ R2.origin second.old)
        × (device_text R3.origin given.new ≡ device_text R3.origin given.old) }
{
    let netlists = read_netlists(context.alloc, first, second, given)?;
    let task = netlists.task(context.rt, context.alloc, context.settings);
    notify_lone_variables(&task, context.monitor);
    decide(&task, context.monitor)
}

/// Returns the report of what is read, with its VCD, its counts and the attempt that it comes from.
/// It has no device to write to, so whatever fails here has written nothing.
fn reported<H: Threads + Wait + Sync, R1: Source, R2: Source, R3: Source, G: Monitor>(
    context: &Context<'_, H, G>,
    first: &mut R1,
    second: &mut R2,
    given: &mut Option<R3>,
) -> Result<(ReportTexts, Outcome, Option<Attempt>), CheckFault>
    ensures report { let input = device_texts (R1.remaining first.old) (R2.remaining second.old) (device_text R3.remaining given.old) in
        let s = context.now.settings.now in
        IfOk result (λ r. IsReportWithVcd input s (G.bound context.now.monitor.now) r.2 r.1 r.0.report.items (bytes_in r.0.vcd)) }
    ensures earlier_given_up { let input = device_texts (R1.remaining first.old) (R2.remaining second.old) (device_text R3.remaining given.old) in
        let s = context.now.settings.now in
        IfOk result (λ r. AreGivenUpBefore input s (G.bound context.now.monitor.now) r.2) }
    ensures answer { let input = device_texts (R1.remaining first.old) (R2.remaining second.old) (device_text R3.remaining given.old) in
        let s = context.now.settings.now in
        IfErr result (MayAnswer input s (G.bound context.now.monitor.now)) }
    ensures fault { let input = device_texts (R1.remaining first.old) (R2.remaining second.old) (device_text R3.remaining given.old) in
        let s = context.now.settings.now in
        IfErr result (IsReportFault input (IsTrue (R1.has_failed first.new)) (IsTrue (R2.has_failed second.new))
        (HasFailedIn R3.has_failed given.new) s) }
    ensures unwritten { result ≢ Err CheckFault.Write }
    ensures names_known { let input = device_texts (R1.remaining first.old) (R2.remaining second.old) (device_text R3.remaining given.old) in
        let s = context.now.settings.now in
        IfOk result (λ r. AreTargetsKnown input s.explain.items) }
    ensures names_first { let input = device_texts (R1.remaining first.old) (R2.remaining second.old) (device_text R3.remaining given.old) in
        let s = context.now.settings.now in
        IfErr result (λ fault. IsAfterNames fault → AreTargetsKnown input s.explain.items) }
    ensures origins { (R1.origin first.new ≡ R1.origin first.old) × (R2.origin second.new ≡ R2.origin second.old)
        × (device_text R3.origin given.new ≡ device_text R3.origin given.old) }
{
    let netlists = read_netlists(context.alloc, first, second, given)?;
    let task = netlists.task(context.rt, context.alloc, context.settings);
    notify_lone_variables(&task, context.monitor);
    task_report(&task, context.monitor)
}

/// Compares two netlists as `judge` does, and writes the report, and after it the explanations of
/// the pairs that are to be explained. Nothing is written before the whole report is in memory.
/// Returns the counts of the report, the attempt that it comes from if several orders were tried,
/// and the VCD of the first pair that differs, if the settings ask for one and a pair differs. The
/// caller writes the VCD, since it has the file.
///
/// Fails as `judge` does; with `CheckFault::Explain` if the first netlist lacks a name that is to be explained, and
/// with `CheckFault::Write` if the report could not be written, or only a part of it.
pub fn check<H: Threads + Wait + Sync, R1: Source, R2: Source, R3: Source, G: Monitor, W: Sink>(
    context: &Context<'_, H, G>,
    first: &mut R1,
    second: &mut R2,
    given: &mut Option<R3>,
    out: &mut W,
) -> Result<(Outcome, Option<Attempt>, Option<Vec<u8>>), CheckFault>
    // What was written is the report of what was read, in an order that the settings allow, or of each pair by its
    // cones, and nothing else. In it two outputs, or the next states of two registers, are EQUAL exactly if their
    // functions agree at each assignment at which the condition holds. The nodes that are needed in this order are
    // within the limit, and within the budget of the attempt. A pair is UNDECIDED only if no pattern shows that it
    // differs, and its cones have more variables than a pairing can have, or each attempt at them was given up. A
    // difference that may not be the least is reported only in the same two cases, or if any difference is asked for.
    // If the monitor may stop the run, an attempt may also be given up because the run was stopped.
    ensures report { let input = device_texts (R1.remaining first.old) (R2.remaining second.old) (device_text R3.remaining given.old) in
        let s = context.now.settings.now in
        IfOk result (λ r. (bytes : List ℕ) × IsReportBy input s (G.bound context.now.monitor.now) r.1 r.0 bytes
        × Appends (W.contents out.old) (W.contents out.new) bytes) }
    // The VCD is that of the first pair that differs in this report, at its assignment. There is none if none is asked
    // for, or no pair differs.
    ensures vcd { let input = device_texts (R1.remaining first.old) (R2.remaining second.old) (device_text R3.remaining given.old) in
        let s = context.now.settings.now in
        IfOk result (λ r. (bytes : List ℕ) × IsReportWithVcd input s (G.bound context.now.monitor.now) r.1 r.0 bytes (bytes_in r.2)
        × Appends (W.contents out.old) (W.contents out.new) bytes) }
    // Each attempt within a smaller budget than that of the reported one was given up, and within the first budget each
    // attempt before it.
    ensures earlier_given_up { let input = device_texts (R1.remaining first.old) (R2.remaining second.old) (device_text R3.remaining given.old) in
        let s = context.now.settings.now in
        IfOk result (λ r. AreGivenUpBefore input s (G.bound context.now.monitor.now) r.1) }
    // The table of faults allows the fault: for example, the limit is refused only if each order needs more nodes, and
    // a name only if it is unknown.
    ensures answer { let input = device_texts (R1.remaining first.old) (R2.remaining second.old) (device_text R3.remaining given.old) in
        let s = context.now.settings.now in
        IfErr result (MayAnswer input s (G.bound context.now.monitor.now)) }
    // A fault has its cause, and everything that is examined before it was accepted. An explanation is refused only if
    // the first netlist has no such output or register.
    ensures fault { let input = device_texts (R1.remaining first.old) (R2.remaining second.old) (device_text R3.remaining given.old) in
        let s = context.now.settings.now in
        IfErr result (IsReportFault input (IsTrue (R1.has_failed first.new)) (IsTrue (R2.has_failed second.new))
        (HasFailedIn R3.has_failed given.new) s) }
    // The names of what is to be explained are looked up before anything is compared: with a fault that is found later,
    // each of them is known.
    ensures names_first { let input = device_texts (R1.remaining first.old) (R2.remaining second.old) (device_text R3.remaining given.old) in
        let s = context.now.settings.now in
        IfErr result (λ fault. IsAfterNames fault → AreTargetsKnown input s.explain.items) }
    // If writing has failed, a front part of the report was written, and the device has failed or has taken nothing of
    // the rest.
    ensures unwritten { let input = device_texts (R1.remaining first.old) (R2.remaining second.old) (device_text R3.remaining given.old) in
        let s = context.now.settings.now in
        result ≡ Err CheckFault.Write → (o : Outcome) × (tried : Option AttemptValue) × (bytes : List ℕ) × (vcd : Option Bytes)
        × IsReportWithVcd input s (G.bound context.now.monitor.now) tried o bytes (bytes_in vcd)
        × AppendsFront (W.contents out.old) (W.contents out.new) (W.has_failed out.new) (W.has_stopped out.new) bytes }
    // With any other fault nothing was written.
    ensures untouched { OnErr result (result ≢ Err CheckFault.Write → out.new ≡ out.old) }
    // A writer that took the whole report has not failed, and took some bytes at each write.
    ensures written { OnOk result ((W.has_failed out.new ≡ W.has_failed out.old) × (W.has_stopped out.new ≡ W.has_stopped out.old)) }
    ensures origins { (R1.origin first.new ≡ R1.origin first.old) × (R2.origin second.new ≡ R2.origin second.old)
        × (device_text R3.origin given.new ≡ device_text R3.origin given.old) }
{
    let (texts, outcome, tried) = reported(context, first, second, given)?;
    let ReportTexts { report, vcd } = texts;
    match write_whole(out, report.as_slice()) {
        Ok(()) => Ok((outcome, tried, vcd)),
        Err(_) => Err(CheckFault::Write),
    }
}
