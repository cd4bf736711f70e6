//! A run of the program: from its arguments, its folder and its devices to its exit status.
ghost use Rattle.std.specs.Prelude.{◌≡◌, ◌≢◌, ◌≤◌, ◌⊎◌, ℕ, List, true, false, IfOk, map, string_bytes};
ghost use Rattle.check_tool.specs.Faults.{number_text};
ghost use Rattle.check_tool.specs.Ending.{written, run_effects_of, IsSaid, MaySay, IsSaidOf, AskForMore, shows_progress, IsReportStatus};
ghost use Rattle.check_tool.specs.Ending.{IsDoneStatus, Finishes, FailsToSave, IsEnding, IsRun, IsEndOfRefused, LeavesUndecided, LeaveUndecided, undecided_of};
ghost use Rattle.check_tool.specs.declared.fault.ToolFault.{ToolFault as FaultValue};
ghost use Rattle.check_tool.specs.Running.{AreOnStandardInput};
ghost use Rattle.check_tool.specs.Helping.{IsHelp, refused_paths};
ghost use Rattle.check_tool.specs.Opening.{HasFailedAt, OpensAgain};

use crate::done::Done;
use crate::fault::{ToolFault, status_of_fault, words_of};
use crate::folder::Folder;
use crate::help::{help_of, help_with};
use crate::progress::MemoryMeter;
use crate::quote::quote;
use crate::run::{RunPlan, run_options};
use crate::saving::save;
use crate::say::{say, say_parts};
use crate::terminal::TerminalSink;
use crate::undecided::{RunNotes, UndecidedCause};
use crate::verbose::say_done;
use check_report::{Outcome, write_whole};
use command_line::{Options, Refused, read_options};
use itoa::Buffer;
use std::alloc::{AllocError, Global};
use std::rt::Clock;
use std::sync::Wait;
use std::thread::Threads;
use text_device::{Sink, Source};

/// Returns a number as it is printed, and an empty text if there is none.
fn digits(buffer: &mut Buffer, number: Option<u32>) -> &str
    ensures { result.now ≡ number_text number }
{
    match number {
        Some(number) => buffer.format(number),
        None => "",
    }
}

/// Prints the line of a fault, and returns its exit status.
pub fn refuse<E: Sink>(alloc: Global, fault: ToolFault, errors: &mut E) -> u8
    ensures said { IsSaid (written E.contents E.has_failed E.has_stopped errors.old errors.new) fault result }
    ensures bound { result ≤ 3 }
{
    let words = words_of(fault);
    let mut buffer = Buffer::new();
    let number = digits(&mut buffer, words.number);
    let parts = [
        "bddcheck: ",
        words.place,
        words.before,
        number,
        words.following,
        "\n",
    ];
    say_parts(alloc, errors, &parts);
    status_of_fault(fault)
}

/// Returns the line of what helps against a fault, with the refused line or name if it can be shown.
fn help_line<F: Folder>(
    alloc: Global,
    folder: &mut F,
    options: &Options<'_>,
    fault: ToolFault,
) -> Result<String, AllocError>
    ensures line { IfOk result (λ line. IsHelp (F.bytes_at folder.old) options.now fault (string_bytes line)) }
    ensures tried { OpensAgain (F.tries folder.old) (F.tries folder.new) (refused_paths options.now fault) }
    ensures unsaved { F.saves folder.new ≡ F.saves folder.old }
{
    match quote(alloc, folder, options, fault) {
        Some(quoted) if !quoted.is_empty() => help_with(alloc, options, fault, quoted.as_str()),
        _ => help_of(alloc, options, fault),
    }
}

/// Prints what helps against a fault, if there is memory for it.
fn help<F: Folder, E: Sink>(
    alloc: Global,
    folder: &mut F,
    options: &Options<'_>,
    fault: ToolFault,
    errors: &mut E,
)
    ensures said { (line : List ℕ) × IsHelp (F.bytes_at folder.old) options.now fault line
        × MaySay (written E.contents E.has_failed E.has_stopped errors.old errors.new) line }
    ensures tried { OpensAgain (F.tries folder.old) (F.tries folder.new) (refused_paths options.now fault) }
    ensures unsaved { F.saves folder.new ≡ F.saves folder.old }
{
    if let Ok(line) = help_line(alloc, folder, options, fault) {
        say(errors, line.as_bytes());
    }
}

/// Prints the line of a fault and the line of what helps, and returns the exit status.
fn refuse_run<F: Folder, E: Sink>(
    alloc: Global,
    folder: &mut F,
    options: &Options<'_>,
    fault: ToolFault,
    errors: &mut E,
) -> u8
    ensures said { IsSaidOf (F.bytes_at folder.old) options.now
        (written E.contents E.has_failed E.has_stopped errors.old errors.new) fault result }
    ensures tried { OpensAgain (F.tries folder.old) (F.tries folder.new) (refused_paths options.now fault) }
    ensures unsaved { F.saves folder.new ≡ F.saves folder.old }
    ensures bound { result ≤ 3 }
    ensures refused { 2 ≤ result }
{
    let status = refuse(alloc, fault, errors);
    help(alloc, folder, options, fault, errors);
    status
}

/// Prints why the arguments were refused, or the help that they ask for, and returns the exit status: 0 for help, 2 for
/// a mistake.
#[tactic(auto, using(crate::proofs::Composing::keeps_own))]
fn refuse_arguments<W: Sink, E: Sink>(
    alloc: Global,
    refused: &Refused,
    out: &mut W,
    errors: &mut E,
) -> u8
    ensures ending { IsEndOfRefused (written W.contents W.has_failed W.has_stopped out.old out.new)
        (written E.contents E.has_failed E.has_stopped errors.old errors.new) refused.now result }
    ensures bound { result ≤ 3 }
    ensures untouched { result ≡ 2 → out.new ≡ out.old }
    ensures silent { result ≤ 1 → errors.new ≡ errors.old }
{
    match refused {
        Refused::Help(text) => match write_whole(out, text.as_bytes()) {
            Ok(()) => 0,
            Err(_) => 3,
        },
        Refused::Mistake(text) => {
            say(errors, text.as_bytes());
            2
        }
        Refused::OutOfMemory => refuse(alloc, ToolFault::OutOfMemory, errors),
    }
}

/// Returns the exit status of a comparison: 0 if all outputs and next states have partners and are equal, 1 if some
/// differ or have no partner, and 3 if none does but some are undecided.
fn status_of(outcome: Outcome) -> u8
    ensures { IsReportStatus outcome result }
{
    if outcome.different > 0 || outcome.unmatched > 0 {
        1
    } else if outcome.undecided > 0 {
        3
    } else {
        0
    }
}

/// Returns the exit status of a run that was not refused.
fn status_of_done(done: &Done) -> u8
    ensures status { IsDoneStatus done.now result }
    ensures bound { (result ≤ 3) × (result ≢ 2) }
{
    match done {
        Done::Compared(outcome, ..) => status_of(*outcome),
        Done::OrderPrinted(_) => 0,
    }
}

/// Saves the VCD of a run, prints what has decided if `--verbose` is given, and why pairs are undecided if some are,
/// and returns the exit status.
fn finish<F: Folder, E: Sink>(
    alloc: Global,
    folder: &mut F,
    options: &Options<'_>,
    cause: UndecidedCause,
    done: &Done,
    errors: &mut E,
) -> u8
    ensures ending { let w = written E.contents E.has_failed E.has_stopped errors.old errors.new in
        Finishes options.now cause done.now (F.tries folder.old) (F.tries folder.new) (F.saves folder.old) (F.saves folder.new) w result
        ⊎ ((fault : FaultValue) × FailsToSave (F.bytes_at folder.old) options.now done.now (F.tries folder.old) (F.tries folder.new)
        (F.saves folder.old) (F.saves folder.new) w fault result) }
    ensures bound { result ≤ 3 }
    ensures reported { result ≢ 2 }
    ensures silent { options.now.verbose ≡ false → undecided_of done.now ≡ 0 → result ≤ 1 → errors.new ≡ errors.old }
{
    match save(folder, options, done) {
        Ok(()) => {
            say_done(alloc, options, cause, done, errors);
            status_of_done(done)
        }
        Err(fault) => refuse_run(alloc, folder, options, fault, errors),
    }
}

/// Runs what the options ask for, and returns the exit status.
fn run_with_options<
    H: AllocGlobal + Clock + MemoryMeter + Threads + Wait + Sync,
    F: Folder,
    R: Source,
    W: Sink,
    E: TerminalSink + Send,
>(rt: &H, options: &Options<'_>, folder: &mut F, input: &mut R, out: &mut W, errors: &mut E) -> u8
    ensures ending { let effects = run_effects_of (E.on_terminal errors.old) F.bytes_at F.tries F.saves folder.old folder.new R.remaining R.has_failed
        input.old input.new
        (written W.contents W.has_failed W.has_stopped out.old out.new)
        (written E.contents E.has_failed E.has_stopped errors.old errors.new) in
        IsEnding (HasFailedAt F.File.origin F.File.has_failed) effects options.now result }
    ensures input_unread { (AreOnStandardInput options.now.texts → ⊥) → input.new ≡ input.old }
    ensures bound { result ≤ 3 }
    ensures untouched { result ≡ 2 → out.new ≡ out.old }
    ensures silent { let effects = run_effects_of (E.on_terminal errors.old) F.bytes_at F.tries F.saves folder.old folder.new R.remaining R.has_failed
        input.old input.new
        (written W.contents W.has_failed W.has_stopped out.old out.new)
        (written E.contents E.has_failed E.has_stopped errors.old errors.new) in
        shows_progress options.now (E.on_terminal errors.old) ≡ false → result ≤ 1 → LeavesUndecided effects options.now ⊎ (errors.new ≡ errors.old) }
{
    let alloc = rt.alloc();
    let notes = RunNotes::new();
    let plan = RunPlan {
        rt,
        options,
        notes: &notes,
    };
    match run_options(&plan, folder, input, out, errors) {
        Ok(done) => {
            let cause = notes.cause(rt, options.seconds.is_some());
            finish(alloc, folder, options, cause, &done, errors)
        }
        Err(fault) => refuse_run(alloc, folder, options, fault, errors),
    }
}

/// Runs the program on its arguments, and returns its exit status, which docs/bddcheck.1 lists.
pub fn run_tool<
    H: AllocGlobal + Clock + MemoryMeter + Threads + Wait + Sync,
    F: Folder,
    R: Source,
    W: Sink,
    E: TerminalSink + Send,
>(rt: &H, words: &[String], folder: &mut F, input: &mut R, out: &mut W, errors: &mut E) -> u8
    // Either the arguments ask for options. Then the run ends with their report, or their order, and its status; or
    // with the line and the status of a fault that has its cause, and after it the line of what helps, which is left
    // out only if there is no memory for it. The input is read only if a text is on it. The VCD of the first pair that
    // differs is saved after the report in the file that they name, and nothing else is saved. Or the arguments are
    // refused for a cause: then no file is opened, nothing is read, and help, a mistake or want of memory is printed.
    ensures ending { let effects = run_effects_of (E.on_terminal errors.old) F.bytes_at F.tries F.saves folder.old folder.new R.remaining R.has_failed
        input.old input.new
        (written W.contents W.has_failed W.has_stopped out.old out.new)
        (written E.contents E.has_failed E.has_stopped errors.old errors.new) in
        IsRun (HasFailedAt F.File.origin F.File.has_failed) effects (folder.new ≡ folder.old) (input.new ≡ input.old)
        (map string_bytes words.now) result }
    ensures bound { result ≤ 3 }
    // With status 2 nothing was written. With status 0 or 1 nothing was printed on standard error, unless `--verbose`
    // or `--seconds` is given, standard error is a terminal, or a pair is undecided.
    ensures untouched { result ≡ 2 → out.new ≡ out.old }
    ensures silent { let effects = run_effects_of (E.on_terminal errors.old) F.bytes_at F.tries F.saves folder.old folder.new R.remaining R.has_failed
        input.old input.new
        (written W.contents W.has_failed W.has_stopped out.old out.new)
        (written E.contents E.has_failed E.has_stopped errors.old errors.new) in
        AskForMore (map string_bytes words.now) ⊎ (E.on_terminal errors.old ≡ true)
        ⊎ (result ≤ 1 → LeaveUndecided effects (map string_bytes words.now) ⊎ (errors.new ≡ errors.old)) }
{
    let alloc = rt.alloc();
    match read_options(alloc, words) {
        Ok(options) => run_with_options(rt, &options, folder, input, out, errors),
        Err(refused) => refuse_arguments(alloc, &refused, out, errors),
    }
}
