//! A run by its options, over any folder, input and output.
ghost use Rattle.std.specs.Prelude.{◌≡◌, ◌≢◌, ℕ, Bool, false, List, Option, IfOk, IfErr, OnOk, OnErr, IfSome, IsTrue, Err};
ghost use Rattle.compare_built.specs.declared.fault.CheckFault.TheVariants.{Write};
ghost use Rattle.command_line.specs.declared.options.Texts.TheVariants.{Input, Files, InputAndFile, FileAndInput};
ghost use Rattle.check_tool.specs.Comparing.{IsRunOf, IsFailedRun};
ghost use Rattle.check_tool.specs.Ending.{HasProgress, shows_progress, written, written as said_by};
ghost use Rattle.check_tool.specs.Failures.{AreNamesFirst, MayFail};
ghost use Rattle.check_tool.specs.Opening.{Extends, HasFailedAt, Try, opened};
ghost use Rattle.check_tool.specs.Running.{paths_of, IsShort, IsInputFault, IsToolFault, HasReported, HasReportedFront};
ghost use Rattle.check_tool.specs.Running.{AreEarlierAttemptsGivenUp, AreOnStandardInput, bound_of};

use crate::compare::{Run, compare};
use crate::done::Done;
use crate::fault::{FileRole, ToolFault};
use crate::files::open;
use crate::folder::Folder;
use crate::progress::{MemoryMeter, Progress, form_on};
use crate::run_monitor::RunMonitor;
use crate::say::say_if_stopped;
use crate::split::split_input;
use crate::terminal::TerminalSink;
use crate::undecided::RunNotes;
use command_line::{Options, Texts};
use expand_work::Monitor;
use std::alloc::Global;
use std::rt::Clock;
use std::sync::Wait;
use std::thread::Threads;
use text_device::{InMemory, Sink, Source, TextFault, read_text};

/// The most bytes that standard input may have: two texts and the line between them.
const INPUT_LIMIT: usize = 134_221_824;

/// Returns the text of standard input.
fn read_input<R: Source>(alloc: Global, input: &mut R) -> Result<Vec<u8>, ToolFault>
    ensures text { IfOk result (λ text. IfSome (R.remaining input.old) (λ bytes. text.items ≡ bytes)) }
    ensures short { IfOk result (λ text. IsShort text.items) }
    ensures fault { IfErr result (λ fault. IsInputFault (R.remaining input.old) fault) }
    ensures read { result ≡ Err ToolFault.InputUnread → IsTrue (R.has_failed input.new) }
{
    match read_text(alloc, input, INPUT_LIMIT) {
        Ok(text) => Ok(text),
        Err(TextFault::Read) => Err(ToolFault::InputUnread),
        Err(TextFault::TooLong) => Err(ToolFault::InputTooLong),
        Err(TextFault::OutOfMemory) => Err(ToolFault::OutOfMemory),
    }
}

/// Compares two files.
fn by_files<H: AllocGlobal + Threads + Wait + Sync, F: Folder, W: Sink, G: Monitor>(
    run: &Run<'_, '_, H, G>,
    folder: &mut F,
    first: &str,
    second: &str,
    out: &mut W,
) -> Result<Done, ToolFault>
    requires bound { G.bound run.now.monitor.now ≡ bound_of run.now.options.now }
    requires texts { run.now.options.now.texts ≡ Files first second }
    ensures report { (input : Option (List ℕ)) → IfOk result
        (IsRunOf (F.bytes_at folder.old) input run.now.options.now (F.tries folder.old) (F.tries folder.new)
        (written W.contents W.has_failed W.has_stopped out.old out.new)) }
    ensures fault { (input : Option (List ℕ)) (input_failed : Bool)
        → IfErr result (IsFailedRun (F.bytes_at folder.old) (HasFailedAt F.File.origin F.File.has_failed)
        (IsTrue input_failed) input run.now.options.now (F.tries folder.old) (F.tries folder.new)
        (written W.contents W.has_failed W.has_stopped out.old out.new)) }
    ensures files_unchanged { F.bytes_at folder.new ≡ F.bytes_at folder.old }
    ensures unsaved { F.saves folder.new ≡ F.saves folder.old }
    ensures untouched { OnErr result (result ≢ Err (ToolFault.Check Write) → out.new ≡ out.old) }
    ensures written { OnOk result ((W.has_failed out.new ≡ W.has_failed out.old) × (W.has_stopped out.new ≡ W.has_stopped out.old)) }
{
    let mut first = open(folder, first, FileRole::First)?;
    let mut second = open(folder, second, FileRole::Second)?;
    compare(run, folder, &mut first, &mut second, out)
}

/// Compares the input, as the first text, with a file.
fn by_input_and_file<
    H: AllocGlobal + Threads + Wait + Sync,
    F: Folder,
    R: Source,
    W: Sink,
    G: Monitor,
>(
    run: &Run<'_, '_, H, G>,
    folder: &mut F,
    input: &mut R,
    path: &str,
    out: &mut W,
) -> Result<Done, ToolFault>
    requires bound { G.bound run.now.monitor.now ≡ bound_of run.now.options.now }
    requires texts { run.now.options.now.texts ≡ InputAndFile path }
    ensures report { IfOk result (IsRunOf (F.bytes_at folder.old) (R.remaining input.old) run.now.options.now (F.tries folder.old)
        (F.tries folder.new) (written W.contents W.has_failed W.has_stopped out.old out.new)) }
    ensures fault { IfErr result (IsFailedRun (F.bytes_at folder.old) (HasFailedAt F.File.origin F.File.has_failed)
        (IsTrue (R.has_failed input.new)) (R.remaining input.old) run.now.options.now (F.tries folder.old) (F.tries folder.new)
        (written W.contents W.has_failed W.has_stopped out.old out.new)) }
    ensures files_unchanged { F.bytes_at folder.new ≡ F.bytes_at folder.old }
    ensures unsaved { F.saves folder.new ≡ F.saves folder.old }
    ensures untouched { OnErr result (result ≢ Err (ToolFault.Check Write) → out.new ≡ out.old) }
    ensures written { OnOk result ((W.has_failed out.new ≡ W.has_failed out.old) × (W.has_stopped out.new ≡ W.has_stopped out.old)) }
{
    let mut file = open(folder, path, FileRole::Second)?;
    compare(run, folder, input, &mut file, out)
}

/// Compares a file, as the first text, with the input.
fn by_file_and_input<
    H: AllocGlobal + Threads + Wait + Sync,
    F: Folder,
    R: Source,
    W: Sink,
    G: Monitor,
>(
    run: &Run<'_, '_, H, G>,
    folder: &mut F,
    path: &str,
    input: &mut R,
    out: &mut W,
) -> Result<Done, ToolFault>
    requires bound { G.bound run.now.monitor.now ≡ bound_of run.now.options.now }
    requires texts { run.now.options.now.texts ≡ FileAndInput path }
    ensures report { IfOk result (IsRunOf (F.bytes_at folder.old) (R.remaining input.old) run.now.options.now (F.tries folder.old)
        (F.tries folder.new) (written W.contents W.has_failed W.has_stopped out.old out.new)) }
    ensures fault { IfErr result (IsFailedRun (F.bytes_at folder.old) (HasFailedAt F.File.origin F.File.has_failed)
        (IsTrue (R.has_failed input.new)) (R.remaining input.old) run.now.options.now (F.tries folder.old) (F.tries folder.new)
        (written W.contents W.has_failed W.has_stopped out.old out.new)) }
    ensures files_unchanged { F.bytes_at folder.new ≡ F.bytes_at folder.old }
    ensures unsaved { F.saves folder.new ≡ F.saves folder.old }
    ensures untouched { OnErr result (result ≢ Err (ToolFault.Check Write) → out.new ≡ out.old) }
    ensures written { OnOk result ((W.has_failed out.new ≡ W.has_failed out.old) × (W.has_stopped out.new ≡ W.has_stopped out.old)) }
{
    let mut file = open(folder, path, FileRole::First)?;
    compare(run, folder, &mut file, input, out)
}

/// Compares the two texts of the input, which a line `%%` divides.
fn by_input<H: AllocGlobal + Threads + Wait + Sync, F: Folder, R: Source, W: Sink, G: Monitor>(
    run: &Run<'_, '_, H, G>,
    folder: &mut F,
    input: &mut R,
    out: &mut W,
) -> Result<Done, ToolFault>
    requires bound { G.bound run.now.monitor.now ≡ bound_of run.now.options.now }
    requires texts { run.now.options.now.texts ≡ Input }
    ensures report { IfOk result (IsRunOf (F.bytes_at folder.old) (R.remaining input.old) run.now.options.now (F.tries folder.old)
        (F.tries folder.new) (written W.contents W.has_failed W.has_stopped out.old out.new)) }
    ensures fault { IfErr result (IsFailedRun (F.bytes_at folder.old) (HasFailedAt F.File.origin F.File.has_failed)
        (IsTrue (R.has_failed input.new)) (R.remaining input.old) run.now.options.now (F.tries folder.old) (F.tries folder.new)
        (written W.contents W.has_failed W.has_stopped out.old out.new)) }
    ensures files_unchanged { F.bytes_at folder.new ≡ F.bytes_at folder.old }
    ensures unsaved { F.saves folder.new ≡ F.saves folder.old }
    ensures untouched { OnErr result (result ≢ Err (ToolFault.Check Write) → out.new ≡ out.old) }
    ensures written { OnOk result ((W.has_failed out.new ≡ W.has_failed out.old) × (W.has_stopped out.new ≡ W.has_stopped out.old)) }
{
    let text = read_input(run.rt.alloc(), input)?;
    let Some((one, two)) = split_input(text.as_slice()) else {
        return Err(ToolFault::InputUndivided);
    };
    let mut first = InMemory::new(one);
    let mut second = InMemory::new(two);
    compare(run, folder, &mut first, &mut second, out)
}

/// Compares the texts that the options name, as `run_options` does, with this monitor.
fn run_by<H: AllocGlobal + Threads + Wait + Sync, F: Folder, R: Source, W: Sink, G: Monitor>(
    run: &Run<'_, '_, H, G>,
    folder: &mut F,
    input: &mut R,
    out: &mut W,
) -> Result<Done, ToolFault>
    requires bound { G.bound run.now.monitor.now ≡ bound_of run.now.options.now }
    ensures report { IfOk result (IsRunOf (F.bytes_at folder.old) (R.remaining input.old) run.now.options.now (F.tries folder.old)
        (F.tries folder.new) (written W.contents W.has_failed W.has_stopped out.old out.new)) }
    ensures fault { IfErr result (IsFailedRun (F.bytes_at folder.old) (HasFailedAt F.File.origin F.File.has_failed)
        (IsTrue (R.has_failed input.new)) (R.remaining input.old) run.now.options.now (F.tries folder.old) (F.tries folder.new)
        (written W.contents W.has_failed W.has_stopped out.old out.new)) }
    ensures files_unchanged { F.bytes_at folder.new ≡ F.bytes_at folder.old }
    ensures unsaved { F.saves folder.new ≡ F.saves folder.old }
    ensures untouched { OnErr result (result ≢ Err (ToolFault.Check Write) → out.new ≡ out.old) }
    ensures input_unread { (AreOnStandardInput run.now.options.now.texts → ⊥) → input.new ≡ input.old }
    ensures written { OnOk result ((W.has_failed out.new ≡ W.has_failed out.old) × (W.has_stopped out.new ≡ W.has_stopped out.old)) }
{
    match run.options.texts {
        Texts::One => Err(ToolFault::OneFile),
        Texts::InputTwice => Err(ToolFault::InputTwice),
        Texts::Files(first, second) => by_files(run, folder, first, second, out),
        Texts::InputAndFile(path) => by_input_and_file(run, folder, input, path, out),
        Texts::FileAndInput(path) => by_file_and_input(run, folder, path, input, out),
        Texts::Input => by_input(run, folder, input, out),
    }
}

/// A run that is to be made: its runtime, its options, and the notes that are taken during it.
#[derive(Drop)]
pub struct RunPlan<'a, 'o, H> {
    pub rt: &'a H,
    pub options: &'a Options<'o>,
    /// The notes from which the cause of undecided pairs is found after the run.
    pub notes: &'a RunNotes,
}

/// Compares the texts that the options name: two files, a file and the input, or the two texts of the input. The files
/// are opened in this sequence: FIRST, SECOND, the condition, the pairs, the order. If both texts are on the input, it
/// is read and divided before any file is opened.
///
/// Fails with the first fault that it meets. Only with `CheckFault::Write` was a part of the report written.
pub fn run_options<
    'a,
    'e,
    H: AllocGlobal + Clock + MemoryMeter + Threads + Wait + Sync,
    F: Folder,
    R: Source,
    W: Sink,
    E: TerminalSink + Send,
>(
    plan: &RunPlan<'a, '_, H>,
    folder: &mut F,
    input: &mut R,
    out: &mut W,
    errors: &'e mut E,
) -> Result<Done, ToolFault>
    // What was written is the report of the two texts, for the assignments at which the condition holds, in the order
    // that the options ask for, or of each selected pair by its cones; or it is this order. Nothing else was written.
    ensures report { IfOk result (HasReported (F.bytes_at folder.old) (R.remaining input.old) plan.now.options.now (W.contents out.old)
        (W.contents out.new)) }
    // Then each file that the options name was opened in the folder, in the stated sequence, and no other file.
    ensures opened { OnOk result (Extends (F.tries folder.old) (F.tries folder.new) (opened (paths_of plan.now.options.now))) }
    ensures files_unchanged { F.bytes_at folder.new ≡ F.bytes_at folder.old }
    ensures unsaved { F.saves folder.new ≡ F.saves folder.old }
    // Each attempt within a smaller budget than that of the reported one was given up, and within the first budget each
    // attempt before it.
    ensures earlier_given_up { IfOk result (AreEarlierAttemptsGivenUp (F.bytes_at folder.old) (R.remaining input.old) plan.now.options.now) }
    // The table of faults allows the fault: for example, the limit is refused only if it is too low, and a name only if
    // it is unknown.
    ensures may { IfErr result (MayFail (F.bytes_at folder.old) (IsTrue (R.has_failed input.new)) (R.remaining input.old) plan.now.options.now) }
    // The names of what is to be explained are looked up before anything is compared: with a fault that is found later,
    // each of them is known.
    ensures names_first { IfErr result (AreNamesFirst (F.bytes_at folder.old) (R.remaining input.old) plan.now.options.now) }
    // A fault has its cause, everything that is examined before it was accepted, and no file was tried after it.
    ensures fault { IfErr result (λ fault. (tries : List Try) × Extends (F.tries folder.old) (F.tries folder.new) tries
        × IsToolFault (F.bytes_at folder.old) (HasFailedAt F.File.origin F.File.has_failed) (IsTrue (R.has_failed input.new))
        (R.remaining input.old) plan.now.options.now tries fault) }
    // If writing has failed, a front part of the report was written, and the device has failed or has taken nothing of
    // the rest.
    ensures unwritten { result ≡ Err (ToolFault.Check Write)
        → HasReportedFront (F.bytes_at folder.old) (R.remaining input.old) plan.now.options.now (W.contents out.old) (W.contents out.new)
        (W.has_failed out.new) (W.has_stopped out.new) }
    // With any other fault nothing was written.
    ensures untouched { OnErr result (result ≢ Err (ToolFault.Check Write) → out.new ≡ out.old) }
    // An output that took the whole report has not failed.
    ensures written { OnOk result ((W.has_failed out.new ≡ W.has_failed out.old) × (W.has_stopped out.new ≡ W.has_stopped out.old)) }
    // The input is read only if a text is on it.
    ensures input_unread { (AreOnStandardInput plan.now.options.now.texts → ⊥) → input.new ≡ input.old }
    // Before the run ends, nothing is printed on standard error if neither `--verbose` nor `--seconds` is given and
    // standard error is no terminal. Otherwise progress may be printed, and that the run was stopped.
    ensures silent { shows_progress plan.now.options.now (E.on_terminal errors.old) ≡ false → errors.new ≡ errors.old }
    ensures progress { HasProgress (shows_progress plan.now.options.now (E.on_terminal errors.old))
        (said_by E.contents E.has_failed E.has_stopped errors.old errors.new) }
{
    let rt = plan.rt;
    let options = plan.options;
    let notes = plan.notes;
    let alloc = rt.alloc();
    let Some(form) = form_on(options.verbose, errors) else {
        let monitor: RunMonitor<'a, 'e, H, E> = RunMonitor::new(rt, notes, options.seconds, None);
        let run = Run {
            rt,
            options,
            monitor: &monitor,
        };
        let result = run_by(&run, folder, input, out);
        let stopped = monitor.was_stopped();
        notes.note_end(rt, stopped);
        say_if_stopped(alloc, options.seconds, stopped, errors);
        return result;
    };
    let progress = Progress::new(rt, alloc, form, &mut *errors);
    let monitor = RunMonitor::new(rt, notes, options.seconds, Some(progress));
    let run = Run {
        rt,
        options,
        monitor: &monitor,
    };
    let ended = run_by(&run, folder, input, out);
    let stopped = monitor.was_stopped();
    monitor.end();
    notes.note_end(rt, stopped);
    say_if_stopped(alloc, options.seconds, stopped, errors);
    ended
}
