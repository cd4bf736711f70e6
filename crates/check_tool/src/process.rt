//! A run over the arguments, the files and the devices of a process.
ghost use Rattle.std.specs.Prelude.{◌≡◌, ◌≤◌, ◌⊎◌, true, IsOkAnd, MatchResult, drop, map, string_bytes};
ghost use Rattle.check_tool.specs.Ending.{written, run_effects_of, AskForMore, IsRun, IsArgumentsErrorSaid, LeaveUndecided};
ghost use Rattle.check_tool.specs.Opening.{HasFailedAt};

use crate::fault::ToolFault;
use crate::folder::Folder;
use crate::progress::MemoryMeter;
use crate::say::say;
use crate::terminal::TerminalSink;
use crate::tool::{refuse, run_tool};
use std::alloc::Global;
use std::io;
use std::rt::{Clock, Env};
use std::sync::Wait;
use std::thread::Threads;
use text_device::{Sink, Source};

/// Why the arguments of a process could not be read.
#[derive(Clone, Copy, Drop, Debug, PartialEq, Eq)]
pub enum ArgumentsError {
    /// Memory was refused.
    OutOfMemory,
    /// An argument is not UTF-8.
    NotUtf8,
}

/// Returns the arguments of a process, the program's name first.
pub fn arguments<H: Env + AllocGlobal>(rt: &H) -> Result<Vec<String>, ArgumentsError> {
    match std::env::args(rt) {
        Ok(words) => words
            .collect(rt.alloc())
            .map_err(|_| ArgumentsError::OutOfMemory),
        Err(error) if error.kind() == io::ErrorKind::OutOfMemory => Err(
            ArgumentsError::OutOfMemory,
        ),
        Err(_) => Err(ArgumentsError::NotUtf8),
    }
}

/// Returns the arguments without the first, which is the program's name.
fn after_name(words: &[String]) -> &[String]
    ensures { result.now ≡ drop 1 words.now }
{
    match words {
        [] => &[],
        [_, following @ ..] => following,
    }
}

/// Prints why there are no arguments, and returns the status.
fn refuse_without_arguments<E: Sink>(alloc: Global, why: ArgumentsError, errors: &mut E) -> u8
    ensures reported { IsArgumentsErrorSaid (written E.contents E.has_failed E.has_stopped errors.old errors.new) why result }
    ensures bound { result ≤ 3 }
    ensures refused { 2 ≤ result }
{
    match why {
        ArgumentsError::OutOfMemory => refuse(alloc, ToolFault::OutOfMemory, errors),
        ArgumentsError::NotUtf8 => {
            say(
                errors,
                b"bddcheck: a word of the command line is no UTF-8\n",
            );
            2
        }
    }
}

/// Runs the program on the arguments and the devices of a process, and returns its exit status.
pub fn status_of<
    H: AllocGlobal + Clock + MemoryMeter + Threads + Wait + Sync,
    F: Folder,
    R: Source,
    W: Sink,
    E: TerminalSink + Send,
>(
    rt: &H,
    arguments: Result<Vec<String>, ArgumentsError>,
    folder: &mut F,
    input: &mut R,
    out: &mut W,
    errors: &mut E,
) -> u8
    // The program runs on the arguments after its name. If they could not be read, that is printed.
    ensures ending { let effects = run_effects_of (E.on_terminal errors.old) F.bytes_at F.tries F.saves folder.old folder.new R.remaining R.has_failed
        input.old input.new
        (written W.contents W.has_failed W.has_stopped out.old out.new)
        (written E.contents E.has_failed E.has_stopped errors.old errors.new) in
        MatchResult arguments
        (λ all. IsRun (HasFailedAt F.File.origin F.File.has_failed) effects (folder.new ≡ folder.old) (input.new ≡ input.old)
        (map string_bytes (drop 1 all.items)) result)
        (λ why. IsArgumentsErrorSaid effects.errors why result × (out.new ≡ out.old) × (folder.new ≡ folder.old) × (input.new ≡ input.old)) }
    ensures bound { result ≤ 3 }
    // With status 2 nothing was written. With status 0 or 1 nothing was printed on standard error, unless `--verbose`
    // or `--seconds` is given, standard error is a terminal, or a pair is undecided.
    ensures untouched { result ≡ 2 → out.new ≡ out.old }
    ensures silent { let effects = run_effects_of (E.on_terminal errors.old) F.bytes_at F.tries F.saves folder.old folder.new R.remaining R.has_failed
        input.old input.new
        (written W.contents W.has_failed W.has_stopped out.old out.new)
        (written E.contents E.has_failed E.has_stopped errors.old errors.new) in
        IsOkAnd arguments (λ all. AskForMore (map string_bytes (drop 1 all.items))) ⊎ (E.on_terminal errors.old ≡ true)
        ⊎ (result ≤ 1 → IsOkAnd arguments (λ all. LeaveUndecided effects (map string_bytes (drop 1 all.items))) ⊎ (errors.new ≡ errors.old)) }
{
    match arguments {
        Ok(words) => run_tool(rt, after_name(words.as_slice()), folder, input, out, errors),
        Err(why) => refuse_without_arguments(rt.alloc(), why, errors),
    }
}
