//! Reading a command line.
ghost use Rattle.std.specs.Prelude.{IfOk, IfErr, map, string_bytes};
ghost use Rattle.clap.specs.Values.{kind_of};
ghost use Rattle.clap.specs.Words.{app_of, found_of, rows_of};
ghost use Rattle.command_line.specs.Words.{IsTool, AreMatches, HaveConflict, AreOptions, AskFor, PrintsVersion, IsReportedAs, IsRefusedFor};
ghost use Rattle.command_line.specs.Words.{IsRefusal};

use crate::command::command;
use crate::conflicts::{Conflict, conflict_in};
use crate::from_matches::{BadPicks, explained_in, memory_in, options_of, picks_in};
use crate::help::HELP;
use crate::options::Options;
use crate::values::word_of;
use clap::error::ErrorKind;
use clap::{ArgMatches, Command, Error};
use std::alloc::Global;

/// The line that `--version` prints.
static VERSION_LINE: &str = "bddcheck 1.0.0\n";

/// Why a command line gives no options. Each text ends with a line feed; those of mistakes are the parser's own.
#[derive(Drop)]
pub enum Refused {
    /// `--help` or `--version` was asked for, and this is what is printed.
    Help(String),
    /// A mistake in the arguments.
    Mistake(String),
    /// An allocation was refused.
    OutOfMemory,
}

/// The answer to `--version`.
fn version(alloc: Global) -> Refused
    ensures { PrintsVersion result }
{
    match String::from_str(alloc, VERSION_LINE) {
        Ok(line) => Refused::Help(line),
        Err(_) => Refused::OutOfMemory,
    }
}

/// The answer to `--help`.
fn help(alloc: Global) -> Refused
    ensures { IsReportedAs ErrorKind.DisplayHelp result }
{
    match String::from_str(alloc, HELP) {
        Ok(text) => Refused::Help(text),
        Err(_) => Refused::OutOfMemory,
    }
}

/// The answer to an error of the parser.
fn refusal(alloc: Global, error: &Error) -> Refused
    ensures { IsReportedAs (kind_of error.now) result }
{
    if error.kind() == ErrorKind::OutOfMemory {
        return Refused::OutOfMemory;
    }
    if error.kind() == ErrorKind::DisplayVersion {
        return version(alloc);
    }
    if error.kind() == ErrorKind::DisplayHelp {
        return help(alloc);
    }
    match error.to_string(alloc) {
        Ok(text) => Refused::Mistake(text),
        Err(_) => Refused::OutOfMemory,
    }
}

/// The options that the arguments, without the program's name, ask for.
pub fn read_options<'a>(alloc: Global, words: &'a [String]) -> Result<Options<'a>, Refused>
    ensures options { IfOk result (AskFor (map string_bytes words.entry.now)) }
    ensures refused { IfErr result (IsRefusal (map string_bytes words.entry.now)) }
{
    let Ok(mut command) = command(alloc) else {
        return Err(Refused::OutOfMemory);
    };
    let matches = parsed(alloc, &mut command, words)?;
    options_in(alloc, &mut command, &matches)
}

/// The options that the matches of the parser ask for.
fn options_in<'a>(
    alloc: Global,
    command: &mut Command<'_>,
    matches: &ArgMatches<'a>,
) -> Result<Options<'a>, Refused>
    ensures options { let rows = rows_of (found_of matches.now) in IfOk result (λ o. (HaveConflict rows → ⊥) × AreOptions rows o) }
    ensures refused { IfErr result (IsRefusedFor (rows_of (found_of matches.now))) }
{
    if let Some(conflicting) = conflict_in(matches) {
        return Err(refuse_conflict(alloc, command, conflicting));
    }
    let word = word_of(matches, "memory");
    let Some(memory) = memory_in(word) else {
        return Err(bad_memory(alloc, command, word.unwrap_or("")));
    };
    let Ok(explain) = explained_in(alloc, matches) else {
        return Err(Refused::OutOfMemory);
    };
    match picks_in(alloc, matches) {
        Ok(picks) => Ok(options_of(matches, memory, picks, explain)),
        Err(BadPicks::Share) => {
            let word = word_of(matches, "share");
            Err(bad_share(alloc, command, word.unwrap_or("")))
        }
        Err(BadPicks::OutOfMemory) => Err(Refused::OutOfMemory),
    }
}

/// The matches of the parser for these arguments.
fn parsed<'a>(
    alloc: Global,
    command: &mut Command<'a>,
    words: &'a [String],
) -> Result<ArgMatches<'a>, Refused>
    requires { IsTool (app_of command.old) }
    ensures found { IfOk result (λ m. AreMatches (map string_bytes words.entry.now) (rows_of (found_of m))) }
    ensures refused { IfErr result (IsRefusal (map string_bytes words.entry.now)) }
{
    match command.try_get_matches_from_mut(words) {
        Ok(matches) => Ok(matches),
        Err(error) => Err(refusal(alloc, &error)),
    }
}

/// A mistake that the parser has not found, reported like those that it finds.
fn mistake(alloc: Global, command: &mut Command<'_>, kind: ErrorKind, message: &str) -> Refused
    ensures { IsReportedAs kind result }
{
    match command.error(kind, message) {
        Ok(error) => refusal(alloc, &error),
        Err(_) => Refused::OutOfMemory,
    }
}

/// The refusal of two arguments that exclude each other.
fn refuse_conflict(alloc: Global, command: &mut Command<'_>, conflicting: Conflict) -> Refused
    ensures { IsReportedAs ErrorKind.ArgumentConflict result }
{
    let Conflict { one, other } = conflicting;
    match format!(in alloc; "the argument '{one}' cannot be used with {other}") {
        Ok(message) => mistake(
            alloc,
            command,
            ErrorKind::ArgumentConflict,
            message.as_str(),
        ),
        Err(_) => Refused::OutOfMemory,
    }
}

/// The refusal of a memory that is no number of bytes, or too small.
fn bad_memory(alloc: Global, command: &mut Command<'_>, text: &str) -> Refused
    ensures { IsReportedAs ErrorKind.ValueValidation result }
{
    let reported = format!(in alloc;
        "invalid value '{text}' for '--memory <SIZE>': not a number of bytes from 16M on, as 536870912, 512M or 8G"
    );
    match reported {
        Ok(message) => mistake(alloc, command, ErrorKind::ValueValidation, message.as_str()),
        Err(_) => Refused::OutOfMemory,
    }
}

/// The refusal of a share that is none.
fn bad_share(alloc: Global, command: &mut Command<'_>, text: &str) -> Refused
    ensures { IsReportedAs ErrorKind.ValueValidation result }
{
    let reported = format!(in alloc;
        "invalid value '{text}' for '--share <K/N>': not K of N shares, as 3/8, with K from 1 to N, and N up to 1000000"
    );
    match reported {
        Ok(message) => mistake(alloc, command, ErrorKind::ValueValidation, message.as_str()),
        Err(_) => Refused::OutOfMemory,
    }
}
