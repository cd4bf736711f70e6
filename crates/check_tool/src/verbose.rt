//! What is printed on standard error after a report: what has decided, if `--verbose` is given, and why pairs are
//! undecided.
ghost use Rattle.std.specs.Prelude.{◌≡◌, true, false};
ghost use Rattle.check_tool.specs.Ending.{written, Says, IsAttemptSaid, IsMethodSaid, IsUndecidedSaid, IsDecisionSaid, IsDoneSaid};
ghost use Rattle.check_tool.specs.Ending.{after_wide, before_wide, given_up_line, larger_option, plain_cause_line, undecided_of};
ghost use Rattle.check_tool.specs.Faults.{number_text};
ghost use Rattle.check_tool.specs.Running.{limit_of};

use crate::done::Done;
use crate::say::{say, say_parts};
use crate::settings::{NODE_BYTES, limit_of};
use crate::undecided::UndecidedCause;
use check_report::{Attempt, cone_limit};
use command_line::{Options, OrderChoice};
use itoa::Buffer;
use std::alloc::Global;
use text_device::Sink;

/// Prints which attempt a run ended with, if there is one.
fn say_attempt<E: Sink>(alloc: Global, tried: Option<Attempt>, errors: &mut E)
    ensures { IsAttemptSaid tried (written E.contents E.has_failed E.has_stopped errors.old errors.new) }
{
    let Some(attempt) = tried else {
        return;
    };
    let mut buffer = Buffer::new();
    let parts = [
        "bddcheck: order ",
        attempt.order.name(),
        " decided within ",
        buffer.format(attempt.budget),
        " nodes\n",
    ];
    say_parts(alloc, errors, &parts);
}

/// Prints what has decided if an order was to be found: an attempt, or the cones of the pairs.
fn say_method<E: Sink>(
    alloc: Global,
    choice: OrderChoice<'_>,
    tried: Option<Attempt>,
    errors: &mut E,
)
    ensures { IsMethodSaid choice.entry tried (written E.contents E.has_failed E.has_stopped errors.old errors.new) }
{
    match (choice, tried) {
        (OrderChoice::Auto, None)
        | (OrderChoice::Cones, None)
        | (OrderChoice::ConesByList(_), None)
        | (OrderChoice::Merge, None) => {
            say(errors, b"bddcheck: each pair was judged by its cones\n");
        }
        _ => say_attempt(alloc, tried, errors),
    }
}

/// Returns the option that allows more nodes: the one that bounds them now.
fn larger_option(options: &Options<'_>) -> &'static str
    ensures { result.now ≡ larger_option options.now }
{
    if options.limit < options.memory / NODE_BYTES {
        "--limit"
    } else {
        "--memory"
    }
}

/// Returns a number as it is printed, and an empty text if there is none.
fn digits(buffer: &mut Buffer, number: Option<u64>) -> &str
    ensures { result.now ≡ number_text number }
{
    match number {
        Some(number) => buffer.format(number),
        None => "",
    }
}

/// Returns the words before the number of pairs that have too many variables, if some have, or before the statement of
/// all pairs.
fn before_wide(wide: Option<u64>) -> &'static str
    ensures { result.now ≡ before_wide wide }
{
    match wide {
        Some(_) => "; the number of those with more than 4096 variables is ",
        None => "; none",
    }
}

/// Returns the words after this number.
fn after_wide(wide: Option<u64>) -> &'static str
    ensures { result.now ≡ after_wide wide }
{
    match wide {
        Some(_) => "; no other",
        None => "",
    }
}

/// Prints the bounds within which attempts were given up, and what helps. `wide` is the number of pairs that have too
/// many variables, if some have; the others have at most `variables` variables.
fn say_given_up<E: Sink>(
    alloc: Global,
    options: &Options<'_>,
    undecided: u64,
    wide: Option<u64>,
    variables: u64,
    errors: &mut E,
)
    ensures { Says (written E.contents E.has_failed E.has_stopped errors.old errors.new) (given_up_line options.now undecided wide variables) }
{
    let mut pairs = Buffer::new();
    let mut wide_pairs = Buffer::new();
    let mut most = Buffer::new();
    let mut nodes = Buffer::new();
    let parts = [
        "bddcheck: the number of undecided pairs is ",
        pairs.format(undecided),
        before_wide(wide),
        digits(&mut wide_pairs, wide),
        after_wide(wide),
        " has more than ",
        most.format(variables),
        " variables, and each was given up in three orders within ",
        nodes.format(cone_limit(limit_of(options))),
        " nodes or two requests for each of them; a larger ",
        larger_option(options),
        ", a list by --order-file, or a condition by --given may help\n",
    ];
    say_parts(alloc, errors, &parts);
}

/// Prints how many pairs are undecided, and a cause without numbers.
fn say_plain_cause<E: Sink>(alloc: Global, undecided: u64, cause: &'static str, errors: &mut E)
    ensures { Says (written E.contents E.has_failed E.has_stopped errors.old errors.new) (plain_cause_line undecided cause.now) }
{
    let mut pairs = Buffer::new();
    let parts = [
        "bddcheck: the number of undecided pairs is ",
        pairs.format(undecided),
        cause,
    ];
    say_parts(alloc, errors, &parts);
}

/// Prints how many pairs are undecided, why, and what helps, if some are.
fn say_undecided<E: Sink>(
    alloc: Global,
    options: &Options<'_>,
    cause: UndecidedCause,
    undecided: u64,
    errors: &mut E,
)
    ensures said { IsUndecidedSaid options.now cause undecided
        (written E.contents E.has_failed E.has_stopped errors.old errors.new) }
    ensures silent { undecided ≡ 0 → errors.new ≡ errors.old }
{
    if undecided == 0 {
        return;
    }
    match cause {
        UndecidedCause::Stopped => say_plain_cause(
            alloc,
            undecided,
            "; the run was stopped before all attempts had their end, and more --seconds may be enough\n",
            errors,
        ),
        UndecidedCause::Wide => say_plain_cause(
            alloc,
            undecided,
            "; each has more than 4096 variables, and parts of the netlists that have fewer may be compared\n",
            errors,
        ),
        UndecidedCause::GivenUp { variables } => {
            say_given_up(alloc, options, undecided, None, variables, errors)
        }
        UndecidedCause::Both { wide, variables } => {
            say_given_up(alloc, options, undecided, Some(wide), variables, errors)
        }
    }
}

/// Prints what has decided.
fn say_decision<E: Sink>(alloc: Global, options: &Options<'_>, done: &Done, errors: &mut E)
    ensures { IsDecisionSaid true options.now done.now (written E.contents E.has_failed E.has_stopped errors.old errors.new) }
{
    match done {
        Done::Compared(_, tried, _) => say_method(alloc, options.order, *tried, errors),
        Done::OrderPrinted(tried) => say_attempt(alloc, *tried, errors),
    }
}

/// Prints what has decided, if `--verbose` is given.
fn say_if_verbose<E: Sink>(alloc: Global, options: &Options<'_>, done: &Done, errors: &mut E)
    ensures said { IsDecisionSaid options.now.verbose options.now done.now
        (written E.contents E.has_failed E.has_stopped errors.old errors.new) }
    ensures silent { options.now.verbose ≡ false → errors.new ≡ errors.old }
{
    if options.verbose {
        say_decision(alloc, options, done, errors);
    }
}

/// Returns how many pairs a run has left undecided.
fn undecided_of(done: &Done) -> u64
    ensures { result ≡ undecided_of done.now }
{
    match done {
        Done::Compared(outcome, ..) => outcome.undecided,
        Done::OrderPrinted(_) => 0,
    }
}

/// Prints what has decided, if `--verbose` is given, and why pairs are undecided, if some are.
pub(crate) fn say_done<E: Sink>(
    alloc: Global,
    options: &Options<'_>,
    cause: UndecidedCause,
    done: &Done,
    errors: &mut E,
)
    ensures said { IsDoneSaid options.now cause done.now (written E.contents E.has_failed E.has_stopped errors.old errors.new) }
    ensures silent { options.now.verbose ≡ false → undecided_of done.now ≡ 0 → errors.new ≡ errors.old }
{
    say_if_verbose(alloc, options, done, errors);
    say_undecided(alloc, options, cause, undecided_of(done), errors);
}
