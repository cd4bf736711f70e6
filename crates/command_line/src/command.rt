//! The command of the program, as the parser clap is given it.
ghost use Rattle.std.specs.Prelude.{◌≡◌, IfOk};
ghost use Rattle.clap.specs.Words.{app_of};
ghost use Rattle.command_line.specs.Words.{bare_app, IsTool};

use crate::arguments::{
    assignment, causes, difference, explain, extend, first, format, given, limit, matching, memory,
    only, order, order_file, pairs, print_order, second, seconds, share, sizes, vcd, verbose,
    workers,
};
use clap::Command;
use std::alloc::{AllocError, Global};

/// The command without arguments.
fn bare<'a>(alloc: Global) -> Command<'a>
    ensures { app_of result ≡ bare_app }
{
    // Clap accepts `--version` only if a command has a version. Its text is not used: `reading::version` prints the line.
    Command::new(alloc, "bddcheck")
        .no_binary_name(true)
        .version("")
}

/// The command of this program, with all its arguments.
pub fn command<'a>(alloc: Global) -> Result<Command<'a>, AllocError>
    ensures { IfOk result (λ c. IsTool (app_of c)) }
{
    let command = bare(alloc)
        .arg(matching(alloc))?
        .arg(order(alloc))?
        .arg(order_file(alloc))?
        .arg(extend(alloc))?
        .arg(given(alloc))?
        .arg(only(alloc))?
        .arg(share(alloc))?
        .arg(explain(alloc))?;
    let command = command
        .arg(vcd(alloc))?
        .arg(workers(alloc))?
        .arg(limit(alloc))?
        .arg(memory(alloc))?
        .arg(seconds(alloc))?
        .arg(sizes(alloc))?
        .arg(print_order(alloc))?;
    let command = command
        .arg(format(alloc))?
        .arg(assignment(alloc))?
        .arg(causes(alloc))?
        .arg(difference(alloc))?
        .arg(verbose(alloc))?
        .arg(pairs(alloc))?
        .arg(first(alloc))?
        .arg(second(alloc))?;
    Ok(command)
}
