//! Texts on standard error.
ghost use Rattle.std.specs.Prelude.{◌≡◌, IfOk, IfSome, true, false, flat_map, is_some, string_bytes};
ghost use Rattle.check_tool.specs.Ending.{written, Says, stop_line, stop_unit};

use check_report::write_whole;
use itoa::Buffer;
use std::alloc::{AllocError, Global};
use text_device::Sink;

/// Writes a text, as far as the device takes it. A failure is ignored, since there is no other place to report it.
pub(crate) fn say<E: Sink>(errors: &mut E, text: &[u8])
    ensures { Says (written E.contents E.has_failed E.has_stopped errors.old errors.new) text.now }
{
    let _ = write_whole(errors, text);
}

fn joined(alloc: Global, parts: &[&str]) -> Result<String, AllocError>
    ensures { IfOk result (λ text. string_bytes text ≡ flat_map (λ p. p.now) parts.now) }
{
    let mut text = String::new(alloc);
    for part in parts {
        text.push_str(part)?;
    }
    Ok(text)
}

/// Writes the parts of a text one after the other, as far as the device takes them.
fn say_each<E: Sink>(errors: &mut E, parts: &[&str])
    ensures { Says (written E.contents E.has_failed E.has_stopped errors.old errors.new) (flat_map (λ p. p.now) parts.now) }
{
    for part in parts {
        match write_whole(errors, part.as_bytes()) {
            Ok(()) => {}
            Err(_) => return,
        }
    }
}

/// Writes the text that these parts make: with one write, so that no other output comes between them, or part by part
/// if there is no memory for the whole text.
pub(crate) fn say_parts<E: Sink>(alloc: Global, errors: &mut E, parts: &[&str])
    ensures { Says (written E.contents E.has_failed E.has_stopped errors.old errors.new) (flat_map (λ p. p.now) parts.now) }
{
    match joined(alloc, parts) {
        Ok(text) => say(errors, text.as_bytes()),
        Err(_) => say_each(errors, parts),
    }
}

/// Returns the end of the line for a run that was stopped after this number of seconds.
fn unit_of(seconds: u64) -> &'static str
    ensures { result.now ≡ stop_unit seconds }
{
    if seconds == 1 {
        " second\n"
    } else {
        " seconds\n"
    }
}

/// Prints that the run was stopped after this number of seconds.
fn say_stop<E: Sink>(alloc: Global, seconds: u64, errors: &mut E)
    ensures { Says (written E.contents E.has_failed E.has_stopped errors.old errors.new) (stop_line seconds) }
{
    let mut buffer = Buffer::new();
    let parts = [
        "bddcheck: stopped after ",
        buffer.format(seconds),
        unit_of(seconds),
    ];
    say_parts(alloc, errors, &parts);
}

/// Prints that the run was stopped, and after how many seconds, if it was.
pub(crate) fn say_if_stopped<E: Sink>(
    alloc: Global,
    seconds: Option<u64>,
    stopped: bool,
    errors: &mut E,
)
    ensures silent { is_some seconds ≡ false → errors.new ≡ errors.old }
    ensures kept { stopped ≡ false → errors.new ≡ errors.old }
    ensures said { stopped ≡ true → IfSome seconds (λ n.
        Says (written E.contents E.has_failed E.has_stopped errors.old errors.new) (stop_line n)) }
{
    if !stopped {
        return;
    }
    let Some(seconds) = seconds else {
        return;
    };
    say_stop(alloc, seconds, errors);
}
