//! The causes of a comparison as an array of JSON objects.
ghost use Rattle.std.specs.Prelude.{◌∷◌, [], codes, option_map};
ghost use Rattle.report_text.specs.Json.{Adds, array_tokens, cause_members, caused_tokens, causes_tokens, lines_tokens, pairs_tokens};

use crate::cause::{Cause, PairName};
use crate::json_members::{add_subject, add_text};
use crate::json_words::text_of;
use json::Writer;
use std::alloc::AllocError;

/// Appends the object of a pair.
fn add_pair(out: &mut Writer, pair: &PairName) -> Result<(), AllocError>
    ensures { Adds result out.old out.new (pairs_tokens (pair.now ∷ [])) }
{
    out.begin_object()?;
    add_subject(out, pair.role, pair.name.as_slice())?;
    out.end_object()
}

/// Appends the objects of pairs.
fn add_each_pair(out: &mut Writer, pairs: &[PairName]) -> Result<(), AllocError>
    ensures { Adds result out.old out.new (pairs_tokens pairs.now) }
{
    for pair in pairs {
        add_pair(out, pair)?;
    }
    Ok(())
}

/// Appends the pairs of a cause.
fn add_pairs(out: &mut Writer, pairs: &[PairName]) -> Result<(), AllocError>
    ensures { Adds result out.old out.new (array_tokens (codes "pairs") (pairs_tokens pairs.now)) }
{
    out.key("pairs")?;
    out.begin_array()?;
    add_each_pair(out, pairs)?;
    out.end_array()
}

/// Appends the lines of two gates.
fn add_lines(out: &mut Writer, lines: (u32, u32)) -> Result<(), AllocError>
    ensures { Adds result out.old out.new (lines_tokens lines.0 lines.1) }
{
    let (first, second) = lines;
    out.key("lines")?;
    out.begin_array()?;
    out.u64(u64::from(first))?;
    out.u64(u64::from(second))?;
    out.end_array()
}

/// Appends the members of a cause.
fn add_members(out: &mut Writer, cause: &Cause) -> Result<(), AllocError>
    ensures { Adds result out.old out.new (cause_members cause.now) }
{
    add_text(out, "signal", text_of(cause.signal()))?;
    add_lines(out, cause.lines())?;
    add_pairs(out, cause.pairs())
}

/// Appends the object of a cause.
fn add_cause(out: &mut Writer, cause: &Cause) -> Result<(), AllocError>
    ensures { Adds result out.old out.new (caused_tokens (cause.now ∷ [])) }
{
    out.begin_object()?;
    add_members(out, cause)?;
    out.end_object()
}

/// Appends the objects of causes.
fn add_each(out: &mut Writer, causes: &[Cause]) -> Result<(), AllocError>
    ensures { Adds result out.old out.new (caused_tokens causes.now) }
{
    for cause in causes {
        add_cause(out, cause)?;
    }
    Ok(())
}

/// Appends the causes, if they are asked for.
pub(crate) fn add_causes(out: &mut Writer, causes: Option<&[Cause]>) -> Result<(), AllocError>
    ensures { Adds result out.old out.new (causes_tokens (option_map (λ c. c.now) causes.entry)) }
{
    let Some(causes) = causes else {
        return Ok(());
    };
    out.key("causes")?;
    out.begin_array()?;
    add_each(out, causes)?;
    out.end_array()
}
