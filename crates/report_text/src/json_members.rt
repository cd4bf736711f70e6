//! Members of a JSON object.
ghost use Rattle.std.specs.Prelude.{◌∷◌, [], decimal};
ghost use Rattle.json.specs.Token.{key, string, number};
ghost use Rattle.report_text.specs.Json.{Adds, bit_token, least_tokens, subject_tokens, size_tokens, sizes_tokens, values_tokens};

use crate::json_words::{role_name, text_of};
use crate::outcome::PairKind;
use json::Writer;
use std::alloc::AllocError;

/// Appends a member that is a string.
pub(crate) fn add_text(out: &mut Writer, name: &str, text: &str) -> Result<(), AllocError>
    ensures { Adds result out.old out.new (key name.now ∷ string text.now ∷ []) }
{
    out.key(name)?;
    out.string(text)
}

/// Appends a member that is a number.
pub(crate) fn add_number(out: &mut Writer, name: &str, n: u64) -> Result<(), AllocError>
    ensures { Adds result out.old out.new (key name.now ∷ number (decimal n) ∷ []) }
{
    out.key(name)?;
    out.u64(n)
}

/// Appends a member that is a bit, as the number 0 or 1.
pub(crate) fn add_bit(out: &mut Writer, name: &str, bit: bool) -> Result<(), AllocError>
    ensures { Adds result out.old out.new (key name.now ∷ bit_token bit ∷ []) }
{
    out.key(name)?;
    if bit { out.u64(1) } else { out.u64(0) }
}

/// Appends what a verdict is about.
pub(crate) fn add_subject(out: &mut Writer, role: PairKind, name: &[u8]) -> Result<(), AllocError>
    ensures { Adds result out.old out.new (subject_tokens role name.now) }
{
    add_text(out, "of", role_name(role))?;
    add_text(out, "name", text_of(name))
}

/// Appends a size, if sizes are asked for.
pub(crate) fn add_size(out: &mut Writer, size: Option<u64>) -> Result<(), AllocError>
    ensures { Adds result out.old out.new (size_tokens size) }
{
    match size {
        Some(size) => add_number(out, "size", size),
        None => Ok(()),
    }
}

/// Appends two sizes, if sizes are asked for.
pub(crate) fn add_sizes(out: &mut Writer, sizes: Option<(u64, u64)>) -> Result<(), AllocError>
    ensures { Adds result out.old out.new (sizes_tokens sizes) }
{
    let Some((first, second)) = sizes else {
        return Ok(());
    };
    out.key("sizes")?;
    out.begin_array()?;
    out.u64(first)?;
    out.u64(second)?;
    out.end_array()
}

/// Appends that a difference may not be the least, if this is not known.
pub(crate) fn add_least(out: &mut Writer, least: bool) -> Result<(), AllocError>
    ensures { Adds result out.old out.new (least_tokens least) }
{
    if least {
        return Ok(());
    }
    out.key("least")?;
    out.boolean(false)
}

/// Appends the values of two functions.
pub(crate) fn add_values(out: &mut Writer, first: bool, second: bool) -> Result<(), AllocError>
    ensures { Adds result out.old out.new (values_tokens first second) }
{
    add_bit(out, "first", first)?;
    add_bit(out, "second", second)
}
