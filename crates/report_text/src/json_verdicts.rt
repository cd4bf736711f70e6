//! The verdicts of a comparison as an array of JSON objects.
ghost use Rattle.std.specs.Prelude.{◌≡◌, ◌∷◌, [], ◌++◌, IfOk, codes};
ghost use Rattle.json.specs.Token.{begin_object, end_object, key};
ghost use Rattle.report_text.specs.Json.{Adds, variable_tokens, assignment_tokens, numbers_tokens, buses_in, buses_tokens, verdict_members};
ghost use Rattle.report_text.specs.Json.{verdicts_tokens, array_tokens};

use crate::assignment::{Assignment, is_reported, is_supported_at};
use crate::buses::{Bus, buses_of, hex_of};
use crate::json_members::{
    add_bit, add_least, add_size, add_sizes, add_subject, add_text, add_values,
};
use crate::json_words::{side_name, text_of};
use crate::verdict::Verdict;
use json::Writer;
use net_names::names::Names;
use std::alloc::{AllocError, Global};

/// How assignments are written: the variables by level, which of them are shown, and their buses if `which` is given.
#[derive(Clone, Copy, Drop)]
struct AssignmentLayout<'a> {
    names: &'a Names,
    which: Option<Assignment>,
    buses: &'a [Bus],
}

/// Appends a variable with its bit, if it is shown.
fn add_variable(
    out: &mut Writer,
    which: Option<Assignment>,
    name: &[u8],
    bit: bool,
    in_support: bool,
) -> Result<(), AllocError>
    ensures { Adds result out.old out.new (variable_tokens which name.now bit in_support) }
{
    if is_reported(which, bit, in_support) {
        return add_bit(out, text_of(name), bit);
    }
    Ok(())
}

/// Appends each variable that is shown, with its bit.
fn add_assignment(
    out: &mut Writer,
    which: Option<Assignment>,
    names: &Names,
    bits: &[bool],
    support_bits: &[bool],
) -> Result<(), AllocError>
    ensures { Adds result out.old out.new (assignment_tokens which names.now bits.now support_bits.now) }
{
    let count = bits.len().min(names.len());
    for i in 0..count {
        add_variable(
            out,
            which,
            names.at(i),
            bits[i],
            is_supported_at(support_bits, i),
        )?;
    }
    Ok(())
}

/// Appends a bus with its number.
fn add_number_of(
    alloc: Global,
    out: &mut Writer,
    bus: &Bus,
    bits: &[bool],
) -> Result<(), AllocError>
    ensures { Adds result out.old out.new (numbers_tokens bits.now (bus.now ∷ [])) }
{
    let number = hex_of(alloc, bus, bits)?;
    add_text(out, text_of(bus.name()), number.as_str())
}

/// Appends each bus with its number.
fn add_numbers(
    alloc: Global,
    out: &mut Writer,
    buses: &[Bus],
    bits: &[bool],
) -> Result<(), AllocError>
    ensures { Adds result out.old out.new (numbers_tokens bits.now buses.now) }
{
    for bus in buses {
        add_number_of(alloc, out, bus, bits)?;
    }
    Ok(())
}

/// Appends an object of buses with their numbers.
fn add_numbered(
    alloc: Global,
    out: &mut Writer,
    buses: &[Bus],
    bits: &[bool],
) -> Result<(), AllocError>
    ensures { Adds result out.old out.new (key (codes "buses") ∷ begin_object ∷ (numbers_tokens bits.now buses.now ++ end_object ∷ [])) }
{
    out.key("buses")?;
    out.begin_object()?;
    add_numbers(alloc, out, buses, bits)?;
    out.end_object()
}

/// Appends the numbers of the buses, if `which` is given.
fn add_buses(
    alloc: Global,
    out: &mut Writer,
    layout: &AssignmentLayout<'_>,
    bits: &[bool],
) -> Result<(), AllocError>
    ensures { Adds result out.old out.new (buses_tokens layout.now.which layout.now.buses.now bits.now) }
{
    match layout.which {
        Some(_) => add_numbered(alloc, out, layout.buses, bits),
        None => Ok(()),
    }
}

/// Appends the assignment at which two functions differ.
fn add_difference(
    out: &mut Writer,
    layout: &AssignmentLayout<'_>,
    bits: &[bool],
    support_bits: &[bool],
) -> Result<(), AllocError>
    ensures { Adds result out.old out.new (key (codes "at") ∷ begin_object
        ∷ (assignment_tokens layout.now.which layout.now.names.now bits.now support_bits.now ++ end_object ∷ [])) }
{
    out.key("at")?;
    out.begin_object()?;
    add_assignment(out, layout.which, layout.names, bits, support_bits)?;
    out.end_object()
}

/// Appends the members of a verdict.
fn add_members(
    alloc: Global,
    out: &mut Writer,
    layout: &AssignmentLayout<'_>,
    verdict: &Verdict,
) -> Result<(), AllocError>
    requires { layout.now.buses.now ≡ buses_in layout.now.which layout.now.names.now }
    ensures { Adds result out.old out.new (verdict_members layout.now.which layout.now.names.now verdict.now) }
{
    match verdict {
        Verdict::Equal { role, name, size } => {
            add_text(out, "verdict", "EQUAL")?;
            add_subject(out, *role, name.as_slice())?;
            add_size(out, *size)
        }
        Verdict::Differs {
            role,
            name,
            at,
            first,
            second,
            extras,
        } => {
            add_text(out, "verdict", "DIFFER")?;
            add_subject(out, *role, name.as_slice())?;
            add_difference(out, layout, at.as_slice(), extras.support_bits())?;
            add_buses(alloc, out, layout, at.as_slice())?;
            add_values(out, *first, *second)?;
            add_sizes(out, extras.sizes)?;
            add_least(out, extras.least)
        }
        Verdict::Unmatched { side, role, name } => {
            add_text(out, "verdict", "ONLY")?;
            add_text(out, "side", side_name(*side))?;
            add_subject(out, *role, name.as_slice())
        }
        Verdict::Undecided { role, name } => {
            add_text(out, "verdict", "UNDECIDED")?;
            add_subject(out, *role, name.as_slice())
        }
    }
}

/// Appends the object of a verdict.
fn add_verdict(
    alloc: Global,
    out: &mut Writer,
    layout: &AssignmentLayout<'_>,
    verdict: &Verdict,
) -> Result<(), AllocError>
    requires { layout.now.buses.now ≡ buses_in layout.now.which layout.now.names.now }
    ensures { Adds result out.old out.new (verdicts_tokens layout.now.which layout.now.names.now (verdict.now ∷ [])) }
{
    out.begin_object()?;
    add_members(alloc, out, layout, verdict)?;
    out.end_object()
}

/// Appends the objects of verdicts.
fn add_verdicts(
    alloc: Global,
    out: &mut Writer,
    layout: &AssignmentLayout<'_>,
    verdicts: &[Verdict],
) -> Result<(), AllocError>
    requires { layout.now.buses.now ≡ buses_in layout.now.which layout.now.names.now }
    ensures { Adds result out.old out.new (verdicts_tokens layout.now.which layout.now.names.now verdicts.now) }
{
    for verdict in verdicts {
        add_verdict(alloc, out, layout, verdict)?;
    }
    Ok(())
}

/// The buses of the variables, if `which` is given; otherwise none.
fn buses_in(alloc: Global, which: Option<Assignment>, names: &Names) -> Result<Vec<Bus>, AllocError>
    ensures { IfOk result (λ buses. buses.items ≡ buses_in which names.now) }
{
    match which {
        Some(_) => buses_of(alloc, names),
        None => Ok(Vec::new(alloc)),
    }
}

/// Appends the array of the verdicts.
pub(crate) fn add_judged(
    alloc: Global,
    out: &mut Writer,
    which: Option<Assignment>,
    names: &Names,
    verdicts: &[Verdict],
) -> Result<(), AllocError>
    ensures { Adds result out.old out.new (array_tokens (codes "verdicts") (verdicts_tokens which names.now verdicts.now)) }
{
    let buses = buses_in(alloc, which, names)?;
    let layout = AssignmentLayout {
        names,
        which,
        buses: buses.as_slice(),
    };
    out.key("verdicts")?;
    out.begin_array()?;
    add_verdicts(alloc, out, &layout, verdicts)?;
    out.end_array()
}
