//! A report as lines.
ghost use Rattle.std.specs.Prelude.{◌≡◌, ◌++◌, [], ◌∷◌, None, OnOk, codes};
ghost use Rattle.report_text.specs.Lines.{line_text, variable_text, assignment_text, bit_text, side_text, sizes_text, subject_text};
ghost use Rattle.report_text.specs.Lines.{least_text, undecided_text, share_text, counts_text};

use crate::assignment::{Assignment, is_reported, is_supported_at};
use crate::outcome::{Outcome, PairKind, Share, Side};
use crate::verdict::{Extras, Name, Verdict};
use net_names::names::Names;
use std::alloc::{AllocError, Global};

/// What a line is about: an output or a next state, and its name.
#[derive(Clone, Copy, Drop)]
struct Label<'a> {
    role: PairKind,
    name: &'a [u8],
}

/// The label of a role and a name.
fn label_of(role: PairKind, name: &Name) -> Label<'_>
    ensures role { result.role ≡ role }
    ensures name { result.name.now ≡ name.now }
{
    Label {
        role,
        name: name.as_slice(),
    }
}

/// The digit of a bit, 0 or 1.
fn bit_word(bit: bool) -> &'static [u8]
    ensures { result.now ≡ bit_text bit }
{
    if bit { b"1" } else { b"0" }
}

/// Appends a space and a variable with its bit.
fn add_variable(text: &mut Vec<u8>, name: &[u8], bit: bool) -> Result<(), AllocError>
    ensures { OnOk result (text.new.items ≡ text.old.items ++ (codes " " ++ (name.now ++ (codes "=" ++ bit_text bit)))) }
{
    text.extend_from_slice(b" ")?;
    text.extend_from_slice(name)?;
    text.extend_from_slice(b"=")?;
    text.extend_from_slice(bit_word(bit))?;
    Ok(())
}

/// Appends a variable with its bit, if it is shown.
fn add_if_reported(
    text: &mut Vec<u8>,
    which: Option<Assignment>,
    name: &[u8],
    bit: bool,
    in_support: bool,
) -> Result<(), AllocError>
    ensures { OnOk result (text.new.items ≡ text.old.items ++ variable_text which name.now bit in_support) }
{
    if is_reported(which, bit, in_support) {
        add_variable(text, name, bit)?;
    }
    Ok(())
}

/// Appends each variable that is shown, with its bit.
fn add_assignment(
    text: &mut Vec<u8>,
    which: Option<Assignment>,
    names: &Names,
    bits: &[bool],
    support_bits: &[bool],
) -> Result<(), AllocError>
    ensures { OnOk result (text.new.items ≡ text.old.items ++ assignment_text which names.now bits.now support_bits.now) }
{
    let count = bits.len().min(names.len());
    for i in 0..count {
        add_if_reported(
            text,
            which,
            names.at(i),
            bits[i],
            is_supported_at(support_bits, i),
        )?;
    }
    Ok(())
}

/// Appends a name; that of a next state has `NEXT` before it.
fn add_label(text: &mut Vec<u8>, label: Label<'_>) -> Result<(), AllocError>
    ensures { OnOk result (text.new.items ≡ text.old.items ++ subject_text label.entry.role label.entry.name.now) }
{
    match label.role {
        PairKind::Output => {}
        PairKind::NextState => text.extend_from_slice(b"NEXT ")?,
    }
    text.extend_from_slice(label.name)?;
    Ok(())
}

/// Appends the line of two equal functions.
fn add_equal(
    alloc: Global,
    text: &mut Vec<u8>,
    label: Label<'_>,
    size: Option<u64>,
) -> Result<(), AllocError>
    ensures { OnOk result (text.new.items ≡ text.old.items ++ (line_text None []
        (Verdict.Equal label.entry.role label.entry.name.now size) ++ 10 ∷ [])) }
{
    text.extend_from_slice(b"EQUAL ")?;
    add_label(text, label)?;
    if let Some(size) = size {
        let shown = format!(in alloc; " size {size}")?;
        text.extend_from_slice(shown.as_bytes())?;
    }
    text.extend_from_slice(b"\n")?;
    Ok(())
}

/// Appends the values of two functions.
fn add_values(text: &mut Vec<u8>, first: bool, second: bool) -> Result<(), AllocError>
    ensures { OnOk result (text.new.items ≡ text.old.items ++ (codes " first="
        ++ (bit_text first ++ (codes " second=" ++ bit_text second)))) }
{
    text.extend_from_slice(b" first=")?;
    text.extend_from_slice(bit_word(first))?;
    text.extend_from_slice(b" second=")?;
    text.extend_from_slice(bit_word(second))?;
    Ok(())
}

/// Appends two sizes, if sizes are asked for.
fn add_sizes(alloc: Global, text: &mut Vec<u8>, sizes: Option<(u64, u64)>) -> Result<(), AllocError>
    ensures { OnOk result (text.new.items ≡ text.old.items ++ sizes_text sizes) }
{
    if let Some((first, second)) = sizes {
        let shown = format!(in alloc; " sizes {first} {second}")?;
        text.extend_from_slice(shown.as_bytes())?;
    }
    Ok(())
}

/// What follows a difference that may not be the least.
fn least_words(least: bool) -> &'static [u8]
    ensures { result.now ≡ least_text least }
{
    if least {
        b""
    } else {
        b" (may not be the least)"
    }
}

/// A difference of two functions: an assignment by level, which of its variables are shown, the value of each function
/// there, and what is reported besides.
#[derive(Clone, Copy, Drop)]
struct ShownDifference<'a> {
    bits: &'a [bool],
    which: Option<Assignment>,
    first: bool,
    second: bool,
    extras: &'a Extras,
}

/// Appends the line of two different functions.
fn add_different(
    alloc: Global,
    text: &mut Vec<u8>,
    names: &Names,
    label: Label<'_>,
    at: ShownDifference<'_>,
) -> Result<(), AllocError>
    ensures { OnOk result (text.new.items ≡ text.old.items ++ (line_text at.entry.which names.now
        (Verdict.Differs label.entry.role label.entry.name.now at.entry.bits.now at.entry.first at.entry.second at.entry.extras.now) ++ 10
        ∷ [])) }
{
    text.extend_from_slice(b"DIFFER ")?;
    add_label(text, label)?;
    text.extend_from_slice(b" at")?;
    add_assignment(text, at.which, names, at.bits, at.extras.support_bits())?;
    add_values(text, at.first, at.second)?;
    add_sizes(alloc, text, at.extras.sizes)?;
    text.extend_from_slice(least_words(at.extras.least))?;
    text.extend_from_slice(b"\n")?;
    Ok(())
}

/// The keyword of a netlist.
fn side_word(side: Side) -> &'static [u8]
    ensures { result.now ≡ side_text side }
{
    match side {
        Side::First => b"FIRST",
        Side::Second => b"SECOND",
    }
}

/// Appends the line of an output or a register without a partner.
fn add_unmatched(text: &mut Vec<u8>, side: Side, label: Label<'_>) -> Result<(), AllocError>
    ensures { OnOk result (text.new.items ≡ text.old.items ++ (line_text None [] (Verdict.Unmatched side label.entry.role label.entry.name.now)
        ++ 10 ∷ [])) }
{
    text.extend_from_slice(b"ONLY ")?;
    text.extend_from_slice(side_word(side))?;
    text.extend_from_slice(b" ")?;
    add_label(text, label)?;
    text.extend_from_slice(b"\n")?;
    Ok(())
}

/// Appends the line of a pair that no attempt has decided.
fn add_undecided(text: &mut Vec<u8>, label: Label<'_>) -> Result<(), AllocError>
    ensures { OnOk result (text.new.items ≡ text.old.items ++ (line_text None [] (Verdict.Undecided label.entry.role label.entry.name.now)
        ++ 10 ∷ [])) }
{
    text.extend_from_slice(b"UNDECIDED ")?;
    add_label(text, label)?;
    text.extend_from_slice(b"\n")?;
    Ok(())
}

/// Appends the line of a verdict.
pub fn add_line(
    alloc: Global,
    text: &mut Vec<u8>,
    which: Option<Assignment>,
    names: &Names,
    verdict: &Verdict,
) -> Result<(), AllocError>
    ensures { OnOk result (text.new.items ≡ text.old.items ++ (line_text which names.now verdict.now ++ 10 ∷ [])) }
{
    match verdict {
        Verdict::Equal { role, name, size } => {
            add_equal(alloc, text, label_of(*role, name), *size)
        }
        Verdict::Differs {
            role,
            name,
            at,
            first,
            second,
            extras,
        } => {
            let at = ShownDifference {
                bits: at.as_slice(),
                which,
                first: *first,
                second: *second,
                extras,
            };
            add_different(alloc, text, names, label_of(*role, name), at)
        }
        Verdict::Unmatched { side, role, name } => add_unmatched(
            text,
            *side,
            label_of(*role, name),
        ),
        Verdict::Undecided { role, name } => add_undecided(text, label_of(*role, name)),
    }
}

/// Appends how many pairs are undecided, if some are.
fn add_undecided_count(alloc: Global, text: &mut Vec<u8>, undecided: u64) -> Result<(), AllocError>
    ensures { OnOk result (text.new.items ≡ text.old.items ++ undecided_text undecided) }
{
    if undecided == 0 {
        return Ok(());
    }
    let shown = format!(in alloc; ", {undecided} undecided")?;
    text.extend_from_slice(shown.as_bytes())?;
    Ok(())
}

/// Appends which share of the pairs the report is of, if it is of one.
fn add_share(alloc: Global, text: &mut Vec<u8>, share: Option<Share>) -> Result<(), AllocError>
    ensures { OnOk result (text.new.items ≡ text.old.items ++ share_text share) }
{
    let Some(share) = share else {
        return Ok(());
    };
    let Share { number, of } = share;
    let shown = format!(in alloc; ", share {number} of {of}")?;
    text.extend_from_slice(shown.as_bytes())?;
    Ok(())
}

/// Appends the last line: how many verdicts of each kind there are.
pub fn add_counts(
    alloc: Global,
    text: &mut Vec<u8>,
    share: Option<Share>,
    outcome: Outcome,
) -> Result<(), AllocError>
    ensures { OnOk result (text.new.items ≡ text.old.items ++ (counts_text share outcome ++ 10 ∷ [])) }
{
    let Outcome {
        equal,
        different,
        unmatched,
        undecided,
    } = outcome;
    let line = format!(in alloc; "{equal} equal, {different} different, {unmatched} unmatched")?;
    text.extend_from_slice(line.as_bytes())?;
    add_undecided_count(alloc, text, undecided)?;
    add_share(alloc, text, share)?;
    text.extend_from_slice(b"\n")?;
    Ok(())
}
