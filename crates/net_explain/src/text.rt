//! The lines of an explanation.
ghost use Rattle.std.specs.Prelude.{◌≡◌, ◌<◌, ◌++◌, length, All, IfOk, OnOk};
ghost use Rattle.net_explain.specs.Text.{outside_text, bit_text, explanation_text, head_text, inner_text, inners_text, gate_count_text};
ghost use Rattle.net_explain.specs.Text.{last_line_text};

use crate::differing::{InnerSignal, name_of};
use crate::explanation::{Explanation, GateCount};
use net_bench::netlist::Netlist;
use std::alloc::{AllocError, Global};

/// The digit of a bit, 0 or 1.
fn bit_word(bit: bool) -> &'static [u8]
    ensures { result.now ≡ bit_text bit }
{
    if bit { b"1" } else { b"0" }
}

/// Appends the first line.
fn add_head(
    alloc: Global,
    text: &mut Vec<u8>,
    subject: &[u8],
    count: usize,
) -> Result<(), AllocError>
    ensures { OnOk result (text.new.items ≡ text.old.items ++ head_text subject.now count) }
{
    let shown = format!(in alloc; " inner signals that differ: {count}\n")?;
    text.extend_from_slice(b"EXPLAIN ")?;
    text.extend_from_slice(subject)?;
    text.extend_from_slice(shown.as_bytes())?;
    Ok(())
}

/// Appends the line of an inner signal.
fn add_inner(
    alloc: Global,
    text: &mut Vec<u8>,
    net: &Netlist,
    inner: InnerSignal,
) -> Result<(), AllocError>
    requires { inner.first < length net.now.names }
    ensures { OnOk result (text.new.items ≡ text.old.items ++ inner_text net.now.names inner) }
{
    let InnerSignal {
        first,
        value,
        first_line,
        second_line,
        ..
    } = inner;
    let lines = format!(in alloc; " line {first_line} line {second_line}\n")?;
    text.extend_from_slice(b"  ")?;
    text.extend_from_slice(name_of(net, first))?;
    text.extend_from_slice(b" first=")?;
    text.extend_from_slice(bit_word(value))?;
    text.extend_from_slice(b" second=")?;
    text.extend_from_slice(bit_word(!value))?;
    text.extend_from_slice(lines.as_bytes())?;
    Ok(())
}

/// Appends the lines of inner signals.
fn add_inners(
    alloc: Global,
    text: &mut Vec<u8>,
    net: &Netlist,
    inner: &[InnerSignal],
) -> Result<(), AllocError>
    requires { All (λ i. i.first < length net.now.names) inner.now }
    ensures { OnOk result (text.new.items ≡ text.old.items ++ inners_text net.now.names inner.now) }
{
    for place in 0..inner.len() {
        add_inner(alloc, text, net, inner[place])?;
    }
    Ok(())
}

/// Appends how many gates, of how many, are outside.
fn add_gate_count(alloc: Global, text: &mut Vec<u8>, part: GateCount) -> Result<(), AllocError>
    ensures { OnOk result (text.new.items ≡ text.old.items ++ gate_count_text part) }
{
    let GateCount { all, outside } = part;
    let shown = format!(in alloc; "{outside} of {all}")?;
    text.extend_from_slice(shown.as_bytes())?;
    Ok(())
}

/// Appends the last line: how many gates are outside the cone of a signal.
fn add_outside_line(
    alloc: Global,
    text: &mut Vec<u8>,
    name: &[u8],
    first: GateCount,
    second: GateCount,
) -> Result<(), AllocError>
    ensures { OnOk result (text.new.items ≡ text.old.items ++ outside_text name.now first second) }
{
    text.extend_from_slice(b"  ")?;
    add_gate_count(alloc, text, first)?;
    text.extend_from_slice(b" gates in the first netlist and ")?;
    add_gate_count(alloc, text, second)?;
    text.extend_from_slice(b" in the second are outside the cone of ")?;
    text.extend_from_slice(name)?;
    text.extend_from_slice(b"\n")?;
    Ok(())
}

/// Appends the last line, if there are inner signals that differ.
fn add_last_line(
    alloc: Global,
    text: &mut Vec<u8>,
    net: &Netlist,
    inner: &[InnerSignal],
    gate_counts: Option<(GateCount, GateCount)>,
) -> Result<(), AllocError>
    requires { All (λ i. i.first < length net.now.names) inner.now }
    ensures { OnOk result (text.new.items ≡ text.old.items ++ last_line_text net.now.names inner.now gate_counts) }
{
    let Some((first, second)) = gate_counts else {
        return Ok(());
    };
    if inner.is_empty() {
        return Ok(());
    }
    add_outside_line(alloc, text, name_of(net, inner[0].first), first, second)
}

/// The lines of an explanation. The subject is that of the report's line, such as "s" or "NEXT q"; the netlist is the first of the two.
pub fn explanation_of(
    alloc: Global,
    subject: &[u8],
    first: &Netlist,
    explanation: &Explanation,
) -> Result<Vec<u8>, AllocError>
    requires { All (λ i. i.first < length first.now.names) explanation.now.inner }
    ensures { IfOk result (λ text. text.items ≡ explanation_text subject.now first.now.names explanation.now) }
{
    let mut text = Vec::new(alloc);
    let inner = explanation.inner();
    add_head(alloc, &mut text, subject, inner.len())?;
    add_inners(alloc, &mut text, first, inner)?;
    add_last_line(alloc, &mut text, first, inner, explanation.gate_counts())?;
    Ok(text)
}
