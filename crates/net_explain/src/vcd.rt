//! The values of two netlists as a VCD (value change dump, IEEE 1364).
ghost use Rattle.std.specs.Prelude.{◌≡◌, ◌<◌, ◌≤◌, ◌+◌, ◌++◌, length, IfOk, OnOk};
ghost use Rattle.net_explain.specs.Vcd.{change_text, changes_text, code, scope_text, var_text, vars_text, vcd_text};

use crate::differing::name_of;
use net_bench::netlist::{Netlist, Signal};
use std::alloc::{AllocError, Global};

/// The number of bytes that identifiers are made of: the printable ones from '!' to '~'.
const GLYPHS: usize = 94;

/// Appends the identifier of a number.
fn add_code(text: &mut Vec<u8>, number: usize) -> Result<(), AllocError>
    ensures { OnOk result (text.new.items ≡ text.old.items ++ code number) }
{
    let mut left = number;
    while left >= GLYPHS {
        text.push(b'!' + (left % GLYPHS) as u8)?;
        left = left / GLYPHS - 1;
    }
    text.push(b'!' + (left % GLYPHS) as u8)?;
    Ok(())
}

/// Appends the declaration of a signal with its identifier.
fn add_var(text: &mut Vec<u8>, number: usize, name: &[u8]) -> Result<(), AllocError>
    ensures { OnOk result (text.new.items ≡ text.old.items ++ var_text number name.now) }
{
    text.extend_from_slice(b"$var wire 1 ")?;
    add_code(text, number)?;
    text.extend_from_slice(b" ")?;
    text.extend_from_slice(name)?;
    text.extend_from_slice(b" $end\n")?;
    Ok(())
}

/// Appends the declarations of a netlist's signals, with identifiers from this number on.
fn add_vars(text: &mut Vec<u8>, number: usize, net: &Netlist) -> Result<(), AllocError>
    requires { number ≤ 1000000 }
    ensures { OnOk result (text.new.items ≡ text.old.items ++ vars_text number net.now.names) }
{
    for place in 0..net.count() {
        add_var(text, number + place, name_of(net, Signal::of(place as u32)))?;
    }
    Ok(())
}

/// Appends the scope of a netlist.
fn add_scope(
    text: &mut Vec<u8>,
    scope: &[u8],
    number: usize,
    net: &Netlist,
) -> Result<(), AllocError>
    requires { number ≤ 1000000 }
    ensures { OnOk result (text.new.items ≡ text.old.items ++ scope_text scope.now number net.now.names) }
{
    text.extend_from_slice(b"$scope module ")?;
    text.extend_from_slice(scope)?;
    text.extend_from_slice(b" $end\n")?;
    add_vars(text, number, net)?;
    text.extend_from_slice(b"$upscope $end\n")?;
    Ok(())
}

/// Appends the value of a signal.
fn add_change(text: &mut Vec<u8>, number: usize, bit: bool) -> Result<(), AllocError>
    ensures { OnOk result (text.new.items ≡ text.old.items ++ change_text number bit) }
{
    text.push(if bit { b'1' } else { b'0' })?;
    add_code(text, number)?;
    text.push(b'\n')?;
    Ok(())
}

/// Appends the values of signals, with identifiers from this number on.
fn add_changes(text: &mut Vec<u8>, number: usize, bits: &[bool]) -> Result<(), AllocError>
    requires number { number ≤ 1000000 }
    requires few { length bits.now ≤ 1000000 }
    ensures { OnOk result (text.new.items ≡ text.old.items ++ changes_text number bits.now) }
{
    for place in 0..bits.len() {
        add_change(text, number + place, bits[place])?;
    }
    Ok(())
}

/// The values of all signals of two netlists as a VCD of one step, with a scope for each netlist. The values are given
/// by signal; names are written as they are. It has no date, so that it depends on nothing but its arguments.
pub fn vcd_of(
    alloc: Global,
    first: &Netlist,
    values: &[bool],
    second: &Netlist,
    others: &[bool],
) -> Result<Vec<u8>, AllocError>
    requires values { length values.now ≡ length first.now.names }
    requires others { length others.now ≡ length second.now.names }
    ensures { IfOk result (λ text. text.items ≡ vcd_text first.now.names values.now second.now.names others.now) }
{
    let start = first.count();
    let _ = second.count(); // For the proof.
    let mut text = Vec::new(alloc);
    text.extend_from_slice(b"$timescale 1 ns $end\n")?;
    add_scope(&mut text, b"first", 0, first)?;
    add_scope(&mut text, b"second", start, second)?;
    text.extend_from_slice(b"$enddefinitions $end\n#0\n")?;
    add_changes(&mut text, 0, values)?;
    add_changes(&mut text, start, others)?;
    text.extend_from_slice(b"#1\n")?;
    Ok(text)
}
