// What one statement adds to the parts of a netlist, by the numbers of its signals.
ghost use Rattle.std.specs.Prelude.{◌≡◌, ◌++◌, length, map, filter, IfOk, OnOk, option_to_list};
ghost use Rattle.net_bench.specs.ParsedStatement.{statement_of};
ghost use Rattle.net_bench.specs.Circuit.{is_gate, is_register};
ghost use Rattle.net_bench.specs.Symbols.{driven_role, inputs_with, gate_line_with, outputs_with, symbol_after, uses_with};

use crate::kinds::kind_of;
use crate::name_table::narrow;
use crate::netlist::{GateLine, Kind, Operands, Role, Signal};
use crate::symbols::{Symbol, Use};
use crate::syntax::ParsedStatement;
use std::alloc::{AllocError, Global};

/// Appends the signal of an INPUT to the inputs, unless it is one already.
pub fn add_input(
    inputs: &mut Vec<Signal>,
    parsed: &ParsedStatement<'_>,
    first: Use,
    symbol: Symbol,
) -> Result<(), AllocError>
    ensures { OnOk result (inputs.new.items ≡ inputs.old.items ++ inputs_with (statement_of parsed.now) first symbol) }
{
    let ParsedStatement::Input { .. } = parsed else {
        return Ok(());
    };
    if !matches!(symbol.role, Role::Input) {
        inputs.push(first.signal)?;
    }
    Ok(())
}

/// Appends the signal of an OUTPUT to the outputs, unless it is one already.
pub fn add_output(
    outputs: &mut Vec<Signal>,
    parsed: &ParsedStatement<'_>,
    first: Use,
    symbol: Symbol,
) -> Result<(), AllocError>
    ensures { OnOk result (outputs.new.items ≡ outputs.old.items ++ outputs_with (statement_of parsed.now) first symbol) }
{
    let ParsedStatement::Output { .. } = parsed else {
        return Ok(());
    };
    if !symbol.is_output {
        outputs.push(first.signal)?;
    }
    Ok(())
}

/// Appends the uses of a statement: those of its names that have to be defined somewhere in the text.
pub fn add_uses(
    uses: &mut Vec<Use>,
    parsed: &ParsedStatement<'_>,
    first: Use,
    operands: &[Use],
) -> Result<(), AllocError>
    ensures { OnOk result (uses.new.items ≡ uses.old.items ++ uses_with (statement_of parsed.now) first operands.now) }
{
    match parsed {
        ParsedStatement::Input { .. } => {}
        ParsedStatement::Output { .. } => uses.push(first)?,
        ParsedStatement::Gate(_) => uses.extend_from_slice(operands)?,
    }
    Ok(())
}

/// The signals of the operands, without the lines of their names.
fn operands_of(alloc: Global, uses: &[Use]) -> Result<Operands, AllocError>
    ensures { IfOk result (λ v. v ≡ map (λ u. u.signal) uses.now) }
{
    let mut signals = Vec::with_capacity(alloc, uses.len())?;
    for used in uses {
        signals.push(used.signal)?;
    }
    Ok(Operands::of(signals))
}

/// The gate or register of a statement; None for an INPUT or an OUTPUT. (A word that names no kind was refused before.)
fn gate_line_of(
    alloc: Global,
    parsed: &ParsedStatement<'_>,
    first: Use,
    operands: &[Use],
) -> Result<Option<GateLine>, AllocError>
    ensures { IfOk result (λ g. g ≡ gate_line_with (statement_of parsed.now) first operands.now) }
{
    let ParsedStatement::Gate(gate) = parsed else {
        return Ok(None);
    };
    let Some(kind) = kind_of(gate.word.text) else {
        return Ok(None);
    };
    let operands = operands_of(alloc, operands)?;
    Ok(Some(GateLine {
        out: first.signal,
        kind,
        operands,
        line: gate.out.line,
    }))
}

/// Appends a gate to the gates, and a register to the registers.
fn add_line(
    gates: &mut Vec<GateLine>,
    registers: &mut Vec<GateLine>,
    line: Option<GateLine>,
) -> Result<(), AllocError>
    ensures gates { OnOk result (gates.new.items ≡ gates.old.items ++ filter is_gate (option_to_list line)) }
    ensures registers { OnOk result (registers.new.items ≡ registers.old.items ++ filter is_register (option_to_list line)) }
{
    let Some(line) = line else {
        return Ok(());
    };
    if line.kind.is_register() {
        registers.push(line)?;
    } else {
        gates.push(line)?;
    }
    Ok(())
}

/// Appends the gate or register of a statement, if it has one, to its list.
pub fn add_driven(
    alloc: Global,
    gates: &mut Vec<GateLine>,
    registers: &mut Vec<GateLine>,
    parsed: &ParsedStatement<'_>,
    first: Use,
    operands: &[Use],
) -> Result<(), AllocError>
    ensures gates { OnOk result (gates.new.items ≡ gates.old.items
        ++ filter is_gate (option_to_list (gate_line_with (statement_of parsed.now) first operands.now))) }
    ensures registers { OnOk result (registers.new.items ≡ registers.old.items
        ++ filter is_register (option_to_list (gate_line_with (statement_of parsed.now) first operands.now))) }
{
    let line = gate_line_of(alloc, parsed, first, operands)?;
    add_line(gates, registers, line)
}

/// The role of a signal that a statement of this kind defines: the gate at the place `gate`, or the register at the
/// place `register`.
fn driven_role(kind: Option<Kind>, gate: u32, register: u32) -> Role
    ensures { result ≡ driven_role kind gate register }
{
    match kind {
        Some(kind) if kind.is_register() => Role::Register(register),
        _ => Role::Gate(gate),
    }
}

/// The symbol of a statement's signal after the statement, if its gate comes to the place `gate`, or its register to
/// `register`.
fn symbol_after(parsed: &ParsedStatement<'_>, symbol: Symbol, gate: u32, register: u32) -> Symbol
    ensures { result ≡ symbol_after (statement_of parsed.now) symbol gate register }
{
    match parsed {
        ParsedStatement::Input { .. } => Symbol {
            role: Role::Input,
            is_output: symbol.is_output,
        },
        ParsedStatement::Output { .. } => Symbol {
            role: symbol.role,
            is_output: true,
        },
        ParsedStatement::Gate(parsed) => Symbol {
            role: driven_role(kind_of(parsed.word.text), gate, register),
            is_output: symbol.is_output,
        },
    }
}

/// The symbol of a statement's signal after the statement, whose gate or register is appended to its list.
pub fn next_symbol(
    parsed: &ParsedStatement<'_>,
    symbol: Symbol,
    gates: &[GateLine],
    registers: &[GateLine],
) -> Result<Symbol, AllocError>
    ensures { IfOk result (λ s. s ≡ symbol_after (statement_of parsed.now) symbol (length gates.now) (length registers.now)) }
{
    let gate = narrow(gates.len())?;
    let register = narrow(registers.len())?;
    Ok(symbol_after(parsed, symbol, gate, register))
}

/// The variables: the inputs, then the signals of the registers.
pub fn variables_of(
    alloc: Global,
    inputs: &[Signal],
    registers: &[GateLine],
) -> Result<Vec<Signal>, AllocError>
    ensures { IfOk result (λ v. v.items ≡ inputs.now ++ map (λ g. g.out) registers.now) }
{
    let mut variables = Vec::from_slice(alloc, inputs)?;
    for register in registers {
        variables.push(register.out)?;
    }
    Ok(variables)
}
