//! Reads a netlist from a text or a device, or makes it of its parts.
ghost use Rattle.std.specs.Prelude.{◌≡◌, ◌+◌, ◌<◌, ◌⊎◌, ℕ, length, Contains, IfOk, IfErr, IfSome, OnOk, IsTrue};
ghost use Rattle.std.specs.Prelude.{Some, Err};
ghost use Rattle.net_bench.specs.Circuit.{circuit, circuit_of, variables_of, IsNet, AreRanks};
ghost use Rattle.net_bench.specs.Fault.{IsRefused, MakesNetlist, max_text};
ghost use Rattle.text_device.specs.Devices.{TakesAtMost};
ghost use Rattle.net_bench.specs.Judge.{statements_in};
ghost use Rattle.net_bench.specs.Sound.{IsSound, AreDefined, IsLateFault};
ghost use Rattle.net_bench.specs.Machine.{Between};
ghost use Rattle.net_bench.specs.Heights.{IsDriven};
ghost use Rattle.net_bench.specs.Assembly.{net_of_parts};
ghost use Rattle.net_bench.specs.Symbols.{IsTableOf};

use crate::assembly::{Assembly, symbols_of};
use crate::build::variables_of;
use crate::fault::BenchFault;
use crate::judge::judge_text;
use crate::netlist::{GateLine, Netlist, Signal};
use crate::ranks::ranks_of;
use crate::symbols::{Symbol, SymbolTable, first_undefined};
use std::alloc::{AllocError, Global};
use text_device::{Source, TextFault, read_text};

/// The most bytes of a text, and of an order file: 64 MiB.
pub const MAX_TEXT: usize = 67_108_864;

/// The ranks of the circuit of a text's statements. The text itself is only for the contract.
fn ranks_for(
    alloc: Global,
    text: &[u8],
    symbols: &[Symbol],
    variables: &[Signal],
    gates: &[GateLine],
) -> Result<Vec<u32>, BenchFault>
    requires sound { IsSound (statements_in text.now) }
    requires defined { AreDefined (statements_in text.now) }
    requires count { length symbols.now ≡ length (circuit_of (statements_in text.now)).names }
    requires variables { variables.now ≡ variables_of (circuit_of (statements_in text.now)) }
    requires gates { gates.now ≡ (circuit_of (statements_in text.now)).gates }
    requires driven { (s : ℕ) → s < length symbols.now → Contains variables.now s ⊎ IsDriven gates.now symbols.now s }
    ensures ranks { IfOk result (λ v. AreRanks (circuit_of (statements_in text.now)) v.items) }
    ensures refused { IfErr result (IsLateFault (statements_in text.now)) }
{
    let _ = text; // For the proof.
    ranks_of(alloc, symbols, variables, gates)
}

/// Refuses a text that uses a signal without a definition. The text itself is only for the contract.
fn check_defined(text: &[u8], symbols: &SymbolTable) -> Result<(), BenchFault>
    requires table_matches { IsTableOf (statements_in text.now) (Between (statements_in text.now)) symbols.now }
    ensures defined { OnOk result (AreDefined (statements_in text.now)) }
    ensures refused { IfErr result (IsLateFault (statements_in text.now)) }
{
    let _ = text; // For the proof.
    match first_undefined(symbols.symbols.as_slice(), symbols.uses.as_slice()) {
        Some(line) => Err(BenchFault::Undefined { line }),
        None => Ok(()),
    }
}

/// The netlist of a text whose statements are sound, and use no signal without a definition.
fn netlist_of(alloc: Global, text: &[u8], symbols: SymbolTable) -> Result<Netlist, BenchFault>
    requires sound { IsSound (statements_in text.now) }
    requires defined { AreDefined (statements_in text.now) }
    requires table_matches { IsTableOf (statements_in text.now) (Between (statements_in text.now)) symbols }
    ensures accepted { IfOk result (λ net. (circuit net ≡ circuit_of (statements_in text.now)) × IsNet net) }
    ensures refused { IfErr result (IsLateFault (statements_in text.now)) }
{
    let SymbolTable {
        names,
        symbols,
        inputs,
        outputs,
        gates,
        registers,
        ..
    } = symbols;
    let variables = variables_of(alloc, inputs.as_slice(), registers.as_slice())?;
    let ranks = ranks_for(
        alloc,
        text,
        symbols.as_slice(),
        variables.as_slice(),
        gates.as_slice(),
    )?;
    Ok(Netlist {
        names,
        symbols,
        inputs,
        outputs,
        gates,
        registers,
        variables,
        ranks,
    })
}

/// The netlist that has these parts.
pub fn netlist_of_parts(alloc: Global, parts: Assembly) -> Result<Netlist, AllocError>
    requires { IsNet (net_of_parts parts) }
    ensures { IfOk result (λ net. net ≡ net_of_parts parts) }
{
    let symbols = symbols_of(alloc, &parts)?;
    let variables = variables_of(alloc, parts.inputs.as_slice(), parts.registers.as_slice())?;
    let Assembly {
        names,
        inputs,
        outputs,
        gates,
        registers,
        ranks,
    } = parts;
    Ok(Netlist {
        names,
        symbols,
        inputs,
        outputs,
        gates,
        registers,
        variables,
        ranks,
    })
}

/// The netlist of a text in the bench format: INPUT, OUTPUT, gates and registers, as ISCAS 1985 and 1989 benchmarks are
/// distributed. After one pass over the text's tokens, uses without a definition are sought, then cycles of gates. The
/// error is never `Read`.
pub fn parse_bench(alloc: Global, text: &[u8]) -> Result<Netlist, BenchFault>
    // A text that is accepted is a netlist, and the answer is the netlist of its statements.
    ensures accepted { IfOk result (λ net. MakesNetlist text.now (circuit net)) }
    // A text that is refused has the fault that comes first, unless memory ran out.
    ensures refused { IfErr result (λ fault. (fault ≡ BenchFault.OutOfMemory) ⊎ IsRefused text.now fault) }
{
    if text.len() > MAX_TEXT {
        return Err(BenchFault::TooLong);
    }
    let symbols = judge_text(alloc, text)?;
    check_defined(text, &symbols)?;
    netlist_of(alloc, text, symbols)
}

/// The netlist of the text that the device gives. A read that fails is `Read`; a read of 0 bytes is the end of the
/// text. At most 67,108,865 bytes are read.
pub fn read_bench<R: Source>(alloc: Global, device: &mut R) -> Result<Netlist, BenchFault>
    ensures accepted { IfOk result (λ net. IfSome (R.remaining device.old) (λ text. MakesNetlist text (circuit net))) }
    ensures refused { IfErr result (λ fault. (fault ≡ BenchFault.OutOfMemory) ⊎ (fault ≡ BenchFault.Read) ⊎
        IfSome (R.remaining device.old) (λ text. IsRefused text fault)) }
    // At most one byte more than a text may have is read.
    ensures taken { TakesAtMost (max_text + 1) (R.remaining device.old) (R.remaining device.new) }
    // `Read` says that the device has failed. After any other answer it has failed only if it had before.
    ensures read { result ≡ Err BenchFault.Read → IsTrue (R.has_failed device.new) }
    ensures kept { (result ≡ Err BenchFault.Read → ⊥) → R.has_failed device.new ≡ R.has_failed device.old }
    ensures origin { R.origin device.new ≡ R.origin device.old }
{
    match read_text(alloc, device, MAX_TEXT) {
        Ok(text) => parse_bench(alloc, text.as_slice()),
        Err(TextFault::Read) => Err(BenchFault::Read),
        Err(TextFault::TooLong) => Err(BenchFault::TooLong),
        Err(TextFault::OutOfMemory) => Err(BenchFault::OutOfMemory),
    }
}
