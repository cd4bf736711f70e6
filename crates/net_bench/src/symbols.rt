// The symbol table of the reader: the signals that a text has mentioned so far, and what its whole statements say of them.
ghost use Rattle.std.specs.Prelude.{◌≡◌, ℕ, ◌+◌, ◌<◌, ◌≤◌, List, [], ◌∷◌, ◌++◌, length, replicate, slice_get, option_map, All, Some, IfErr};
ghost use Rattle.std.specs.Prelude.{OnOk};
ghost use Rattle.net_bench.specs.Fault.{has_wrong_operands, is_one_operand_kind, redefines};
ghost use Rattle.net_bench.specs.Judge.{answered_fault};
ghost use Rattle.net_bench.specs.ParsedStatement.{word_of, statement_of, state_of};
ghost use Rattle.net_bench.specs.Scan.{seen};
ghost use Rattle.net_bench.specs.Statement.{Statement, kind_of};
ghost use Rattle.net_bench.specs.Symbols.{InternsMore, ClosesStatement, IsLimitFault, IsSymbol, KeepsParts, KnowsSubject, blank, is_defined_role};
ghost use Rattle.net_bench.specs.Symbols.{is_driven_role, known_symbol, newest, newest_operands, statement_fault, subject, undefined_use};

use crate::build::{add_driven, add_input, add_output, add_uses, next_symbol};
use crate::fault::BenchFault;
use crate::kinds::kind_of;
use crate::name_table::NameTable;
use crate::netlist::{GateLine, Kind, Role, Signal};
use crate::scan::Token;
use crate::syntax::{ParsedStatement, PartialStatement, Word};
use std::alloc::{AllocError, Global};

/// The most signals of a netlist.
const MAX_SIGNALS: usize = 1_000_000;

/// The most operands of all gates and registers together.
const MAX_OPERANDS: u32 = 4_000_000;

/// What the whole statements so far say of a signal.
#[derive(Clone, Copy, Debug, PartialEq, Eq)]
pub struct Symbol {
    pub role: Role,
    pub is_output: bool,
}

/// A signal that a statement mentions, and the line of its name.
#[derive(Clone, Copy, Debug, PartialEq, Eq)]
pub struct Use {
    pub signal: Signal,
    pub line: u32,
}

/// What the reader knows after some tokens: the names so far, each with its symbol; the parts of the netlist, by
/// number; the uses that need a definition; the signals that the partial statement has mentioned; and the number of
/// operands.
#[derive(Drop)]
pub struct SymbolTable {
    pub names: NameTable,
    pub symbols: Vec<Symbol>,
    pub inputs: Vec<Signal>,
    pub outputs: Vec<Signal>,
    pub gates: Vec<GateLine>,
    pub registers: Vec<GateLine>,
    pub uses: Vec<Use>,
    pub begun: Vec<Use>,
    pub operands: u32,
}

/// Whether a gate or register defines the signal.
fn is_driven(role: Role) -> bool
    ensures { result ≡ is_driven_role role }
{
    matches!(role, Role::Gate(_) | Role::Register(_))
}

/// Whether an INPUT, a gate or a register defines the signal.
fn is_defined(role: Role) -> bool
    ensures { result ≡ is_defined_role role }
{
    !matches!(role, Role::Undefined)
}

/// The line of the first use of a signal without a definition.
pub fn first_undefined(symbols: &[Symbol], uses: &[Use]) -> Option<u32>
    ensures { result ≡ undefined_use symbols.now uses.now }
{
    let mut rest = uses;
    while let Some((used, after)) = rest.split_first() {
        if !is_known(symbols, used.signal) {
            return Some(used.line);
        }
        rest = after;
    }
    None
}

/// Whether the signal has a symbol, and it is defined.
fn is_known(symbols: &[Symbol], signal: Signal) -> bool
    ensures { result ≡ known_symbol (slice_get symbols.now signal) }
{
    match symbols.get(signal.number() as usize) {
        Some(symbol) => is_defined(symbol.role),
        None => false,
    }
}

/// The symbol of a signal.
pub fn symbol_of(symbols: &[Symbol], signal: Signal) -> Symbol
    requires { signal < length symbols.now }
    ensures { slice_get symbols.now signal ≡ Some result }
{
    symbols[signal.number() as usize]
}

impl SymbolTable {
    /// The table before the first token.
    pub fn new(alloc: Global) -> Self
        ensures names { result.names ≡ [] }
        ensures symbols { result.symbols.items ≡ [] }
        ensures inputs { result.inputs.items ≡ [] }
        ensures outputs { result.outputs.items ≡ [] }
        ensures gates { result.gates.items ≡ [] }
        ensures registers { result.registers.items ≡ [] }
        ensures uses { result.uses.items ≡ [] }
        ensures begun { result.begun.items ≡ [] }
        ensures operands { result.operands ≡ 0 }
    {
        SymbolTable {
            names: NameTable::new(alloc),
            symbols: Vec::new(alloc),
            inputs: Vec::new(alloc),
            outputs: Vec::new(alloc),
            gates: Vec::new(alloc),
            registers: Vec::new(alloc),
            uses: Vec::new(alloc),
            begun: Vec::new(alloc),
            operands: 0,
        }
    }

    /// The fault of a statement that has just become whole: a wrong number of operands, or a second definition.
    pub fn fault_of(&self, parsed: &ParsedStatement<'_>) -> Option<BenchFault>
        requires some { 0 < length self.now.begun.items }
        requires in_bounds { All (λ u. u.signal < length self.now.symbols.items) self.now.begun.items }
        ensures { (done : List Statement) → KnowsSubject done self.now.begun.items self.now.symbols.items (statement_of parsed.now) →
            result ≡ option_map answered_fault (statement_fault done (statement_of parsed.now)) }
    {
        if has_wrong_operands(parsed) {
            return Some(BenchFault::WrongOperands {
                line: parsed.line(),
            });
        }
        let symbol = symbol_of(self.symbols.as_slice(), self.begun[0].signal);
        if redefines(symbol, parsed) {
            return Some(BenchFault::Redefined {
                line: parsed.line(),
            });
        }
        None
    }

    /// Adds to the parts of the netlist what the whole statement says of its signals.
    pub fn define(&mut self, alloc: Global, parsed: &ParsedStatement<'_>) -> Result<(), AllocError>
        requires some { 0 < length self.old.begun.items }
        requires in_bounds { All (λ u. u.signal < length self.old.symbols.items) self.old.begun.items }
        ensures { OnOk result (ClosesStatement (statement_of parsed.now) self.old self.new) }
    {
        let Some((first, operands)) = self.begun.as_slice().split_first() else {
            unreachable!()
        };
        let first = *first;
        let symbol = symbol_of(self.symbols.as_slice(), first.signal);
        let after = next_symbol(
            parsed,
            symbol,
            self.gates.as_slice(),
            self.registers.as_slice(),
        )?;
        add_input(&mut self.inputs, parsed, first, symbol)?;
        add_output(&mut self.outputs, parsed, first, symbol)?;
        add_uses(&mut self.uses, parsed, first, operands)?;
        add_driven(
            alloc,
            &mut self.gates,
            &mut self.registers,
            parsed,
            first,
            operands,
        )?;
        self.symbols[first.signal.number() as usize] = after;
        self.begun.clear();
        Ok(())
    }

    /// Notes a signal that the partial statement mentions, with a symbol of its own if its name is new.
    fn note_use(&mut self, signal: Signal, line: u32) -> Result<(), AllocError>
        requires { length self.old.symbols.items ≤ length self.old.names }
        ensures symbols { OnOk result ((n : ℕ) × (self.new.symbols.items ≡ self.old.symbols.items ++ replicate n blank)) }
        ensures one_symbol_per_name { OnOk result (length self.old.names ≤ length self.old.symbols.items + 1
            → length self.new.symbols.items ≡ length self.old.names) }
        ensures begun { OnOk result (self.new.begun.items ≡ self.old.begun.items ++ (record { signal = signal; line = line }) ∷ []) }
        ensures names { self.new.names ≡ self.old.names }
        ensures operands { self.new.operands ≡ self.old.operands }
        ensures parts { KeepsParts self.old self.new }
    {
        if self.symbols.len() < self.names.len() {
            self.symbols.push(Symbol {
                role: Role::Undefined,
                is_output: false,
            })?;
        }
        self.begun.push(Use { signal, line })?;
        Ok(())
    }

    /// Interns the name of a signal and notes that it was mentioned. `line` is that of the last token, which a refusal names.
    fn intern_name(&mut self, alloc: Global, line: u32, name: Word<'_>) -> Result<(), BenchFault>
        requires operands { self.old.operands ≤ 4000000 }
        requires one_symbol_per_name { length self.old.symbols.items ≡ length self.old.names }
        ensures ok { OnOk result (InternsMore self.old self.new (word_of name.entry ∷ []) 0) }
        ensures err { IfErr result (IsLimitFault line self.old (word_of name.entry ∷ []) 0) }
    {
        let number = self.names.intern(alloc, name.text)?;
        if self.names.len() > MAX_SIGNALS {
            return Err(BenchFault::TooMany { line });
        }
        self.note_use(Signal::of(number), name.line)?;
        Ok(())
    }

    /// Interns the name of an operand and counts the operand.
    fn intern_operand(&mut self, alloc: Global, line: u32, name: Word<'_>) -> Result<(), BenchFault>
        requires operands { self.old.operands ≤ 4000000 }
        requires one_symbol_per_name { length self.old.symbols.items ≡ length self.old.names }
        ensures ok { OnOk result (InternsMore self.old self.new (word_of name.entry ∷ []) 1) }
        ensures err { IfErr result (IsLimitFault line self.old (word_of name.entry ∷ []) 1) }
    {
        if self.operands >= MAX_OPERANDS {
            return Err(BenchFault::TooMany { line });
        }
        self.intern_name(alloc, line, name)?;
        self.operands += 1;
        Ok(())
    }

    /// Interns what the token mentions that has led to this partial statement: an operand, or the name of a statement's signal.
    pub fn intern_token(
        &mut self,
        alloc: Global,
        part: &PartialStatement<'_>,
        line: u32,
        token: Token<'_>,
    ) -> Result<(), BenchFault>
        requires operands { self.old.operands ≤ 4000000 }
        requires names { length self.old.names ≤ 1000000 }
        requires one_symbol_per_name { length self.old.symbols.items ≡ length self.old.names }
        ensures ok { OnOk result (InternsMore self.old self.new (newest (state_of [] part.now) (seen line token.entry))
            (newest_operands (state_of [] part.now) (seen line token.entry))) }
        ensures err { IfErr result (IsLimitFault line self.old (newest (state_of [] part.now) (seen line token.entry))
            (newest_operands (state_of [] part.now) (seen line token.entry))) }
    {
        match part {
            PartialStatement::Defining { out } => self.intern_name(alloc, line, *out),
            PartialStatement::Named { name, .. } => self.intern_name(alloc, line, *name),
            PartialStatement::AfterOperand(_) => match token {
                Token::Name(text) => self.intern_operand(alloc, line, Word { line, text }),
                _ => Ok(()),
            },
            _ => Ok(()),
        }
    }
}

/// Whether the statement is a second definition of a signal that has this symbol. (A repeated INPUT is none.)
fn redefines(symbol: Symbol, parsed: &ParsedStatement<'_>) -> bool
    ensures { (done : List Statement) → IsSymbol done (subject (statement_of parsed.now)).text symbol
        → result ≡ redefines done (statement_of parsed.now) }
{
    match parsed {
        ParsedStatement::Input { .. } => is_driven(symbol.role),
        ParsedStatement::Output { .. } => false,
        ParsedStatement::Gate(_) => is_defined(symbol.role),
    }
}

/// Whether a gate of this word takes exactly one operand.
fn takes_one(word: &[u8]) -> bool
    ensures { result ≡ is_one_operand_kind (kind_of word.now) }
{
    match kind_of(word) {
        Some(Kind::Not) | Some(Kind::Buff) | Some(Kind::Dff) => true,
        _ => false,
    }
}

/// Whether the statement is a gate that takes one operand and has more.
fn has_wrong_operands(parsed: &ParsedStatement<'_>) -> bool
    ensures { result ≡ has_wrong_operands (statement_of parsed.now) }
{
    match parsed {
        ParsedStatement::Gate(gate) => !gate.others.is_empty() && takes_one(gate.word.text),
        _ => false,
    }
}
