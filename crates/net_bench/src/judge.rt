// The reader's pass over the tokens of a text: what its statements say of its signals, or the first fault.
ghost use Rattle.std.specs.Prelude.{◌≡◌, ◌≢◌, ◌⊎◌, ◌≤◌, ◌<◌, List, [], length, All, Some, None, option_map, IfOk, IfErr, OnOk};
ghost use Rattle.std.specs.Prelude.{Ok, Err};
ghost use Rattle.net_bench.specs.Text.{End};
ghost use Rattle.net_bench.specs.Scan.{seen};
ghost use Rattle.net_bench.specs.ParsedStatement.{statement_of, state_of};
ghost use Rattle.net_bench.specs.Statement.{Statement};
ghost use Rattle.net_bench.specs.Machine.{Between, Finished};
ghost use Rattle.net_bench.specs.Pieces.{tokens_at};
ghost use Rattle.net_bench.specs.Judge.{FaultOnLine, gate_word, judge, lexical, statements_in, answered_fault};
ghost use Rattle.net_bench.specs.Symbols.{Continues, ClosesStatement, IsTableOf, KnowsSubject, IsAnsweredFault, statement_fault};

use crate::fault::BenchFault;
use crate::kinds::kind_of;
use crate::scan::{Scanner, Token};
use crate::symbols::SymbolTable;
use crate::syntax::{Next, ParsedStatement, PartialStatement, next_part};
use std::alloc::Global;

/// The most bytes of a name.
const MAX_NAME: usize = 255;

/// The fault of the token itself: a byte that no statement has, or a name that is too long.
fn token_fault(line: u32, token: Token<'_>) -> Option<BenchFault>
    ensures { result ≡ option_map answered_fault (lexical line (seen line token.entry)) }
{
    match token {
        Token::Unknown(_) => Some(BenchFault::BadByte { line }),
        Token::Name(text) => {
            if text.len() > MAX_NAME {
                return Some(BenchFault::TooMany { line });
            }
            None
        }
        _ => None,
    }
}

/// The fault of a gate word that names no kind, if the partial statement ends in a gate word.
fn word_fault(part: &PartialStatement<'_>) -> Option<BenchFault>
    ensures { (done : List Statement) → result ≡ option_map answered_fault (gate_word (state_of done part.now)) }
{
    let PartialStatement::AtWord { out, word } = part else {
        return None;
    };
    match kind_of(word.text) {
        Some(_) => None,
        None => Some(BenchFault::UnknownGate { line: out.line }),
    }
}

/// Notes what a statement says that has just become whole, unless it has a fault.
fn close(
    alloc: Global,
    symbols: &mut SymbolTable,
    parsed: ParsedStatement<'_>,
) -> Result<(), BenchFault>
    requires some { 0 < length symbols.old.begun.items }
    requires in_bounds { All (λ u. u.signal < length symbols.old.symbols.items) symbols.old.begun.items }
    ensures clean { OnOk result ((done : List Statement) → KnowsSubject done symbols.old.begun.items symbols.old.symbols.items
        (statement_of parsed.entry) → statement_fault done (statement_of parsed.entry) ≡ None) }
    ensures closed { OnOk result (ClosesStatement (statement_of parsed.entry) symbols.old symbols.new) }
    ensures fault { IfErr result (λ f. (f ≡ BenchFault.OutOfMemory)
        ⊎ ((done : List Statement) → KnowsSubject done symbols.old.begun.items symbols.old.symbols.items (statement_of parsed.entry)
        → Some f ≡ option_map answered_fault (statement_fault done (statement_of parsed.entry)))) }
{
    if let Some(fault) = symbols.fault_of(&parsed) {
        return Err(fault);
    }
    symbols.define(alloc, &parsed)?;
    Ok(())
}

/// Takes one more token, which is not the end, and returns the partial statement that it leads to.
fn take_token<'a>(
    alloc: Global,
    symbols: &mut SymbolTable,
    part: PartialStatement<'a>,
    line: u32,
    token: Token<'a>,
) -> Result<PartialStatement<'a>, BenchFault>
    requires token { seen line token ≢ End }
    requires table_matches { (done : List Statement) × IsTableOf done (state_of done part) symbols.old }
    ensures continues { IfOk result (λ p. (done : List Statement) → IsTableOf done (state_of done part.entry) symbols.old
        → Continues (state_of done part.entry) line (seen line token.entry) p symbols.new) }
    ensures fault { IfErr result (λ f. (f ≡ BenchFault.OutOfMemory)
        ⊎ ((done : List Statement) → IsTableOf done (state_of done part.entry) symbols.old
        → IsAnsweredFault f (state_of done part.entry) line (seen line token.entry))) }
{
    if let Some(fault) = token_fault(line, token) {
        return Err(fault);
    }
    match next_part(alloc, part, line, token)? {
        Next::More(part) => {
            if let Some(fault) = word_fault(&part) {
                return Err(fault);
            }
            symbols.intern_token(alloc, &part, line, token)?;
            Ok(part)
        }
        Next::Complete(parsed) => {
            close(alloc, symbols, parsed)?;
            Ok(PartialStatement::Nothing)
        }
    }
}

/// The symbol table of a text, or its first fault. If one token shows several, the first of this list counts: the token
/// itself is faulty, no statement has it there, a gate word names no kind, the number of operands is wrong, the signal
/// is defined already, a limit is passed.
pub fn judge_text(alloc: Global, text: &[u8]) -> Result<SymbolTable, BenchFault>
    requires { length text.now ≤ 67108864 }
    ensures ok { OnOk result (judge (Between []) [] (tokens_at 1 text.now) ≡ Ok (Finished (statements_in text.now))) }
    ensures table_matches { IfOk result (λ symbols. IsTableOf (statements_in text.now) (Between (statements_in text.now)) symbols) }
    ensures fault { IfErr result (λ f. (f ≡ BenchFault.OutOfMemory)
        ⊎ ((found : FaultOnLine) × (judge (Between []) [] (tokens_at 1 text.now) ≡ Err found) × (f ≡ answered_fault found))) }
{
    let mut symbols = SymbolTable::new(alloc);
    let mut part = PartialStatement::Nothing;
    let mut scanner = Scanner::new(text);
    'tokens: loop {
        let (line, token) = scanner.next();
        if let Token::End = token {
            let PartialStatement::Nothing = part else {
                return Err(BenchFault::BadStatement { line });
            };
            return Ok(symbols);
        }
        part = take_token(alloc, &mut symbols, part, line, token)?;
    }
}
