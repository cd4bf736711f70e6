// Statements as a text spells them, and partial statements.
ghost use Rattle.std.specs.Prelude.{◌≡◌, ◌≢◌, ◌⊎◌, List, [], ◌∷◌, ◌++◌, None, IfOk, IfErr};
ghost use Rattle.net_bench.specs.Text.{Name, End};
ghost use Rattle.net_bench.specs.ParsedStatement.{word_of, statement_of, state_of, next_state, closing};
ghost use Rattle.net_bench.specs.Scan.{seen};
ghost use Rattle.net_bench.specs.Statement.{Statement, line_of};
ghost use Rattle.net_bench.specs.Machine.{Failed, is_input_word, is_output_word, port, step};
ghost use Rattle.net_bench.specs.Judge.{closed};
ghost use Rattle.net_bench.specs.declared.fault.BenchFault.TheVariants.{BadStatement};

use crate::fault::BenchFault;
use crate::scan::Token;
use std::alloc::{AllocError, Global};

/// A name of the text, and its line.
#[derive(Clone, Copy)]
pub struct Word<'a> {
    pub line: u32,
    pub text: &'a [u8],
}

/// A gate of the text, with its operands so far.
#[derive(Drop)]
pub struct ParsedGate<'a> {
    pub out: Word<'a>,
    pub word: Word<'a>,
    pub first: Word<'a>,
    pub others: Vec<Word<'a>>,
}

/// A statement of the text.
#[derive(Drop)]
pub enum ParsedStatement<'a> {
    Input { word: Word<'a>, name: Word<'a> },
    Output { word: Word<'a>, name: Word<'a> },
    Gate(ParsedGate<'a>),
}

impl ParsedStatement<'_> {
    /// The line of the statement's first token.
    pub fn line(&self) -> u32
        ensures { result ≡ line_of (statement_of self.now) }
    {
        match self {
            ParsedStatement::Input { word, .. } | ParsedStatement::Output { word, .. } => word.line,
            ParsedStatement::Gate(gate) => gate.out.line,
        }
    }
}

/// A partial statement: what the tokens after the last whole statement have said.
#[derive(Drop)]
pub enum PartialStatement<'a> {
    /// No token.
    Nothing,
    /// A name, which may be INPUT, OUTPUT, or the signal of a gate or register.
    First { word: Word<'a> },
    /// `INPUT (` or `OUTPUT (`.
    Opened { word: Word<'a> },
    /// The same, and a name.
    Named { word: Word<'a>, name: Word<'a> },
    /// `out =`.
    Defining { out: Word<'a> },
    /// `out = word`.
    AtWord { out: Word<'a>, word: Word<'a> },
    /// `out = word (`.
    Operands { out: Word<'a>, word: Word<'a> },
    /// The same, and operands, the last of which has just been read.
    AfterOperand(ParsedGate<'a>),
    /// The same, and a comma after the last operand.
    AfterComma(ParsedGate<'a>),
}

/// Whether the word is INPUT, in upper or lower case.
fn is_input(word: Word<'_>) -> bool
    ensures { result ≡ is_input_word (word_of word.entry) }
{
    word.text.eq_ignore_ascii_case(b"INPUT")
}

/// Whether the word is OUTPUT, in upper or lower case.
fn is_output(word: Word<'_>) -> bool
    ensures { result ≡ is_output_word (word_of word.entry) }
{
    word.text.eq_ignore_ascii_case(b"OUTPUT")
}

/// The statement of a word that is INPUT or OUTPUT, with this name.
fn port<'a>(word: Word<'a>, name: Word<'a>) -> ParsedStatement<'a>
    ensures { statement_of result ≡ port (word_of word.entry) (word_of name.entry) }
{
    if is_input(word) {
        return ParsedStatement::Input { word, name };
    }
    ParsedStatement::Output { word, name }
}

/// What one more token makes of a partial statement: a longer one, or a whole statement.
#[derive(Drop)]
pub enum Next<'a> {
    More(PartialStatement<'a>),
    Complete(ParsedStatement<'a>),
}

/// The gate with one more operand.
fn with_operand<'a>(gate: ParsedGate<'a>, operand: Word<'a>) -> Result<ParsedGate<'a>, AllocError>
    ensures { IfOk result (λ g. (g.out ≡ gate.entry.out) × (g.word ≡ gate.entry.word) × (g.first ≡ gate.entry.first)
        × (g.others.items ≡ gate.entry.others.items ++ operand.entry ∷ [])) }
{
    let ParsedGate {
        out,
        word,
        first,
        mut others,
    } = gate;
    others.push(operand)?;
    Ok(ParsedGate {
        out,
        word,
        first,
        others,
    })
}

/// The partial statement with a name after it. The fault is `BadStatement` if no statement has a name there.
fn next_name<'a>(
    alloc: Global,
    part: PartialStatement<'a>,
    name: Word<'a>,
) -> Result<PartialStatement<'a>, BenchFault>
    ensures step { IfOk result (λ p. (done : List Statement)
        → state_of done p ≡ step (state_of done part.entry) (Name (word_of name.entry))) }
    ensures closed { IfOk result (λ p. (done : List Statement) → closed (state_of done part.entry) (Name (word_of name.entry)) ≡ None) }
    ensures broken { IfErr result (λ e. (e ≡ BenchFault.OutOfMemory) ⊎
        ((e ≡ BadStatement name.entry.line) × ((done : List Statement)
        → step (state_of done part.entry) (Name (word_of name.entry)) ≡ Failed))) }
{
    match part {
        PartialStatement::Nothing => Ok(PartialStatement::First { word: name }),
        PartialStatement::Opened { word } => Ok(PartialStatement::Named { word, name }),
        PartialStatement::Defining { out } => Ok(PartialStatement::AtWord { out, word: name }),
        PartialStatement::Operands { out, word } => Ok(PartialStatement::AfterOperand(
            ParsedGate {
                out,
                word,
                first: name,
                others: Vec::new(alloc),
            },
        )),
        PartialStatement::AfterComma(gate) => Ok(PartialStatement::AfterOperand(with_operand(
            gate, name,
        )?)),
        _ => Err(BenchFault::BadStatement { line: name.line }),
    }
}

/// What one more token, which is not the end, makes of a partial statement.
pub fn next_part<'a>(
    alloc: Global,
    part: PartialStatement<'a>,
    line: u32,
    token: Token<'a>,
) -> Result<Next<'a>, BenchFault>
    requires { seen line token ≢ End }
    ensures step { IfOk result (λ n. (done : List Statement)
        → next_state done n ≡ step (state_of done part.entry) (seen line token.entry)) }
    ensures closed { IfOk result (λ n. (done : List Statement)
        → closing done n ≡ closed (state_of done part.entry) (seen line token.entry)) }
    ensures broken { IfErr result (λ e. (e ≡ BenchFault.OutOfMemory) ⊎
        ((e ≡ BadStatement line) × ((done : List Statement) → step (state_of done part.entry) (seen line token.entry) ≡ Failed))) }
{
    match (part, token) {
        (part, Token::Name(text)) => {
            let part = next_name(alloc, part, Word { line, text })?;
            Ok(Next::More(part))
        }
        (PartialStatement::First { word }, Token::Equals) => Ok(Next::More(
            PartialStatement::Defining { out: word },
        )),
        (PartialStatement::First { word }, Token::Open) if is_input(word) || is_output(word) => Ok(
            Next::More(PartialStatement::Opened { word }),
        ),
        (PartialStatement::Named { word, name }, Token::Close) => Ok(Next::Complete(port(
            word, name,
        ))),
        (PartialStatement::AtWord { out, word }, Token::Open) => Ok(Next::More(
            PartialStatement::Operands { out, word },
        )),
        (PartialStatement::AfterOperand(gate), Token::Comma) => Ok(Next::More(
            PartialStatement::AfterComma(gate),
        )),
        (PartialStatement::AfterOperand(gate), Token::Close) => Ok(Next::Complete(
            ParsedStatement::Gate(gate),
        )),
        _ => Err(BenchFault::BadStatement { line }),
    }
}
