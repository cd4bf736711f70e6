//! Excerpts of a refused file: the line or the name that a fault refers to.
ghost use Rattle.std.specs.Prelude.{◌≡◌, ◌+◌, ◌-◌, ◌^◌, ◌<◌, ◌≤◌, ◌∷◌, [], ℕ, List, Some, IfOk, IfSome, length, codes, decimal, map, take};
ghost use Rattle.std.specs.Prelude.{string_bytes, ◌++◌};
ghost use Rattle.net_bench.specs.Pieces.{tokens_at};
ghost use Rattle.check_tool.specs.Helping.{refused_paths, IsQuoted, IsShown};
ghost use Rattle.check_tool.specs.Opening.{OpensAgain};
ghost use Rattle.check_tool.specs.Quoting.{before_line, following, broken_remark, excerpt, first_line, name_remark, unclosed_in};
ghost use Rattle.check_tool.specs.Quoting.{quotation, read_byte, remark, shown};
ghost use Rattle.check_tool.specs.Running.{IsReadOf};

use crate::fault::ToolFault;
use crate::folder::Folder;
use crate::help::{QuotedPart, refused_part};
use crate::names::name_of_refused;
use check_report::CheckFault;
use command_line::Options;
use net_bench::reader::MAX_TEXT;
use net_bench::scan::{Scanner, Token};
use std::alloc::{AllocError, Global};
use text_device::read_text;

const LINE_FEED: u8 = b'\n';

/// The most bytes of a line or of a name that are shown.
const MOST_SHOWN: usize = 100;

/// Returns what follows the first `feeds` line feeds.
fn following(text: &[u8], feeds: u32) -> &[u8]
    ensures { result.now ≡ following feeds text.now }
{
    let mut left = feeds;
    for at in 0..text.len() {
        if left == 0 {
            return &text[at..];
        }
        if text[at] == LINE_FEED {
            left -= 1;
        }
    }
    &[]
}

/// Returns the bytes before the first line feed.
fn first_line(text: &[u8]) -> &[u8]
    ensures { result.now ≡ first_line text.now }
{
    for at in 0..text.len() {
        if text[at] == LINE_FEED {
            return &text[..at];
        }
    }
    text
}

fn front(bytes: &[u8], most: usize) -> &[u8]
    ensures { result.now ≡ take most bytes.now }
{
    if bytes.len() <= most {
        bytes
    } else {
        &bytes[..most]
    }
}

/// Returns the character that is shown for a byte: a blank for a tab or a carriage return, and a question mark for what
/// cannot be printed, so that no file can send control sequences to a terminal.
fn shown_byte(byte: u8) -> u8
    ensures value { result ≡ shown byte }
    ensures ascii { result < 128 }
{
    if byte.is_ascii_graphic() {
        return byte;
    }
    match byte {
        b' ' | b'\t' | b'\r' => b' ',
        _ => b'?',
    }
}

/// Returns the bytes as they are shown.
fn shown(alloc: Global, bytes: &[u8]) -> Result<String, AllocError>
    ensures { IfOk result (λ s. string_bytes s ≡ map shown bytes.now) }
{
    let mut text = String::new(alloc);
    for byte in bytes {
        text.push(char::from(shown_byte(*byte)))?;
    }
    Ok(text)
}

/// Returns the bytes as they are shown, at most `MOST_SHOWN` of them, with a note if they are cut.
pub(crate) fn excerpt(alloc: Global, whole: &[u8]) -> Result<String, AllocError>
    ensures { IfOk result (λ s. string_bytes s ≡ excerpt whole.now) }
{
    let front = shown(alloc, front(whole, MOST_SHOWN))?;
    if whole.len() <= MOST_SHOWN {
        return Ok(front);
    }
    format!(in alloc; "{front}... (cut)")
}

/// Returns the excerpt of a line of a text. Lines are counted from 1.
pub fn quotation(alloc: Global, text: &[u8], line: u32) -> Result<String, AllocError>
    ensures { IfOk result (λ s. string_bytes s ≡ quotation text.now line) }
{
    excerpt(alloc, first_line(following(text, line.saturating_sub(1))))
}

/// The state of a reading: the line, whether it is in a comment, and the line of the last parenthesis that is not
/// closed.
#[derive(Clone, Copy, Drop)]
struct Reading {
    line: u32,
    in_comment: bool,
    unclosed: Option<u32>,
}

/// Returns the state after one more byte.
fn read_byte(at: Reading, byte: u8) -> Reading
    requires { at.line < 2 ^ 31 }
    ensures read { result ≡ read_byte at byte }
    ensures line { result.line ≤ at.line + 1 }
{
    let Reading {
        line,
        in_comment,
        unclosed,
    } = at;
    if byte == LINE_FEED {
        return Reading {
            line: line + 1,
            in_comment: false,
            unclosed,
        };
    }
    if in_comment {
        return at;
    }
    match byte {
        b'#' => Reading {
            line,
            in_comment: true,
            unclosed,
        },
        b'(' => Reading {
            line,
            in_comment: false,
            unclosed: Some(line),
        },
        b')' => Reading {
            line,
            in_comment: false,
            unclosed: None,
        },
        _ => at,
    }
}

/// Returns the line of the last parenthesis that is not closed, if there is one.
fn unclosed_in(text: &[u8]) -> Option<u32>
    requires { length text.now ≤ 67108864 }
    ensures { result ≡ unclosed_in text.now }
{
    let mut at = Reading {
        line: 1,
        in_comment: false,
        unclosed: None,
    };
    for place in 0..text.len() {
        at = read_byte(at, text[place]);
    }
    at.unclosed
}

/// Returns the bytes before a line.
#[tactic(auto, using(crate::proofs::Quoting::following_short))]
fn before_line(text: &[u8], line: u32) -> &[u8]
    ensures before { result.now ≡ before_line text.now line }
    ensures few { length result.now ≤ length text.now }
{
    let rest = following(text, line.saturating_sub(1));
    &text[..text.len() - rest.len()]
}

/// Returns the excerpt for a line with a broken statement. If a parenthesis before it is not closed, the excerpt is the
/// line of that parenthesis, where the mistake probably is.
fn broken(alloc: Global, text: &[u8], line: u32) -> Result<String, AllocError>
    requires { length text.now ≤ 67108864 }
    ensures { IfOk result (λ s. string_bytes s ≡ broken_remark text.now line (unclosed_in (before_line text.now line))) }
{
    match unclosed_in(before_line(text, line)) {
        Some(unclosed) => {
            let shown = quotation(alloc, text, unclosed)?;
            format!(in alloc; "the ( of line {unclosed} has no ): {shown}")
        }
        None => quotation(alloc, text, line),
    }
}

/// Returns the excerpt of a name, with its line.
fn named(alloc: Global, line: u32, name: &[u8]) -> Result<String, AllocError>
    ensures { IfOk result (λ s. string_bytes s ≡ codes "line " ++ (decimal line ++ (codes ": " ++ excerpt name.now))) }
{
    let shown = excerpt(alloc, name)?;
    format!(in alloc; "line {line}: {shown}")
}

/// Returns the excerpt of the name at a place of a list, counted from 1, or a note that the list ends before it.
fn name_in_list(alloc: Global, text: &[u8], place: u32) -> Result<String, AllocError>
    requires { length text.now ≤ 67108864 }
    ensures { IfOk result (λ s. string_bytes s ≡ name_remark (place - 1) (tokens_at 1 text.now)) }
{
    let mut scanner = Scanner::new(text);
    for _ in 0..place.saturating_sub(1) {
        let _ = scanner.next();
    }
    match scanner.next() {
        (line, Token::Name(name)) => named(alloc, line, name),
        (_, Token::End) => String::from_str(
            alloc,
            "the list ends before each variable has a place",
        ),
        _ => Ok(String::new(alloc)),
    }
}

/// Returns the excerpt of the part that a fault refers to.
fn remark(alloc: Global, text: &[u8], quoted_part: QuotedPart) -> Result<String, AllocError>
    requires { length text.now ≤ 67108864 }
    ensures { IfOk result (λ s. string_bytes s ≡ remark quoted_part text.now) }
{
    match quoted_part {
        QuotedPart::Line(line) => quotation(alloc, text, line),
        QuotedPart::BrokenStatement(line) => broken(alloc, text, line),
        QuotedPart::Listed(place) => name_in_list(alloc, text, place),
    }
}

/// Opens and reads a file again, and returns the excerpt of a part of it. There is none if it is not a regular file, if
/// it is gone or refused, or if memory is refused.
#[tactic(auto, using(crate::proofs::Composing::extends_none, crate::proofs::Quoting::tried_once))]
fn quote_file<F: Folder>(
    alloc: Global,
    folder: &mut F,
    path: &str,
    quoted_part: QuotedPart,
) -> Option<String>
    ensures quoted { IfSome result (λ s. (text : List ℕ) × IsReadOf (F.bytes_at folder.old path.now) (Some text)
        × (string_bytes s ≡ remark quoted_part text)) }
    ensures tried { OpensAgain (F.tries folder.old) (F.tries folder.new) (path.now ∷ []) }
    ensures unsaved { F.saves folder.new ≡ F.saves folder.old }
{
    if !folder.is_regular(path) {
        return None;
    }
    let mut file = folder.open(path).ok()?;
    let text = read_text(alloc, &mut file, MAX_TEXT).ok()?;
    remark(alloc, text.as_slice(), quoted_part).ok()
}

/// Returns the excerpt of the refused file, if it can be read again.
#[tactic(auto, using(crate::proofs::Composing::extends_none))]
fn quote_refused<F: Folder>(
    alloc: Global,
    folder: &mut F,
    options: &Options<'_>,
    fault: ToolFault,
) -> Option<String>
    ensures quoted { IfSome result (λ s. IsShown (F.bytes_at folder.old) options.now fault (string_bytes s)) }
    ensures tried { OpensAgain (F.tries folder.old) (F.tries folder.new) (refused_paths options.now fault) }
    ensures unsaved { F.saves folder.new ≡ F.saves folder.old }
{
    let (path, quoted_part) = refused_part(options, fault)?;
    quote_file(alloc, folder, path, quoted_part)
}

/// Returns the excerpt for a fault: of a line of the refused file, of a name in it, or the name that the first netlist
/// does not have.
pub(crate) fn quote<F: Folder>(
    alloc: Global,
    folder: &mut F,
    options: &Options<'_>,
    fault: ToolFault,
) -> Option<String>
    ensures quoted { IfSome result (λ s. IsQuoted (F.bytes_at folder.old) options.now fault (string_bytes s)) }
    ensures tried { OpensAgain (F.tries folder.old) (F.tries folder.new) (refused_paths options.now fault) }
    ensures unsaved { F.saves folder.new ≡ F.saves folder.old }
{
    match fault {
        ToolFault::Check(CheckFault::Only | CheckFault::Explain) => {
            name_of_refused(alloc, folder, options, fault)
        }
        _ => quote_refused(alloc, folder, options, fault),
    }
}
