//! The scanner: the tokens of a text, one after the other.
ghost use Rattle.std.specs.Prelude.{◌≡◌, ℕ, ◌+◌, ◌<◌, ◌≤◌, ◌^◌, length};
ghost use Rattle.std.specs.List.{prefix_len};
ghost use Rattle.net_bench.specs.Text.{is_blank, is_mark, is_name_byte};
ghost use Rattle.net_bench.specs.Pieces.{tokens_at, StartsToken};
ghost use Rattle.net_bench.specs.Scan.{seen, Takes};

use std::marker::Model;

/// Space, tab, CR or LF.
fn is_blank(b: u8) -> bool
    ensures { result ≡ is_blank b }
{
    b == b' ' || b == b'\t' || b == b'\r' || b == b'\n'
}

/// A parenthesis, a comma or an equals sign.
fn is_mark(b: u8) -> bool
    ensures { result ≡ is_mark b }
{
    b == b'(' || b == b')' || b == b',' || b == b'='
}

/// A byte of names: printable, no punctuation and no `#`.
fn is_name_byte(b: u8) -> bool
    ensures { result ≡ is_name_byte b }
{
    33 <= b && b <= 126 && !is_mark(b) && b != b'#'
}

/// Skips blanks and comments: the text from its first token on, and the line of that token.
#[tactic(auto, using(crate::proofs::Scanning::comment_newline, crate::proofs::Scanning::newline, crate::proofs::Scanning::hash, crate::proofs::Scanning::in_comment, crate::proofs::Scanning::blank, crate::proofs::Scanning::end_of))]
fn skip_gap(text: &[u8], line: u32) -> (&[u8], u32)
    requires { line + length text.now < 2 ^ 32 }
    ensures same { tokens_at result.1 result.0.now ≡ tokens_at line text.now }
    ensures room { result.1 + length result.0.now ≤ line + length text.now }
    ensures at { StartsToken result.0.now }
{
    let mut rest = text;
    let mut at = line;
    let mut in_comment = false;
    while let Some((b, after)) = rest.split_first() {
        let b = *b;
        if in_comment {
            if b == b'\n' {
                in_comment = false;
                at += 1;
            }
        } else if b == b'#' {
            in_comment = true;
        } else if b == b'\n' {
            at += 1;
        } else if !is_blank(b) {
            return (rest, at);
        }
        rest = after;
    }
    (rest, at)
}

/// How many name bytes the text begins with.
fn name_len(text: &[u8]) -> usize
    ensures count { result ≡ prefix_len is_name_byte text.now }
    ensures bound { result ≤ length text.now }
{
    text.iter().take_while(|b| is_name_byte(**b)).count()
}

/// A token of a text. A name is a slice of the text, not a copy.
#[derive(Clone, Copy, Debug)]
pub enum Token<'a> {
    Open,
    Close,
    Comma,
    Equals,
    Name(&'a [u8]),
    /// A byte that no statement has.
    Unknown(u8),
    /// The end of the text.
    End,
}

/// What is left of a text, as tokens.
#[derive(Drop)]
pub struct Scanner<'a> {
    rest: &'a [u8],
    line: u32,
}

impl<'a> Model for Scanner<'a> {
    ghost use Rattle.std.specs.Prelude.{ℕ, ◌+◌, ◌<◌, ◌^◌, length};
    ghost use Rattle.net_bench.specs.Text.{Tokens};

    ghost Value = { Tokens };

    ghost use Rattle.net_bench.specs.Pieces.{tokens_at};

    ghost view = { λ s. tokens_at s.line s.rest.now };

    ghost invariant = { λ s. s.line + length s.rest.now < 2 ^ 32 };
}

impl<'a> Scanner<'a> {
    /// The scanner at the beginning of a text, on line 1.
    pub fn new(text: &'a [u8]) -> Self
        requires { length text.now ≤ 67108864 }
        ensures { result ≡ tokens_at 1 text.now }
    {
        Scanner {
            rest: text,
            line: 1,
        }
    }

    /// The next token and its line. After the end of the text comes the end again.
    pub fn next(&mut self) -> (u32, Token<'a>)
        ensures { Takes self.old result.0 (seen result.0 result.1) self.new }
    {
        let (rest, line) = skip_gap(self.rest, self.line);
        let (token, left) = first_token(rest);
        self.rest = left;
        self.line = line;
        (line, token)
    }
}

/// The token at the front of the text, and the text after it.
#[tactic(auto, using(crate::proofs::Scanning::open_at, crate::proofs::Scanning::close_at, crate::proofs::Scanning::comma_at, crate::proofs::Scanning::equals_at, crate::proofs::Scanning::end_at, crate::proofs::Scanning::unknown_at, crate::proofs::Scanning::name_at))]
fn first_token(text: &[u8]) -> (Token<'_>, &[u8])
    requires { StartsToken text.now }
    ensures token { (line : ℕ) → Takes (tokens_at line text.now) line (seen line result.0) (tokens_at line result.1.now) }
    ensures room { length result.1.now ≤ length text.now }
{
    let n = name_len(text);
    if 0 < n {
        let (name, after) = text.split_at(n);
        return (Token::Name(name), after);
    }
    let Some((b, after)) = text.split_first() else {
        return (Token::End, text);
    };
    match *b {
        b'(' => (Token::Open, after),
        b')' => (Token::Close, after),
        b',' => (Token::Comma, after),
        b'=' => (Token::Equals, after),
        other => (Token::Unknown(other), after),
    }
}
