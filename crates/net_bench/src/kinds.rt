// The words of gates and registers.
ghost use Rattle.std.specs.Prelude.{◌≡◌};
ghost use Rattle.net_bench.specs.Statement.{kind_of};

use crate::netlist::Kind;

/// The kind that a word names, in upper or lower case.
pub fn kind_of(word: &[u8]) -> Option<Kind>
    ensures { result ≡ kind_of word.now }
{
    if word.eq_ignore_ascii_case(b"AND") {
        return Some(Kind::And);
    }
    if word.eq_ignore_ascii_case(b"NAND") {
        return Some(Kind::Nand);
    }
    if word.eq_ignore_ascii_case(b"OR") {
        return Some(Kind::Or);
    }
    if word.eq_ignore_ascii_case(b"NOR") {
        return Some(Kind::Nor);
    }
    if word.eq_ignore_ascii_case(b"XOR") {
        return Some(Kind::Xor);
    }
    if word.eq_ignore_ascii_case(b"XNOR") {
        return Some(Kind::Xnor);
    }
    if word.eq_ignore_ascii_case(b"NOT") {
        return Some(Kind::Not);
    }
    if word.eq_ignore_ascii_case(b"BUFF") {
        return Some(Kind::Buff);
    }
    if word.eq_ignore_ascii_case(b"BUF") {
        return Some(Kind::Buff);
    }
    if word.eq_ignore_ascii_case(b"DFF") {
        return Some(Kind::Dff);
    }
    None
}
