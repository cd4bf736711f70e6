//! The strings of a report as JSON.
ghost use Rattle.std.specs.Prelude.{◌≡◌};
ghost use Rattle.report_text.specs.Json.{shown, match_kind, order_word, role_text, side_word};

use crate::order_kind::OrderKind;
use crate::outcome::{PairKind, Side};
use net_names::order::Match;

/// A name as a string. The names of a netlist are ASCII; bytes that are no UTF-8 would become the empty string.
pub(crate) fn text_of(name: &[u8]) -> &str
    ensures { result.now ≡ shown name.now }
{
    match str::from_utf8(name) {
        Ok(text) => text,
        Err(_) => "",
    }
}

/// The string for how signals were paired.
pub(crate) fn match_word(matching: Match) -> &'static str
    ensures { result.now ≡ match_kind matching }
{
    match matching {
        Match::Name => "name",
        Match::Position => "position",
    }
}

/// The string for the order of the variables.
pub(crate) fn order_word(kind: OrderKind) -> &'static str
    ensures { result.now ≡ order_word kind }
{
    match kind {
        OrderKind::Named(name) => name.word(),
        OrderKind::File => "file",
        OrderKind::Auto => "auto",
        OrderKind::Cones => "cones",
        OrderKind::Merge => "merge",
    }
}

/// The string for what a pair is compared as.
pub(crate) fn role_name(role: PairKind) -> &'static str
    ensures { result.now ≡ role_text role }
{
    match role {
        PairKind::Output => "output",
        PairKind::NextState => "next state",
    }
}

/// The string for one of the two netlists.
pub(crate) fn side_name(side: Side) -> &'static str
    ensures { result.now ≡ side_word side }
{
    match side {
        Side::First => "first",
        Side::Second => "second",
    }
}
