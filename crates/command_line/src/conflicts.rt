//! Arguments that exclude each other.
ghost use Rattle.std.specs.Prelude.{◌≡◌, ◌↔◌, ◌⊎◌, Bool, true, IfSome, IsSomeAnd, IsTrue, MatchOption, bytes_eq, codes, option_map};
ghost use Rattle.clap.specs.Words.{found_of, rows_of};
ghost use Rattle.command_line.specs.Conflicts.{IsFirstConflict, IsFixedOrderOption, IsMemoryConflict, IsPickingOption, IsReportConflict};
ghost use Rattle.command_line.specs.Conflicts.{IsSearchOption};
ghost use Rattle.command_line.specs.declared.options.OrderChoice.{OrderChoice as ChoiceValue};
ghost use Rattle.command_line.specs.Words.{IsOrderIn, IsChoice, IsPickingName, IsSearchName, GiveTwoOrders, GiveTwoPicks, GiveSearch, GiveSearchWith};
ghost use Rattle.command_line.specs.Words.{GiveFixedOrder, GivePicksWithFixedOrder, GiveWholeOrderFile, GiveUnusedMemory, GiveUnusedExtend, AskForJson, GiveExplainConflict};
ghost use Rattle.command_line.specs.Words.{GiveUnusedVcd, GiveCausesConflict, GivePairsByPosition, HaveConflict, are_picked, names_in, share_in};

use crate::from_matches::{default_order_in, has_picks};
use crate::options::OrderChoice;
use crate::values::{is_asked, is_given, word_of};
use clap::ArgMatches;

/// Two arguments that exclude each other, as the refusal names them.
#[derive(Clone, Copy, Drop)]
pub(crate) struct Conflict {
    pub one: &'static str,
    pub other: &'static str,
}

/// Whether both an order and an order file are given.
fn has_two_orders(matches: &ArgMatches<'_>) -> bool
    ensures { IsTrue result ↔ GiveTwoOrders (rows_of (found_of matches.now)) }
{
    is_given(matches, "order") && is_given(matches, "order-file")
}

/// Whether pairs are picked both by names and by a share.
fn has_two_picks(matches: &ArgMatches<'_>) -> bool
    ensures { IsTrue result ↔ GiveTwoPicks (rows_of (found_of matches.now)) }
{
    is_given(matches, "only") && is_given(matches, "share")
}

/// Whether the value of `--order` names an order that has to be found: auto, cones or merge.
fn is_search_name(word: Option<&str>) -> bool
    ensures { IsTrue result ↔ IsSomeAnd (option_map (λ s. s.now) word.entry) IsSearchName }
{
    match word {
        Some("auto") => true,
        Some("cones") => true,
        Some("merge") => true,
        _ => false,
    }
}

/// Whether the value of `--order` names an order in which all pairs are compared: any but auto and cones.
fn is_fixed_name(word: Option<&str>) -> bool
    ensures { IsTrue result ↔ IsSomeAnd (option_map (λ s. s.now) word.entry) (λ w. IsPickingName w → ⊥) }
{
    match word {
        Some("auto") => false,
        Some("cones") => false,
        Some(_) => true,
        None => false,
    }
}

/// Whether an order is asked for that has to be found, or pairs are picked.
fn gives_search(matches: &ArgMatches<'_>) -> bool
    ensures { IsTrue result ↔ GiveSearch (rows_of (found_of matches.now)) }
{
    is_search_name(word_of(matches, "order")) || has_picks(matches)
}

/// Whether this is so, and the flag is given.
fn gives_search_with(matches: &ArgMatches<'_>, flag: &str) -> bool
    ensures { IsTrue result ↔ GiveSearchWith flag.now (rows_of (found_of matches.now)) }
{
    gives_search(matches) && is_asked(matches, flag)
}

/// Whether an order file is given that is not extended, so that it lists each variable of the whole netlists.
fn gives_whole_order_file(matches: &ArgMatches<'_>) -> bool
    ensures { IsTrue result ↔ GiveWholeOrderFile (rows_of (found_of matches.now)) }
{
    word_of(matches, "order-file").is_some() && !is_asked(matches, "extend")
}

/// Whether such a file is given, or an order other than auto and cones by its name.
fn gives_fixed_order(matches: &ArgMatches<'_>) -> bool
    ensures { IsTrue result ↔ GiveFixedOrder (rows_of (found_of matches.now)) }
{
    gives_whole_order_file(matches) || is_fixed_name(word_of(matches, "order"))
}

/// Whether pairs are picked, and such an order is given.
fn picks_with_fixed_order(matches: &ArgMatches<'_>) -> bool
    ensures { IsTrue result ↔ GivePicksWithFixedOrder (rows_of (found_of matches.now)) }
{
    has_picks(matches) && gives_fixed_order(matches)
}

/// Whether the order has to be found, by the order file, the value of `--order`, and the default if there is neither.
fn comes_to_search(path: Option<&str>, word: Option<&str>, default_order: OrderChoice<'_>) -> bool
    ensures { (extend : Bool) → let choice = IsChoice (option_map (λ s. s.now) path.entry)
        (option_map (λ s. s.now) word.entry) extend default_order.entry in
        IsTrue result ↔ (choice ChoiceValue.Auto ⊎ choice ChoiceValue.Cones ⊎ choice ChoiceValue.Merge) }
{
    match (path, word) {
        (Some(_), _) => false,
        (None, Some(word)) => is_search_name(Some(word)),
        (None, None) => matches!(
            default_order,
            OrderChoice::Auto | OrderChoice::Cones | OrderChoice::Merge
        ),
    }
}

/// Whether pairs are picked, or the order has to be found.
fn searches_order(matches: &ArgMatches<'_>) -> bool
    ensures { let rows = rows_of (found_of matches.now) in let choice = IsOrderIn rows in
        IsTrue result ↔ ((are_picked (names_in rows) (share_in rows) ≡ true) ⊎ choice ChoiceValue.Auto ⊎ choice ChoiceValue.Cones
        ⊎ choice ChoiceValue.Merge) }
{
    has_picks(matches)
        || comes_to_search(
            word_of(matches, "order-file"),
            word_of(matches, "order"),
            default_order_in(matches),
        )
}

/// Whether `--memory` is given for an order that does not use it.
fn has_unused_memory(matches: &ArgMatches<'_>) -> bool
    ensures { IsTrue result ↔ GiveUnusedMemory (rows_of (found_of matches.now)) }
{
    is_given(matches, "memory") && !searches_order(matches)
}

/// Whether `--extend` is given without an order file.
fn has_unused_extend(matches: &ArgMatches<'_>) -> bool
    ensures { IsTrue result ↔ GiveUnusedExtend (rows_of (found_of matches.now)) }
{
    is_asked(matches, "extend") && word_of(matches, "order-file").is_none()
}

/// Whether this is the value `json`.
fn is_json(word: Option<&str>) -> bool
    ensures { IsTrue result ↔ IsSomeAnd (option_map (λ s. s.now) word.entry) (λ w. bytes_eq w (codes "json") ≡ true) }
{
    match word {
        Some("json") => true,
        _ => false,
    }
}

/// Whether the report is asked for as one JSON object.
fn asks_for_json(matches: &ArgMatches<'_>) -> bool
    ensures { IsTrue result ↔ AskForJson (rows_of (found_of matches.now)) }
{
    is_json(word_of(matches, "format"))
}

/// Whether explanations are asked for together with something that has none.
fn has_explain_conflict(matches: &ArgMatches<'_>) -> bool
    ensures { IsTrue result ↔ GiveExplainConflict (rows_of (found_of matches.now)) }
{
    is_given(matches, "explain")
        && (is_asked(matches, "print-order")
            || is_given(matches, "share")
            || asks_for_json(matches))
}

/// Whether a VCD is asked for together with `--print-order`, which compares nothing.
fn has_unused_vcd(matches: &ArgMatches<'_>) -> bool
    ensures { IsTrue result ↔ GiveUnusedVcd (rows_of (found_of matches.now)) }
{
    is_given(matches, "vcd") && is_asked(matches, "print-order")
}

/// Whether causes are asked for together with something that has none.
fn has_causes_conflict(matches: &ArgMatches<'_>) -> bool
    ensures { IsTrue result ↔ GiveCausesConflict (rows_of (found_of matches.now)) }
{
    is_asked(matches, "causes")
        && (is_asked(matches, "print-order")
            || is_given(matches, "share")
            || !asks_for_json(matches))
}

/// Whether this is the value `position`.
fn is_position(word: Option<&str>) -> bool
    ensures { IsTrue result ↔ IsSomeAnd (option_map (λ s. s.now) word.entry) (λ w. bytes_eq w (codes "position") ≡ true) }
{
    match word {
        Some("position") => true,
        _ => false,
    }
}

/// Whether pairs of names are given together with a pairing by position.
fn has_pairs_by_position(matches: &ArgMatches<'_>) -> bool
    ensures { IsTrue result ↔ GivePairsByPosition (rows_of (found_of matches.now)) }
{
    is_given(matches, "pairs") && is_position(word_of(matches, "match"))
}

/// The argument with which there are no explanations, as the refusal names it.
fn explain_conflict(matches: &ArgMatches<'_>) -> &'static str
    ensures { IsReportConflict (codes "'--format json'") (rows_of (found_of matches.now)) result.now }
{
    if is_asked(matches, "print-order") {
        "'--print-order'"
    } else if is_given(matches, "share") {
        "'--share <K/N>'"
    } else {
        "'--format json'"
    }
}

/// The argument with which there are no causes, as the refusal names it.
fn causes_conflict(matches: &ArgMatches<'_>) -> &'static str
    ensures { IsReportConflict (codes "a report other than that of '--format json'") (rows_of (found_of matches.now)) result.now }
{
    if is_asked(matches, "print-order") {
        "'--print-order'"
    } else if is_given(matches, "share") {
        "'--share <K/N>'"
    } else {
        "a report other than that of '--format json'"
    }
}

/// The argument that does not use memory, as the refusal names it: if no order is given, the one that makes the
/// declared order the default.
fn memory_conflict(matches: &ArgMatches<'_>) -> &'static str
    ensures { IsMemoryConflict (rows_of (found_of matches.now)) result.now }
{
    if word_of(matches, "order").is_some() || word_of(matches, "order-file").is_some() {
        "an order other than auto, cones and merge"
    } else if is_asked(matches, "print-order") {
        "'--print-order', which means --order declared if no order is named"
    } else if is_asked(matches, "sizes") {
        "'--sizes', which means --order declared if no order is named"
    } else {
        "'--limit <N>', which means --order declared if no order is named; --order auto takes both"
    }
}

/// The argument that picks pairs, as the refusal names it.
fn picking_option(matches: &ArgMatches<'_>) -> &'static str
    ensures { IsPickingOption (rows_of (found_of matches.now)) result.now }
{
    if is_given(matches, "only") {
        "--only <NAME>"
    } else {
        "--share <K/N>"
    }
}

/// The argument that gives an order in which no pairs can be picked, as the refusal names it.
fn fixed_order(matches: &ArgMatches<'_>) -> &'static str
    ensures { IsFixedOrderOption (rows_of (found_of matches.now)) result.now }
{
    if gives_whole_order_file(matches) {
        "'--order-file <F>' without '--extend'"
    } else {
        "an order other than auto and cones"
    }
}

/// The argument that asks for an order that has to be found, as the refusal names it.
fn search_option(matches: &ArgMatches<'_>) -> &'static str
    ensures { IsSearchOption (rows_of (found_of matches.now)) result.now }
{
    match word_of(matches, "order") {
        Some("auto") => "--order auto",
        Some("cones") => "--order cones",
        Some("merge") => "--order merge",
        _ => picking_option(matches),
    }
}

/// The first two arguments that exclude each other; None if there are none.
pub(crate) fn conflict_in(matches: &ArgMatches<'_>) -> Option<Conflict>
    ensures any { MatchOption result (HaveConflict (rows_of (found_of matches.now)) → ⊥) (λ _. HaveConflict (rows_of (found_of matches.now))) }
    ensures first { IfSome result (λ conflict. IsFirstConflict (rows_of (found_of matches.now)) conflict.one.now conflict.other.now) }
{
    let named = if has_two_orders(matches) {
        ("--order <ORDER>", "'--order-file <F>'")
    } else if has_two_picks(matches) {
        ("--only <NAME>", "'--share <K/N>'")
    } else if gives_search_with(matches, "sizes") {
        (search_option(matches), "'--sizes'")
    } else if gives_search_with(matches, "print-order") {
        (search_option(matches), "'--print-order'")
    } else if picks_with_fixed_order(matches) {
        (picking_option(matches), fixed_order(matches))
    } else if has_unused_memory(matches) {
        ("--memory <SIZE>", memory_conflict(matches))
    } else if has_unused_extend(matches) {
        ("--extend", "an order other than that of '--order-file <F>'")
    } else if has_explain_conflict(matches) {
        ("--explain <NAME>", explain_conflict(matches))
    } else if has_unused_vcd(matches) {
        ("--vcd <FILE>", "'--print-order'")
    } else if has_causes_conflict(matches) {
        ("--causes", causes_conflict(matches))
    } else if has_pairs_by_position(matches) {
        ("--pairs <FILE>", "'--match position'")
    } else {
        return None;
    };
    let (one, other) = named;
    Some(Conflict { one, other })
}
