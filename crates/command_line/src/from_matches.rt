//! Options from the matches that the parser has found.
ghost use Rattle.std.specs.Prelude.{◌≡◌, ◌≢◌, ◌≤◌, ℕ, List, [], Option, Some, None, Err, IfOk, IfSome, IsSomeAnd, codes, map, option_map};
ghost use Rattle.clap.specs.Words.{first_of, found_of, one_of, rows_of};
ghost use Rattle.command_line.specs.Words.{IsDifference, IsMatching, flag_of, default_order_of, IsChoice, IsOrderIn, IsPickingOrder, IsForm, IsAssignment, IsNumberIn};
ghost use Rattle.command_line.specs.Words.{default_limit, IsLimit, IsMemory, IsSeconds, GiveBadShare, IsShare, HaveConflict, ArePicks, AreTexts};
ghost use Rattle.command_line.specs.Words.{AreOptions, are_picked, explained_in, names_in, share_in};
ghost use Rattle.command_line.specs.declared.options.OrderChoice.{OrderChoice as ChoiceValue};
ghost use Rattle.report_text.specs.declared.outcome.Share.{Share as ShareValue};

use crate::options::{Options, OrderChoice, Texts};
use crate::share::share_of;
use crate::size::memory_of;
use crate::values::{is_asked, names_of, word_of};
use clap::ArgMatches;
use net_names::order::Match;
use net_names::order_name::OrderName;
use report_text::{Assignment, Difference, PairFilter};
use std::alloc::{AllocError, Global};

/// The bytes of memory if none are given. The parser has the same default.
const DEFAULT_MEMORY: u64 = 4_294_967_296;

/// Why no pairs can be picked.
#[derive(Clone, Copy, Drop)]
pub(crate) enum BadPicks {
    /// The value of `--share` is no share.
    Share,
    /// An allocation was refused.
    OutOfMemory,
}

/// The bytes of memory; None if the value is no such number, or too small.
pub(crate) fn memory_in(word: Option<&str>) -> Option<u64>
    ensures memory { IfSome result (λ n. IfSome (option_map (λ s. s.now) word.entry) (λ text. IsMemory text n)) }
    ensures enough { IfSome result (λ n. 16777216 ≤ n) }
    ensures none { result ≡ None → IsSomeAnd (option_map (λ s. s.now) word.entry) (λ text. (n : ℕ) → IsMemory text n → ⊥) }
{
    match word {
        Some(text) => memory_of(text),
        None => Some(DEFAULT_MEMORY),
    }
}

/// By position if that value is given, otherwise by name.
fn matching_of(word: Option<&str>) -> Match
    ensures { IsMatching (option_map (λ s. s.now) word.entry) result }
{
    match word {
        Some("position") => Match::Position,
        _ => Match::Name,
    }
}

/// The order in a file, extended if that is asked for.
fn order_in_file<'a>(path: &'a str, extend: bool) -> OrderChoice<'a>
    ensures { (word : Option (List ℕ)) → (default_order : ChoiceValue) → IsChoice (Some path.entry.now) word extend default_order result }
{
    if extend {
        OrderChoice::Extended(path)
    } else {
        OrderChoice::File(path)
    }
}

/// The order in a file if one is given; otherwise the order that the value names, or the default if there is no value.
fn order_of<'a>(
    path: Option<&'a str>,
    word: Option<&str>,
    extend: bool,
    default_order: OrderChoice<'a>,
) -> OrderChoice<'a>
    ensures { IsChoice (option_map (λ s. s.now) path.entry) (option_map (λ s. s.now) word.entry) extend default_order.entry result }
{
    if let Some(path) = path {
        return order_in_file(path, extend);
    }
    match word {
        Some("best") => OrderChoice::Best,
        Some("auto") => OrderChoice::Auto,
        Some("cones") => OrderChoice::Cones,
        Some("merge") => OrderChoice::Merge,
        Some(name) => OrderChoice::Named(OrderName::of_word(name).unwrap_or(OrderName::Declared)),
        None => default_order,
    }
}

/// The order if none is given: declared with a limit, sizes or `--print-order`, otherwise auto.
pub(crate) fn default_order_in(matches: &ArgMatches<'_>) -> OrderChoice<'static>
    ensures { let rows = rows_of (found_of matches.now) in
        result ≡ default_order_of (first_of (codes "limit") rows) (flag_of (first_of (codes "sizes") rows))
        (flag_of (first_of (codes "print-order") rows)) }
{
    if word_of(matches, "limit").is_some()
        || is_asked(matches, "sizes")
        || is_asked(matches, "print-order")
    {
        OrderChoice::Named(OrderName::Declared)
    } else {
        OrderChoice::Auto
    }
}

/// The order in which picked pairs are judged: by their cones, first in the order of a file if one is given.
fn picking_order<'a>(path: Option<&'a str>) -> OrderChoice<'a>
    ensures { IsPickingOrder (option_map (λ s. s.now) path.entry) result }
{
    match path {
        Some(path) => OrderChoice::ConesByList(path),
        None => OrderChoice::Cones,
    }
}

/// The order that is asked for. If pairs are picked, it is by cones.
fn order_in<'a>(matches: &ArgMatches<'a>) -> OrderChoice<'a>
    ensures { IsOrderIn (rows_of (found_of matches.now)) result }
{
    if has_picks(matches) {
        return picking_order(word_of(matches, "order-file"));
    }
    order_of(
        word_of(matches, "order-file"),
        word_of(matches, "order"),
        is_asked(matches, "extend"),
        default_order_in(matches),
    )
}

/// Two files if two are given, with standard input for a `-`; standard input for both netlists if none is given.
fn texts_of<'a>(first: Option<&'a str>, second: Option<&'a str>) -> Texts<'a>
    ensures { AreTexts (option_map (λ s. s.now) first.entry) (option_map (λ s. s.now) second.entry) result }
{
    match (first, second) {
        (Some("-"), Some("-")) => Texts::InputTwice,
        (Some("-"), Some(second)) => Texts::InputAndFile(second),
        (Some(first), Some("-")) => Texts::FileAndInput(first),
        (Some(first), Some(second)) => Texts::Files(first, second),
        (None, None) => Texts::Input,
        _ => Texts::One,
    }
}

/// As JSON if that value is given.
fn is_json(word: Option<&str>) -> bool
    ensures { IsForm (option_map (λ s. s.now) word.entry) result }
{
    match word {
        Some("json") => true,
        _ => false,
    }
}

/// Which variables of an assignment are shown; None if the option is not given.
fn assignment_of(word: Option<&str>) -> Option<Assignment>
    ensures { IsAssignment (option_map (λ s. s.now) word.entry) result }
{
    match word {
        Some("ones") => Some(Assignment::Ones),
        Some("support") => Some(Assignment::Support),
        Some(_) => Some(Assignment::All),
        None => None,
    }
}

/// Any difference if that value is given, otherwise the least.
fn difference_of(word: Option<&str>) -> Difference
    ensures { IsDifference (option_map (λ s. s.now) word.entry) result }
{
    match word {
        Some("any") => Difference::AnyOne,
        _ => Difference::Least,
    }
}

/// Whether pairs are picked, by names or by a share.
pub(crate) fn has_picks(matches: &ArgMatches<'_>) -> bool
    ensures { let rows = rows_of (found_of matches.now) in result ≡ are_picked (names_in rows) (share_in rows) }
{
    match names_of(matches, "only") {
        Some([_, ..]) => true,
        _ => word_of(matches, "share").is_some(),
    }
}

/// The pairs of these names are picked.
fn named<'a>(alloc: Global, names: &[&'a str]) -> Result<PairFilter<&'a str>, BadPicks>
    requires { names.now ≢ [] }
    ensures picks { IfOk result (ArePicks (map (λ s. s.now) names.now) None) }
    ensures share { result ≢ Err BadPicks.Share }
{
    match names.to_vec(alloc) {
        Ok(names) => Ok(PairFilter::Only(names)),
        Err(_) => Err(BadPicks::OutOfMemory),
    }
}

/// The pairs of a share are picked, or all if there is no share.
fn shared<'a>(word: Option<&'a str>) -> Result<PairFilter<&'a str>, BadPicks>
    ensures picks { IfOk result (ArePicks [] (option_map (λ s. s.now) word.entry)) }
    ensures share { result ≡ Err BadPicks.Share → IsSomeAnd
        (option_map (λ s. s.now) word.entry) (λ text. (s : ShareValue) → IsShare text s → ⊥) }
{
    let Some(word) = word else {
        return Ok(PairFilter::All);
    };
    match share_of(word) {
        Some(share) => Ok(PairFilter::Share(share)),
        None => Err(BadPicks::Share),
    }
}

/// The pairs that are picked.
pub(crate) fn picks_in<'a>(
    alloc: Global,
    matches: &ArgMatches<'a>,
) -> Result<PairFilter<&'a str>, BadPicks>
    ensures picks { let rows = rows_of (found_of matches.now) in IfOk result (ArePicks (names_in rows) (share_in rows)) }
    ensures share { result ≡ Err BadPicks.Share → GiveBadShare (rows_of (found_of matches.now)) }
{
    match names_of(matches, "only") {
        Some(names) if !names.is_empty() => named(alloc, names),
        _ => shared(word_of(matches, "share")),
    }
}

/// The pairs that are to be explained, as they are named.
pub(crate) fn explained_in<'a>(
    alloc: Global,
    matches: &ArgMatches<'a>,
) -> Result<Vec<&'a str>, AllocError>
    ensures { IfOk result (λ words. map (λ s. s.now) words.items ≡ explained_in (rows_of (found_of matches.now))) }
{
    match names_of(matches, "explain") {
        Some(words) => words.to_vec(alloc),
        None => Ok(Vec::new(alloc)),
    }
}

/// The number of workers. The parser has a default, and has checked the range.
fn workers_of(matches: &ArgMatches<'_>) -> u32
    ensures some { 1 ≤ result }
    ensures few { result ≤ 16 }
    ensures number { IsNumberIn 1 16 (one_of (codes "workers") (rows_of (found_of matches.now))) result }
{
    matches.get_one("workers").unwrap_or(0).clamp(1, 16)
}

/// The limit of nodes if none is given.
fn default_limit(order: OrderChoice<'_>) -> u64
    ensures limit { result ≡ default_limit order.entry }
    ensures some { 1 ≤ result }
    ensures few { result ≤ 4294967295 }
{
    match order {
        OrderChoice::Auto | OrderChoice::Cones | OrderChoice::Merge => 4_294_967_295,
        OrderChoice::ConesByList(_) => 4_294_967_295,
        _ => 67_108_864,
    }
}

/// The limit of nodes. The parser has checked the range.
fn limit_of(matches: &ArgMatches<'_>, order: OrderChoice<'_>) -> u64
    ensures some { 1 ≤ result }
    ensures few { result ≤ 4294967295 }
    ensures number { IsLimit (one_of (codes "limit") (rows_of (found_of matches.now))) order.entry result }
{
    matches
        .get_one("limit")
        .unwrap_or(default_limit(order))
        .clamp(1, 4_294_967_295)
}

/// After how many seconds the run stops; None if it is not to stop. The parser has checked the range.
fn seconds_of(matches: &ArgMatches<'_>) -> Option<u64>
    ensures { IsSeconds (one_of (codes "seconds") (rows_of (found_of matches.now))) result }
{
    matches.get_one("seconds")
}

/// The options that the matches ask for, with those that may have been refused as arguments.
pub(crate) fn options_of<'a>(
    matches: &ArgMatches<'a>,
    memory: u64,
    picks: PairFilter<&'a str>,
    explain: Vec<&'a str>,
) -> Options<'a>
    requires without_conflict { HaveConflict (rows_of (found_of matches.now)) → ⊥ }
    requires enough { 16777216 ≤ memory }
    requires memory { IfSome (first_of (codes "memory") (rows_of (found_of matches.now))) (λ text. IsMemory text memory) }
    requires picks { let rows = rows_of (found_of matches.now) in ArePicks (names_in rows) (share_in rows) picks }
    requires explain { map (λ s. s.now) explain.items ≡ explained_in (rows_of (found_of matches.now)) }
    ensures { AreOptions (rows_of (found_of matches.now)) result }
{
    let order = order_in(matches);
    Options {
        matching: matching_of(word_of(matches, "match")),
        order,
        picks,
        given: word_of(matches, "given"),
        pairs: word_of(matches, "pairs"),
        workers: workers_of(matches),
        limit: limit_of(matches, order),
        memory,
        seconds: seconds_of(matches),
        sizes: is_asked(matches, "sizes"),
        print_order: is_asked(matches, "print-order"),
        json: is_json(word_of(matches, "format")),
        verbose: is_asked(matches, "verbose"),
        texts: texts_of(word_of(matches, "FIRST"), word_of(matches, "SECOND")),
        explain,
        assignment: assignment_of(word_of(matches, "assignment")),
        vcd: word_of(matches, "vcd"),
        causes: is_asked(matches, "causes"),
        difference: difference_of(word_of(matches, "difference")),
    }
}
