//! The arguments of the program, as the parser clap is given them.
ghost use Rattle.std.specs.Prelude.{◌≡◌, false, codes};
ghost use Rattle.clap.specs.Words.{new_rule, rule_of};
ghost use Rattle.command_line.specs.Words.{TakesMatches, TakesOrders, match_rule, order_rule, order_file_rule, extend_rule, given_rule, pairs_rule};
ghost use Rattle.command_line.specs.Words.{only_rule, share_rule, explain_rule, vcd_rule, workers_rule, limit_rule, memory_rule, seconds_rule};
ghost use Rattle.command_line.specs.Words.{sizes_rule, print_order_rule, TakesFormats, format_rule, TakesAssignments, assignment_rule};
ghost use Rattle.command_line.specs.Words.{causes_rule, TakesDifferences, difference_rule, verbose_rule};

use clap::{Arg, ArgAction, value_parser};
use std::alloc::Global;

// The values that these options accept. A value that is not in its list is refused by clap.
static MATCHES: [&str; 2] = ["name", "position"];

static ORDERS: [&str; 12] = [
    "auto",
    "cones",
    "merge",
    "declared",
    "depth",
    "interleave",
    "index",
    "force",
    "msb-first",
    "weights",
    "force-groups",
    "best",
];

static FORMATS: [&str; 2] = ["text", "json"];

static ASSIGNMENTS: [&str; 3] = ["all", "support", "ones"];

static DIFFERENCES: [&str; 2] = ["least", "any"];

/// `--match`: whether inputs, outputs and registers are paired by name or by position.
pub(crate) fn matching<'a>(alloc: Global) -> Arg<'a>
    ensures rule { rule_of result ≡ match_rule result.value_parser }
    ensures parser { TakesMatches result.value_parser }
    ensures local { result.global ≡ false }
{
    Arg::new(alloc, "match")
        .long("match")
        .value_name("HOW")
        .value_parser(MATCHES.as_slice())
        .default_value("name")
}

/// `--order`: the order of the variables.
pub(crate) fn order<'a>(alloc: Global) -> Arg<'a>
    ensures rule { rule_of result ≡ order_rule result.value_parser }
    ensures parser { TakesOrders result.value_parser }
    ensures local { result.global ≡ false }
{
    Arg::new(alloc, "order")
        .long("order")
        .value_name("ORDER")
        .value_parser(ORDERS.as_slice())
}

/// `--order-file`: a file with the order of the variables.
pub(crate) fn order_file<'a>(alloc: Global) -> Arg<'a>
    ensures rule { rule_of result ≡ order_file_rule }
    ensures local { result.global ≡ false }
{
    Arg::new(alloc, "order-file")
        .long("order-file")
        .value_name("F")
}

/// `--extend`: the order file may have names that are no variables, and lack variables.
pub(crate) fn extend<'a>(alloc: Global) -> Arg<'a>
    ensures rule { rule_of result ≡ extend_rule }
    ensures local { result.global ≡ false }
{
    Arg::new(alloc, "extend")
        .long("extend")
        .action(ArgAction::SetTrue)
}

/// `--given`: the netlist of a condition.
pub(crate) fn given<'a>(alloc: Global) -> Arg<'a>
    ensures rule { rule_of result ≡ given_rule }
    ensures local { result.global ≡ false }
{
    Arg::new(alloc, "given").long("given").value_name("FILE")
}

/// `--pairs`: a file with pairs of names for signals that have other names in the second netlist.
pub(crate) fn pairs<'a>(alloc: Global) -> Arg<'a>
    ensures rule { rule_of result ≡ pairs_rule }
    ensures local { result.global ≡ false }
{
    Arg::new(alloc, "pairs").long("pairs").value_name("FILE")
}

/// `--only`: names, or patterns of names, of the pairs that are judged.
pub(crate) fn only<'a>(alloc: Global) -> Arg<'a>
    ensures rule { rule_of result ≡ only_rule }
    ensures local { result.global ≡ false }
{
    Arg::new(alloc, "only")
        .long("only")
        .value_name("NAME")
        .action(ArgAction::Append)
}

/// `--share`: which share of the pairs is judged.
pub(crate) fn share<'a>(alloc: Global) -> Arg<'a>
    ensures rule { rule_of result ≡ share_rule }
    ensures local { result.global ≡ false }
{
    Arg::new(alloc, "share").long("share").value_name("K/N")
}

/// `--explain`: names of the pairs that are explained.
pub(crate) fn explain<'a>(alloc: Global) -> Arg<'a>
    ensures rule { rule_of result ≡ explain_rule }
    ensures local { result.global ≡ false }
{
    Arg::new(alloc, "explain")
        .long("explain")
        .value_name("NAME")
        .action(ArgAction::Append)
}

/// `--vcd`: the file for all values at the first assignment at which a pair differs.
pub(crate) fn vcd<'a>(alloc: Global) -> Arg<'a>
    ensures rule { rule_of result ≡ vcd_rule }
    ensures local { result.global ≡ false }
{
    Arg::new(alloc, "vcd").long("vcd").value_name("FILE")
}

/// `--workers`: how many threads work, 1 to 16.
pub(crate) fn workers<'a>(alloc: Global) -> Arg<'a>
    ensures rule { rule_of result ≡ workers_rule }
    ensures local { result.global ≡ false }
{
    Arg::new(alloc, "workers")
        .long("workers")
        .value_name("N")
        .value_parser(value_parser!(u32).range(1..=16))
        .default_value("4")
}

/// `--limit`: the most nodes of all diagrams.
pub(crate) fn limit<'a>(alloc: Global) -> Arg<'a>
    ensures rule { rule_of result ≡ limit_rule }
    ensures local { result.global ≡ false }
{
    Arg::new(alloc, "limit")
        .long("limit")
        .value_name("N")
        .value_parser(value_parser!(u64).range(1..=4_294_967_295))
}

/// `--memory`: how many bytes all nodes may take by the orders auto, cones and merge.
pub(crate) fn memory<'a>(alloc: Global) -> Arg<'a>
    ensures rule { rule_of result ≡ memory_rule }
    ensures local { result.global ≡ false }
{
    Arg::new(alloc, "memory")
        .long("memory")
        .value_name("SIZE")
        .default_value("4G")
}

/// `--seconds`: after how many seconds the run stops.
pub(crate) fn seconds<'a>(alloc: Global) -> Arg<'a>
    ensures rule { rule_of result ≡ seconds_rule }
    ensures local { result.global ≡ false }
{
    Arg::new(alloc, "seconds")
        .long("seconds")
        .value_name("N")
        .value_parser(value_parser!(u64).range(1..=4_294_967_295))
}

/// `--sizes`: whether the report has the numbers of nodes.
pub(crate) fn sizes<'a>(alloc: Global) -> Arg<'a>
    ensures rule { rule_of result ≡ sizes_rule }
    ensures local { result.global ≡ false }
{
    Arg::new(alloc, "sizes")
        .long("sizes")
        .action(ArgAction::SetTrue)
}

/// `--print-order`: whether the order is printed instead of a report.
pub(crate) fn print_order<'a>(alloc: Global) -> Arg<'a>
    ensures rule { rule_of result ≡ print_order_rule }
    ensures local { result.global ≡ false }
{
    Arg::new(alloc, "print-order")
        .long("print-order")
        .action(ArgAction::SetTrue)
}

/// `--format`: whether the report is lines or one JSON object.
pub(crate) fn format<'a>(alloc: Global) -> Arg<'a>
    ensures rule { rule_of result ≡ format_rule result.value_parser }
    ensures parser { TakesFormats result.value_parser }
    ensures local { result.global ≡ false }
{
    Arg::new(alloc, "format")
        .long("format")
        .value_name("FORM")
        .value_parser(FORMATS.as_slice())
        .default_value("text")
}

/// `--assignment`: which variables of an assignment are shown.
pub(crate) fn assignment<'a>(alloc: Global) -> Arg<'a>
    ensures rule { rule_of result ≡ assignment_rule result.value_parser }
    ensures parser { TakesAssignments result.value_parser }
    ensures local { result.global ≡ false }
{
    Arg::new(alloc, "assignment")
        .long("assignment")
        .value_name("WHICH")
        .value_parser(ASSIGNMENTS.as_slice())
}

/// `--causes`: whether the inner signals at which differences begin are listed.
pub(crate) fn causes<'a>(alloc: Global) -> Arg<'a>
    ensures rule { rule_of result ≡ causes_rule }
    ensures local { result.global ≡ false }
{
    Arg::new(alloc, "causes")
        .long("causes")
        .action(ArgAction::SetTrue)
}

/// `--difference`: whether the least difference of a pair is sought, or any will do.
pub(crate) fn difference<'a>(alloc: Global) -> Arg<'a>
    ensures rule { rule_of result ≡ difference_rule result.value_parser }
    ensures parser { TakesDifferences result.value_parser }
    ensures local { result.global ≡ false }
{
    Arg::new(alloc, "difference")
        .long("difference")
        .value_name("WHICH")
        .value_parser(DIFFERENCES.as_slice())
        .default_value("least")
}

/// `--verbose`: whether standard error gets more than faults.
pub(crate) fn verbose<'a>(alloc: Global) -> Arg<'a>
    ensures rule { rule_of result ≡ verbose_rule }
    ensures local { result.global ≡ false }
{
    Arg::new(alloc, "verbose")
        .long("verbose")
        .action(ArgAction::SetTrue)
}

/// The path of the first netlist.
pub(crate) fn first<'a>(alloc: Global) -> Arg<'a>
    ensures rule { rule_of result ≡ new_rule (codes "FIRST") }
    ensures local { result.global ≡ false }
{
    Arg::new(alloc, "FIRST")
}

/// The path of the second netlist.
pub(crate) fn second<'a>(alloc: Global) -> Arg<'a>
    ensures rule { rule_of result ≡ new_rule (codes "SECOND") }
    ensures local { result.global ≡ false }
{
    Arg::new(alloc, "SECOND")
}
