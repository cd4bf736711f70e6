//! The options that a command line asks for.
ghost use Rattle.std.specs.Prelude.{◌≡◌, ◌≢◌, ◌≤◌, false};
ghost use Rattle.command_line.specs.declared.options.OrderChoice.TheVariants.{Auto, Cones, Merge};
ghost use Rattle.report_text.specs.declared.pair_filter.PairFilter.TheVariants.{All};
ghost use Rattle.command_line.specs.Picking.{TakesPicks};

use net_names::order::Match;
use net_names::order_name::OrderName;
use report_text::{Assignment, Difference, PairFilter};

/// The order of the variables that is asked for. Each but the last seven is a named order of `net_order` or `group_order`.
#[derive(Clone, Copy, Drop, Debug, PartialEq, Eq)]
pub enum OrderChoice<'a> {
    Named(OrderName),
    /// The best of `MsbFirst`, `Weights` and `ForceGroups` is to be found.
    Best,
    /// One of these three is to be found, or else orders for each pair; the report is as in declared order.
    Auto,
    /// Orders are to be found for each pair; the report is as in declared order.
    Cones,
    /// As `Cones`, with an attempt before the others in the order of a file with names, whose path this is. Names that
    /// are not variables below a pair are ignored, and variables that the file lacks follow.
    ConesByList(&'a str),
    /// As `Cones`, after equal inner signals of both netlists were merged.
    Merge,
    /// The path of a file that lists each variable once.
    File(&'a str),
    /// The path of a file with names. Those that are no variables are ignored, and variables that it lacks follow.
    Extended(&'a str),
}

/// Where the netlists come from.
#[derive(Clone, Copy, Drop, Debug, PartialEq, Eq)]
pub enum Texts<'a> {
    /// Both from standard input, with a line `%%` between them.
    Input,
    /// The paths of two files.
    Files(&'a str, &'a str),
    /// The whole of standard input as the first, and the path of the second.
    InputAndFile(&'a str),
    /// The path of the first, and the whole of standard input as the second.
    FileAndInput(&'a str),
    /// Standard input as both, which is refused.
    InputTwice,
    /// Only one path, which is refused.
    One,
}

/// All options of a command line. The `ghost` facts are what the program needs of them.
#[derive(Drop, Debug)]
pub struct Options<'a> {
    pub matching: Match,
    pub order: OrderChoice<'a>,
    /// Which pairs are compared. After `NEXT ` a pattern is for next states only.
    pub picks: PairFilter<&'a str>,
    /// The path of the condition's netlist, if there is a condition.
    pub given: Option<&'a str>,
    /// The path of the file with pairs of names, if some signals have other names in the second netlist.
    pub pairs: Option<&'a str>,
    /// How many threads work, 1 to 16.
    pub workers: u32,
    /// The most nodes of all diagrams, unless the memory of the orders auto, cones and merge holds fewer.
    pub limit: u64,
    /// How many bytes of memory the nodes may take by the orders auto, cones and merge.
    pub memory: u64,
    /// After how many seconds the run stops; None if it does not.
    pub seconds: Option<u64>,
    /// Whether the report has the sizes of diagrams. A report by auto, cones or merge has none.
    pub sizes: bool,
    /// Whether the order of the variables is printed, and nothing compared.
    pub print_order: bool,
    /// Whether the report is one JSON object instead of lines.
    pub json: bool,
    /// Whether standard error gets more than faults.
    pub verbose: bool,
    pub texts: Texts<'a>,
    /// The pairs that are explained after the report, as its lines name them.
    pub explain: Vec<&'a str>,
    /// Which variables the assignments of the report show; None if the option is not given.
    pub assignment: Option<Assignment>,
    /// The path of the VCD with all values at the first assignment at which a pair differs, if one is asked for.
    pub vcd: Option<&'a str>,
    /// Whether the report, which is a JSON object then, has the causes of differences.
    pub causes: bool,
    /// Which difference is wanted by the orders auto, cones and merge.
    pub difference: Difference,
    ghost some_workers: { 1 ≤ workers },
    ghost few_workers: { workers ≤ 16 },
    ghost some_nodes: { 1 ≤ limit },
    ghost few_nodes: { limit ≤ 4294967295 },
    ghost some_memory: { 16777216 ≤ memory },
    ghost no_sizes: { order ≡ Auto → sizes ≡ false },
    ghost no_cones_sizes: { order ≡ Cones → sizes ≡ false },
    ghost no_cones_in_print: { order ≡ Cones → print_order ≡ false },
    ghost no_merge_sizes: { order ≡ Merge → sizes ≡ false },
    ghost no_merge_in_print: { order ≡ Merge → print_order ≡ false },
    ghost picks_by_cones: { picks ≢ All → TakesPicks order },
}
