//! The settings of a comparison.
ghost use Rattle.std.specs.Prelude.{◌≡◌, ◌≢◌, ◌≤◌, false};
ghost use Rattle.compare_built.specs.declared.strategy.Strategy.TheVariants.{Auto, Cones, Merge};
ghost use Rattle.report_text.specs.declared.pair_filter.PairFilter.TheVariants.{All};
ghost use Rattle.compare_built.specs.Picking.{TakesPicks};

use crate::strategy::Strategy;
use net_names::order::Match;
use report_text::{Assignment, Difference, PairFilter, PairName};

/// How two netlists are compared and reported. The ghost fields are invariants: they say which combinations of settings
/// are allowed.
#[derive(Drop)]
pub struct Settings {
    /// How inputs, outputs and registers are paired: by name or by position.
    pub matching: Match,
    /// Where the order of the variables comes from.
    pub order: Strategy,
    /// Which pairs are compared.
    pub picked: PairFilter<PairName>,
    /// Which difference is reported of a pair that is judged by its cones. In a given order, in that of a candidate and
    /// with `Best` it is always the least.
    pub difference: Difference,
    /// The number of worker threads, from 1 to 16. Pairs that are judged by their cones at the same time share them.
    pub workers: u32,
    /// The most nodes that the store may hold, from 1 to 4,294,967,295. If orders are tried, it is the last of their
    /// budgets.
    pub limit: u64,
    /// Whether the report has the sizes of the diagrams. It cannot if it is in another order than the diagrams.
    pub sizes: bool,
    /// Whether the report is one JSON object. Otherwise it has a line for each pair.
    pub json: bool,
    /// The pairs that are explained after the report.
    pub explain: Vec<PairName>,
    /// Which variables the assignments of the report show: all of them if it is None. If it is set, assignments in JSON
    /// have the values of buses too.
    pub assignment: Option<Assignment>,
    /// Whether the values at the difference of the first pair that differs are written as a VCD.
    pub vcd: bool,
    /// Whether a report as JSON has the causes: the first inner signals that differ, each with all pairs of which it is
    /// the first.
    pub causes: bool,
    ghost some_workers: { 1 ≤ workers },
    ghost few_workers: { workers ≤ 16 },
    ghost some_nodes: { 1 ≤ limit },
    ghost few_nodes: { limit ≤ 4294967295 },
    ghost no_sizes: { order ≡ Auto → sizes ≡ false },
    ghost no_cones_sizes: { order ≡ Cones → sizes ≡ false },
    ghost no_merge_sizes: { order ≡ Merge → sizes ≡ false },
    ghost picks_by_cones: { picked ≢ All → TakesPicks order },
}
