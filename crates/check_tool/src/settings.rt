//! The settings of a check, from the options of a run.
ghost use Rattle.std.specs.Prelude.{◌≡◌, ◌≤◌, IfOk};
ghost use Rattle.compare_built.specs.declared.strategy.Strategy.{Strategy as StrategyValue};
ghost use Rattle.command_line.specs.declared.options.OrderChoice.{OrderChoice as OrderValue};
ghost use Rattle.command_line.specs.Picking.{TakesPicks};
ghost use Rattle.compare_built.specs.Picking.{TakesPicks as MayPick};
ghost use Rattle.check_tool.specs.Running.{AreSettings, AreTargetsOf, IsKindAndName, IsPickedOf, limit_of};

use check_report::{Name, PairFilter, PairKind, PairName, Settings, Strategy};
use command_line::{Options, OrderChoice};
use compare_built::strategy::REQUESTS_PER_NODE;
use std::alloc::{AllocError, Global};

/// The bytes of memory that a store takes for each node, with the growth of its tables. At most 27 were measured; it
/// would be 31 if no reference fitted in four bytes.
const STORED_BYTES: u64 = 36;

/// The bytes of memory that a wave takes for each request. About 84 were measured if several workers share it, and 30
/// with one worker.
const REQUEST_BYTES: u64 = 84;

/// The bytes of memory that are planned for each node of an attempt: those of the node, and those of as many requests
/// as a wave may have for it.
pub(crate) const NODE_BYTES: u64 = STORED_BYTES + REQUEST_BYTES * REQUESTS_PER_NODE;

/// Returns the most nodes that the options allow. With auto, cones and merge it is also bounded by the nodes for which
/// the memory suffices.
pub(crate) fn limit_of(options: &Options<'_>) -> u64
    ensures limit { result ≡ limit_of options.now }
    ensures some { 1 ≤ result }
    ensures few { result ≤ 4294967295 }
{
    match options.order {
        OrderChoice::Auto | OrderChoice::Cones | OrderChoice::Merge => {
            options.limit.min(options.memory / NODE_BYTES)
        }
        OrderChoice::ConesByList(_) => options.limit.min(options.memory / NODE_BYTES),
        _ => options.limit,
    }
}

/// Returns what a name of the command line refers to: after `NEXT ` the next state of a register, and otherwise an
/// output.
fn kind_and_name(word: &str) -> (PairKind, &str)
    ensures { IsKindAndName word.now result.0 result.1.now }
{
    match word.strip_prefix("NEXT ") {
        Some(register) => (PairKind::NextState, register),
        None => (PairKind::Output, word),
    }
}

/// Returns the pair name for a name or pattern of the command line.
pub(crate) fn target_of(alloc: Global, word: &str) -> Result<PairName, AllocError>
    ensures { IfOk result (λ target. IsKindAndName word.now target.role target.name) }
{
    let (role, name) = kind_and_name(word);
    let name = Name::copied(alloc, name.as_bytes())?;
    Ok(PairName { role, name })
}

/// Returns the pair names for names or patterns of the command line.
pub(crate) fn targets_of(alloc: Global, words: &[&str]) -> Result<Vec<PairName>, AllocError>
    ensures { IfOk result (λ targets. AreTargetsOf words.now targets.items) }
{
    let mut targets = Vec::new(alloc);
    for word in words {
        targets.push(target_of(alloc, *word)?)?;
    }
    Ok(targets)
}

/// Returns the filter for the pairs that the options select.
pub(crate) fn picked_of(
    alloc: Global,
    picks: &PairFilter<&str>,
) -> Result<PairFilter<PairName>, AllocError>
    ensures { IfOk result (IsPickedOf picks.now) }
{
    match picks {
        PairFilter::All => Ok(PairFilter::All),
        PairFilter::Share(share) => Ok(PairFilter::Share(*share)),
        PairFilter::Only(words) => {
            let patterns = targets_of(alloc, words.as_slice())?;
            Ok(PairFilter::Only(patterns))
        }
    }
}

/// Returns the settings of a check in this order, of the pairs that the filter selects, with the names that are to be
/// explained.
pub(crate) fn settings_of(
    options: &Options<'_>,
    order: Strategy,
    picked: PairFilter<PairName>,
    explain: Vec<PairName>,
) -> Settings
    requires auto { order ≡ StrategyValue.Auto → options.now.order ≡ OrderValue.Auto }
    requires cones { order ≡ StrategyValue.Cones → options.now.order ≡ OrderValue.Cones }
    requires merge { order ≡ StrategyValue.Merge → options.now.order ≡ OrderValue.Merge }
    requires picks { TakesPicks options.now.order → MayPick order }
    requires picked { IsPickedOf options.now.picks picked }
    requires explain { AreTargetsOf options.now.explain.items explain.items }
    ensures { AreSettings options.now order picked result }
{
    Settings {
        matching: options.matching,
        order,
        picked,
        difference: options.difference,
        workers: options.workers,
        limit: limit_of(options),
        sizes: options.sizes,
        json: options.json,
        explain,
        assignment: options.assignment,
        vcd: options.vcd.is_some(),
        causes: options.causes,
    }
}
