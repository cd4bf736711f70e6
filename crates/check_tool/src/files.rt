//! The files that a run opens, and what is read from them before the texts are compared.
ghost use Rattle.std.specs.Prelude.{◌≡◌, ◌∷◌, [], List, IfOk, IfErr, OnOk, IfSome, Some, is_ok, option_map};
ghost use Rattle.compare_built.specs.declared.strategy.Strategy.{Strategy as StrategyValue};
ghost use Rattle.command_line.specs.declared.options.OrderChoice.TheVariants.{Auto, Cones, Merge};
ghost use Rattle.command_line.specs.Picking.{TakesPicks};
ghost use Rattle.compare_built.specs.Picking.{TakesPicks as MayPick};
ghost use Rattle.compare_built.specs.Devices.{device_text};
ghost use Rattle.net_names.specs.OrderText.{IsOrderText};
ghost use Rattle.check_tool.specs.Opening.{Extends, HasFailedAt, Try, opened};
ghost use Rattle.check_tool.specs.Running.{IsOpenFault, order_paths, path_in, later_paths, IsGivenOf, IsGivenFrom, IsOrderOf};
ghost use Rattle.check_tool.specs.Running.{IsListFault, IsOrderFault, IsGivenFault, IsLaterFault, IsPairsFault, IsPairsOf};

use crate::fault::{FileRole, ToolFault};
use crate::folder::{Folder, OpenFault};
use check_report::{Candidate, Strategy};
use command_line::{Options, OrderChoice};
use net_names::names::Names;
use net_names::order::Order;
use net_names::order_file::read_order;
use net_names::order_name::OrderName;
use net_rename::pair::NamePair;
use net_rename::pair_file::read_pairs;
use std::alloc::Global;

/// Opens a file in the role that it has in the run.
pub(crate) fn open<F: Folder>(
    folder: &mut F,
    path: &str,
    place: FileRole,
) -> Result<F::File, ToolFault>
    ensures tried { Extends (F.tries folder.old) (F.tries folder.new) ((path.now, is_ok result) ∷ []) }
    ensures file { IfOk result (λ file. IfSome (F.bytes_at folder.old path.now) (λ text. F.File.remaining file ≡ Some text)) }
    ensures named { IfOk result (λ file. IfSome (F.File.origin file) (λ from. from ≡ path.now)) }
    ensures files_unchanged { F.bytes_at folder.new ≡ F.bytes_at folder.old }
    ensures unsaved { F.saves folder.new ≡ F.saves folder.old }
    ensures fault { IfErr result (λ fault. IsOpenFault place fault) }
{
    match folder.open(path) {
        Ok(file) => Ok(file),
        Err(OpenFault::Refused(obstacle)) => Err(ToolFault::CannotOpen(place, obstacle)),
        Err(OpenFault::OutOfMemory) => Err(ToolFault::OutOfMemory),
    }
}

/// Opens and reads the file of an order, and returns its names.
fn names_in<F: Folder>(alloc: Global, folder: &mut F, path: &str) -> Result<Names, ToolFault>
    ensures names { IfOk result (λ names. IfSome (F.bytes_at folder.old path.now) (λ text. IsOrderText text names)) }
    ensures opened { OnOk result (Extends (F.tries folder.old) (F.tries folder.new) (opened (path.now ∷ []))) }
    ensures files_unchanged { F.bytes_at folder.new ≡ F.bytes_at folder.old }
    ensures unsaved { F.saves folder.new ≡ F.saves folder.old }
    ensures fault { IfErr result (λ fault. (tries : List Try) × Extends (F.tries folder.old) (F.tries folder.new) tries
        × IsListFault (F.bytes_at folder.old) (HasFailedAt F.File.origin F.File.has_failed) path.now tries fault) }
{
    let mut file = open(folder, path, FileRole::Order)?;
    match read_order(alloc, &mut file) {
        Ok(names) => Ok(names),
        Err(fault) => Err(ToolFault::BadOrder(fault)),
    }
}

/// Returns the strategy for the order that the options choose. A file of names is opened and read.
fn order_of<F: Folder>(
    alloc: Global,
    folder: &mut F,
    choice: OrderChoice<'_>,
) -> Result<Strategy, ToolFault>
    ensures order { IfOk result (IsOrderOf (F.bytes_at folder.old) choice.entry) }
    ensures auto { IfOk result (λ c. c ≡ StrategyValue.Auto → choice.entry ≡ Auto) }
    ensures cones { IfOk result (λ c. c ≡ StrategyValue.Cones → choice.entry ≡ Cones) }
    ensures merge { IfOk result (λ c. c ≡ StrategyValue.Merge → choice.entry ≡ Merge) }
    ensures opened { OnOk result (Extends (F.tries folder.old) (F.tries folder.new) (opened (order_paths choice.entry))) }
    ensures files_unchanged { F.bytes_at folder.new ≡ F.bytes_at folder.old }
    ensures unsaved { F.saves folder.new ≡ F.saves folder.old }
    ensures fault { IfErr result (λ fault. (tries : List Try) × Extends (F.tries folder.old) (F.tries folder.new) tries
        × IsOrderFault (F.bytes_at folder.old) (HasFailedAt F.File.origin F.File.has_failed) choice.entry tries fault) }
{
    match choice {
        OrderChoice::Named(OrderName::Declared) => Ok(Strategy::One(Order::Declared)),
        OrderChoice::Named(OrderName::Depth) => Ok(Strategy::One(Order::Depth)),
        OrderChoice::Named(OrderName::Interleave) => Ok(Strategy::One(Order::Interleave)),
        OrderChoice::Named(OrderName::Index) => Ok(Strategy::One(Order::Index)),
        OrderChoice::Named(OrderName::Force) => Ok(Strategy::One(Order::Force)),
        OrderChoice::Named(OrderName::MsbFirst) => Ok(Strategy::Computed(Candidate::MsbFirst)),
        OrderChoice::Named(OrderName::Weights) => Ok(Strategy::Computed(Candidate::Weights)),
        OrderChoice::Named(OrderName::ForceGroups) => Ok(Strategy::Computed(
            Candidate::ForceGroups,
        )),
        OrderChoice::Best => Ok(Strategy::Best),
        OrderChoice::Auto => Ok(Strategy::Auto),
        OrderChoice::Cones => Ok(Strategy::Cones),
        OrderChoice::ConesByList(path) => {
            let names = names_in(alloc, folder, path)?;
            Ok(Strategy::ConesByList(names))
        }
        OrderChoice::Merge => Ok(Strategy::Merge),
        OrderChoice::File(path) => {
            let names = names_in(alloc, folder, path)?;
            Ok(Strategy::One(Order::Listed(names)))
        }
        OrderChoice::Extended(path) => {
            let names = names_in(alloc, folder, path)?;
            Ok(Strategy::One(Order::Extended(names)))
        }
    }
}

/// Opens the condition's file, if there is a condition.
fn open_given<F: Folder>(folder: &mut F, path: Option<&str>) -> Result<Option<F::File>, ToolFault>
    ensures given { IfOk result (λ file. IsGivenOf (F.bytes_at folder.old) path.entry (device_text F.File.remaining file)) }
    ensures named { IfOk result (λ file. IsGivenFrom path.entry (device_text F.File.origin file)) }
    ensures opened { OnOk result (Extends (F.tries folder.old) (F.tries folder.new) (opened (path_in path.entry))) }
    ensures files_unchanged { F.bytes_at folder.new ≡ F.bytes_at folder.old }
    ensures unsaved { F.saves folder.new ≡ F.saves folder.old }
    ensures fault { IfErr result (λ fault. (tries : List Try) × Extends (F.tries folder.old) (F.tries folder.new) tries
        × IsGivenFault path.entry tries fault) }
{
    match path {
        Some(path) => {
            let file = open(folder, path, FileRole::Given)?;
            Ok(Some(file))
        }
        None => Ok(None),
    }
}

/// Opens and reads the file of pairs, if there is one.
fn pairs_of<F: Folder>(
    alloc: Global,
    folder: &mut F,
    path: Option<&str>,
) -> Result<Option<Vec<NamePair>>, ToolFault>
    ensures pairs { IfOk result (λ pairs. IsPairsOf (F.bytes_at folder.old) path.entry (option_map (λ v. v.items) pairs)) }
    ensures opened { OnOk result (Extends (F.tries folder.old) (F.tries folder.new) (opened (path_in path.entry))) }
    ensures files_unchanged { F.bytes_at folder.new ≡ F.bytes_at folder.old }
    ensures unsaved { F.saves folder.new ≡ F.saves folder.old }
    ensures fault { IfErr result (λ fault. (tries : List Try) × Extends (F.tries folder.old) (F.tries folder.new) tries
        × IsPairsFault (F.bytes_at folder.old) (HasFailedAt F.File.origin F.File.has_failed) path.entry tries fault) }
{
    let Some(path) = path else {
        return Ok(None);
    };
    let mut file = open(folder, path, FileRole::Pairs)?;
    match read_pairs(alloc, &mut file) {
        Ok(pairs) => Ok(Some(pairs)),
        Err(fault) => Err(ToolFault::BadPairs(fault)),
    }
}

/// Opens the condition's file, then reads the file of pairs, then the file of the order. This sequence is part of the
/// contract (`opened`).
pub(crate) fn prepare<F: Folder>(
    alloc: Global,
    folder: &mut F,
    options: &Options<'_>,
) -> Result<(Option<F::File>, Strategy, Option<Vec<NamePair>>), ToolFault>
    ensures given { IfOk result (λ r. IsGivenOf (F.bytes_at folder.old) options.now.given (device_text F.File.remaining r.0)) }
    ensures named { IfOk result (λ r. IsGivenFrom options.now.given (device_text F.File.origin r.0)) }
    ensures pairs { IfOk result (λ r. IsPairsOf (F.bytes_at folder.old) options.now.pairs (option_map (λ v. v.items) r.2)) }
    ensures order { IfOk result (λ r. IsOrderOf (F.bytes_at folder.old) options.now.order r.1) }
    ensures auto { IfOk result (λ r. r.1 ≡ StrategyValue.Auto → options.now.order ≡ Auto) }
    ensures cones { IfOk result (λ r. r.1 ≡ StrategyValue.Cones → options.now.order ≡ Cones) }
    ensures merge { IfOk result (λ r. r.1 ≡ StrategyValue.Merge → options.now.order ≡ Merge) }
    ensures picks { IfOk result (λ r. TakesPicks options.now.order → MayPick r.1) }
    ensures opened { OnOk result (Extends (F.tries folder.old) (F.tries folder.new) (opened (later_paths options.now))) }
    ensures files_unchanged { F.bytes_at folder.new ≡ F.bytes_at folder.old }
    ensures unsaved { F.saves folder.new ≡ F.saves folder.old }
    ensures fault { IfErr result (λ fault. (tries : List Try) × Extends (F.tries folder.old) (F.tries folder.new) tries
        × IsLaterFault (F.bytes_at folder.old) (HasFailedAt F.File.origin F.File.has_failed) options.now tries fault) }
{
    let given = open_given(folder, options.given)?;
    let pairs = pairs_of(alloc, folder, options.pairs)?;
    let order = order_of(alloc, folder, options.order)?;
    Ok((given, order, pairs))
}
