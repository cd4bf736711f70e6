//! The name that a fault refuses, among those that select pairs or those that are to be explained.
ghost use Rattle.std.specs.Prelude.{◌≡◌, ◌++◌, ◌∷◌, [], IfOk, IfSome, string_bytes};
ghost use Rattle.net_bench.specs.Circuit.{circuit};
ghost use Rattle.compare_built.specs.Check.{Gives};
ghost use Rattle.check_tool.specs.Helping.{names_text, picked_names, refused_names, refused_paths, IsFirstCircuit, IsQuoted};
ghost use Rattle.check_tool.specs.Helping.{IsFirstWord, IsKnownPattern, IsKnownTarget, IsRefusedName, IsUnknownTargetWord, IsUnknownPick};
ghost use Rattle.check_tool.specs.Helping.{IsUnknownPattern, IsUnknownTarget};
ghost use Rattle.check_tool.specs.Opening.{OpensAgain};
ghost use Rattle.check_tool.specs.Running.{first_paths};

use crate::fault::ToolFault;
use crate::folder::Folder;
use crate::help::file_of_first;
use crate::settings::target_of;
use check_report::{CheckFault, PairFilter, has_pair, has_picked};
use command_line::Options;
use net_bench::netlist::Netlist;
use net_bench::reader::read_bench;
use std::alloc::{AllocError, Global};

/// Returns the patterns that select pairs.
fn picked_names<'o, 'a>(picks: &'o PairFilter<&'a str>) -> &'o [&'a str]
    ensures { result.now ≡ picked_names picks.now }
{
    match picks {
        PairFilter::Only(names) => names.as_slice(),
        _ => &[],
    }
}

/// Returns the names of which a fault refuses one: those that select pairs, or those that are to be explained.
pub(crate) fn refused_names<'o, 'a>(options: &'o Options<'a>, fault: ToolFault) -> &'o [&'a str]
    ensures { result.now ≡ refused_names options.now fault }
{
    match fault {
        ToolFault::Check(CheckFault::Only) => picked_names(&options.picks),
        ToolFault::Check(CheckFault::Explain) => options.explain.as_slice(),
        _ => &[],
    }
}

/// Returns a text with these names after it, each after a blank.
pub(crate) fn with_names(alloc: Global, text: &str, names: &[&str]) -> Result<String, AllocError>
    ensures { IfOk result (λ s. string_bytes s ≡ text.now ++ names_text names.now) }
{
    let mut both = String::from_str(alloc, text)?;
    for name in names {
        both.push_str(" ")?;
        both.push_str(name)?;
    }
    Ok(both)
}

/// Opens and reads a file again, and returns its netlist. There is none if it is not a regular file, if it is gone or
/// is no netlist any more, or if memory is refused.
#[tactic(auto, using(crate::proofs::Composing::extends_none, crate::proofs::Quoting::tried_once, crate::proofs::Naming::gives_again))]
fn read_again<F: Folder>(alloc: Global, folder: &mut F, path: &str) -> Option<Netlist>
    ensures read { IfSome result (λ net. Gives (F.bytes_at folder.old path.now) (circuit net)) }
    ensures tried { OpensAgain (F.tries folder.old) (F.tries folder.new) (path.now ∷ []) }
    ensures unsaved { F.saves folder.new ≡ F.saves folder.old }
{
    if !folder.is_regular(path) {
        return None;
    }
    let mut file = folder.open(path).ok()?;
    read_bench(alloc, &mut file).ok()
}

/// Returns the first netlist, if it is in a file that can be read again.
#[tactic(auto, using(crate::proofs::Composing::extends_none))]
fn first_netlist<F: Folder>(alloc: Global, folder: &mut F, options: &Options<'_>) -> Option<Netlist>
    ensures read { IfSome result (λ net. IsFirstCircuit (F.bytes_at folder.old) options.now (circuit net)) }
    ensures tried { OpensAgain (F.tries folder.old) (F.tries folder.new) (first_paths options.now.texts) }
    ensures unsaved { F.saves folder.new ≡ F.saves folder.old }
{
    let path = file_of_first(options.texts)?;
    read_again(alloc, folder, path)
}

/// Returns the first of these patterns that matches no output and no register.
fn unknown_pattern_in<'a>(alloc: Global, net: &Netlist, words: &[&'a str]) -> Option<&'a str>
    ensures { let a = circuit net.now in IfSome result (IsFirstWord (IsKnownPattern a) (IsUnknownPattern a) words.now) }
{
    for word in words {
        let Ok(pattern) = target_of(alloc, *word) else {
            return None;
        };
        if !has_picked(net, &pattern) {
            return Some(*word);
        }
    }
    None
}

/// Returns the first of these names that is the name of no output and no register.
fn unknown_target_in<'a>(alloc: Global, net: &Netlist, words: &[&'a str]) -> Option<&'a str>
    ensures { let a = circuit net.now in IfSome result (IsFirstWord (IsKnownTarget a) (IsUnknownTarget a) words.now) }
{
    for word in words {
        let Ok(target) = target_of(alloc, *word) else {
            return None;
        };
        if !has_pair(net, &target) {
            return Some(*word);
        }
    }
    None
}

/// Returns the first pattern that matches no output and no register of the first netlist, if that can be read again.
fn unknown_pick<'a, F: Folder>(
    alloc: Global,
    folder: &mut F,
    options: &Options<'a>,
) -> Option<&'a str>
    ensures unknown { IfSome result (IsUnknownPick (F.bytes_at folder.old) options.now) }
    ensures tried { OpensAgain (F.tries folder.old) (F.tries folder.new) (first_paths options.now.texts) }
    ensures unsaved { F.saves folder.new ≡ F.saves folder.old }
{
    let Some(net) = first_netlist(alloc, folder, options) else {
        return None;
    };
    unknown_pattern_in(alloc, &net, picked_names(&options.picks))
}

/// Returns the first name to be explained that the first netlist does not have, if that can be read again.
fn unknown_target_word<'a, F: Folder>(
    alloc: Global,
    folder: &mut F,
    options: &Options<'a>,
) -> Option<&'a str>
    ensures unknown { IfSome result (IsUnknownTargetWord (F.bytes_at folder.old) options.now) }
    ensures tried { OpensAgain (F.tries folder.old) (F.tries folder.new) (first_paths options.now.texts) }
    ensures unsaved { F.saves folder.new ≡ F.saves folder.old }
{
    let Some(net) = first_netlist(alloc, folder, options) else {
        return None;
    };
    unknown_target_in(alloc, &net, options.explain.as_slice())
}

/// Returns the name that a fault refuses. If there is only one name, it is that one; otherwise it is the first that the
/// first netlist does not have.
fn refused_name<'a, F: Folder>(
    alloc: Global,
    folder: &mut F,
    options: &Options<'a>,
    fault: ToolFault,
) -> Option<&'a str>
    ensures named { IfSome result (IsRefusedName (F.bytes_at folder.old) options.now fault) }
    ensures tried { OpensAgain (F.tries folder.old) (F.tries folder.new) (refused_paths options.now fault) }
    ensures unsaved { F.saves folder.new ≡ F.saves folder.old }
{
    let names = refused_names(options, fault);
    if names.len() == 1 {
        return Some(names[0]);
    }
    match fault {
        ToolFault::Check(CheckFault::Only) => unknown_pick(alloc, folder, options),
        ToolFault::Check(CheckFault::Explain) => unknown_target_word(alloc, folder, options),
        _ => None,
    }
}

/// Returns a copy of the name that a fault refuses, if it is found and there is memory for it.
pub(crate) fn name_of_refused<F: Folder>(
    alloc: Global,
    folder: &mut F,
    options: &Options<'_>,
    fault: ToolFault,
) -> Option<String>
    ensures quoted { IfSome result (λ s. IsQuoted (F.bytes_at folder.old) options.now fault (string_bytes s)) }
    ensures tried { OpensAgain (F.tries folder.old) (F.tries folder.new) (refused_paths options.now fault) }
    ensures unsaved { F.saves folder.new ≡ F.saves folder.old }
{
    let name = refused_name(alloc, folder, options, fault)?;
    String::from_str(alloc, name).ok()
}
