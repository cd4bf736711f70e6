//! The second line of a fault: where the fault is, what helps against it, and the part of the file that it refers to.
ghost use Rattle.std.specs.Prelude.{◌≡◌, ◌∷◌, [], Some, IfOk, IfSome, string_bytes};
ghost use Rattle.check_tool.specs.Helping.{first_name, second_name, in_text, on_line, where_of, text_location, order_location, given_location};
ghost use Rattle.check_tool.specs.Helping.{file_location, fault_location, help_line, help_text, help_quoting, refused_paths, text_part};
ghost use Rattle.check_tool.specs.Helping.{order_part, pairs_part, pairs_location, fault_part};
ghost use Rattle.check_tool.specs.Running.{first_paths, second_paths, order_paths, path_in};

use crate::fault::{FileRole, ToolFault};
use crate::names::{refused_names, with_names};
use crate::remedy::{help_against, help_shown};
use check_report::CheckFault;
use command_line::{Options, OrderChoice, Texts};
use net_bench::fault::BenchFault;
use net_names::order::OrderFault;
use net_rename::fault::PairsFault;
use std::alloc::{AllocError, Global};

/// The location of a fault.
#[derive(Clone, Copy, Drop)]
pub(crate) enum Location<'a> {
    /// The fault is not in a text.
    NoLocation,
    /// In a text, which has this name: its path, or what it is if it has no path.
    Text(&'a str),
    /// In a line of a text, counted from 1.
    Line(&'a str, u32),
}

/// Returns the name of the first text.
fn name_of_first<'a>(texts: Texts<'a>) -> &'a str
    ensures { result.now ≡ first_name texts.entry }
{
    match texts {
        Texts::Files(first, _) | Texts::FileAndInput(first) => first,
        Texts::InputAndFile(_) => "standard input",
        _ => "first text of standard input",
    }
}

/// Returns the name of the second text.
fn name_of_second<'a>(texts: Texts<'a>) -> &'a str
    ensures { result.now ≡ second_name texts.entry }
{
    match texts {
        Texts::Files(_, second) | Texts::InputAndFile(second) => second,
        Texts::FileAndInput(_) => "standard input",
        _ => "second text of standard input",
    }
}

/// Returns the location of a fault in a text of this name.
fn location_in_text<'a>(name: &'a str, fault: BenchFault) -> Location<'a>
    ensures { where_of result ≡ text_location name.now fault }
{
    match fault {
        BenchFault::BadByte { line }
        | BenchFault::BadStatement { line }
        | BenchFault::UnknownGate { line }
        | BenchFault::WrongOperands { line }
        | BenchFault::Redefined { line }
        | BenchFault::TooMany { line }
        | BenchFault::Undefined { line }
        | BenchFault::Cycle { line } => Location::Line(name, line),
        BenchFault::TooLong | BenchFault::Read | BenchFault::OutOfMemory => Location::Text(name),
    }
}

/// Returns the location of a fault in the file of an order. It has none if the order is not from a file.
fn location_in_order<'a>(choice: OrderChoice<'a>, fault: OrderFault) -> Location<'a>
    ensures { where_of result ≡ order_location choice.entry fault }
{
    let (OrderChoice::File(path) | OrderChoice::Extended(path) | OrderChoice::ConesByList(path)) =
        choice
    else {
        return Location::NoLocation;
    };
    match fault {
        OrderFault::BadName { line } => Location::Line(path, line),
        OrderFault::CountsDiffer | OrderFault::TooManyInputs => Location::NoLocation,
        _ => Location::Text(path),
    }
}

/// Returns the location of a fault in the condition.
fn location_in_given<'a>(path: Option<&'a str>, fault: BenchFault) -> Location<'a>
    ensures { where_of result ≡ given_location path.entry fault }
{
    match path {
        Some(path) => location_in_text(path, fault),
        None => Location::NoLocation,
    }
}

/// Returns the location of a fault of a whole file.
fn location_in_file<'a>(path: Option<&'a str>) -> Location<'a>
    ensures { where_of result ≡ file_location path.entry }
{
    match path {
        Some(path) => Location::Text(path),
        None => Location::NoLocation,
    }
}

/// Returns the location of a fault in the file of pairs.
fn location_in_pairs<'a>(path: Option<&'a str>, fault: PairsFault) -> Location<'a>
    ensures { where_of result ≡ pairs_location path.entry fault }
{
    let Some(path) = path else {
        return Location::NoLocation;
    };
    match fault {
        PairsFault::BadLine { line }
        | PairsFault::UnknownFirst { line }
        | PairsFault::UnknownSecond { line }
        | PairsFault::Repeated { line }
        | PairsFault::Taken { line } => Location::Line(path, line),
        PairsFault::TooLong | PairsFault::Read | PairsFault::OutOfMemory => Location::Text(path),
    }
}

/// Returns the location of a fault.
fn location_of<'a>(options: &Options<'a>, fault: ToolFault) -> Location<'a>
    ensures { where_of result ≡ fault_location options.now.texts options.now.given options.now.pairs options.now.vcd options.now.order fault }
{
    match fault {
        ToolFault::CannotOpen(FileRole::First, _) => Location::Text(name_of_first(options.texts)),
        ToolFault::CannotOpen(FileRole::Second, _) => Location::Text(name_of_second(options.texts)),
        ToolFault::CannotOpen(FileRole::Given, _) => location_in_given(
            options.given,
            BenchFault::Read,
        ),
        ToolFault::CannotOpen(FileRole::Pairs, _) => location_in_file(options.pairs),
        ToolFault::CannotOpen(FileRole::Order, _) => location_in_order(
            options.order,
            OrderFault::Read,
        ),
        ToolFault::CannotSave(_) => location_in_file(options.vcd),
        ToolFault::BadPairs(fault) => location_in_pairs(options.pairs, fault),
        ToolFault::BadOrder(fault) => location_in_order(options.order, fault),
        ToolFault::Check(CheckFault::First(fault)) => {
            location_in_text(name_of_first(options.texts), fault)
        }
        ToolFault::Check(CheckFault::Second(fault)) => {
            location_in_text(name_of_second(options.texts), fault)
        }
        ToolFault::Check(CheckFault::Given(fault)) => location_in_given(options.given, fault),
        ToolFault::Check(CheckFault::GivenOutputs) => {
            location_in_given(options.given, BenchFault::Read)
        }
        ToolFault::Check(CheckFault::Order(fault)) => location_in_order(options.order, fault),
        ToolFault::Check(CheckFault::Only | CheckFault::Explain) => {
            Location::Text(name_of_first(options.texts))
        }
        _ => Location::NoLocation,
    }
}

/// Returns the path of the first text, if it is in a file.
pub(crate) fn file_of_first<'a>(texts: Texts<'a>) -> Option<&'a str>
    ensures { path_in result ≡ first_paths texts.entry }
{
    match texts {
        Texts::Files(first, _) | Texts::FileAndInput(first) => Some(first),
        _ => None,
    }
}

/// Returns the path of the second text, if it is in a file.
fn file_of_second<'a>(texts: Texts<'a>) -> Option<&'a str>
    ensures { path_in result ≡ second_paths texts.entry }
{
    match texts {
        Texts::Files(_, second) | Texts::InputAndFile(second) => Some(second),
        _ => None,
    }
}

/// Returns the path of the file that the order is from, if there is one.
fn file_of_order<'a>(choice: OrderChoice<'a>) -> Option<&'a str>
    ensures { path_in result ≡ order_paths choice.entry }
{
    match choice {
        OrderChoice::File(path) | OrderChoice::Extended(path) => Some(path),
        OrderChoice::ConesByList(path) => Some(path),
        _ => None,
    }
}

/// Returns the path of the file that was refused, or that lacks a name.
fn refused_file<'a>(options: &Options<'a>, fault: ToolFault) -> Option<&'a str>
    ensures { path_in result ≡ refused_paths options.now fault }
{
    match fault {
        ToolFault::BadPairs(_) => options.pairs,
        ToolFault::BadOrder(_) | ToolFault::Check(CheckFault::Order(_)) => {
            file_of_order(options.order)
        }
        ToolFault::Check(CheckFault::First(_) | CheckFault::Only | CheckFault::Explain) => {
            file_of_first(options.texts)
        }
        ToolFault::Check(CheckFault::Second(_)) => file_of_second(options.texts),
        ToolFault::Check(CheckFault::Given(_)) => options.given,
        _ => None,
    }
}

/// The part of a file that a fault refers to: a line, a line with a broken statement, or the name at a place of a list.
/// Lines and places are counted from 1.
#[derive(Clone, Copy, Drop)]
pub(crate) enum QuotedPart {
    Line(u32),
    BrokenStatement(u32),
    Listed(u32),
}

/// Returns the part of a refused text that is shown.
fn quoted_part_in_text(fault: BenchFault) -> Option<QuotedPart>
    ensures { result ≡ text_part fault }
{
    match fault {
        BenchFault::BadStatement { line } => Some(QuotedPart::BrokenStatement(line)),
        BenchFault::BadByte { line }
        | BenchFault::UnknownGate { line }
        | BenchFault::WrongOperands { line }
        | BenchFault::Redefined { line }
        | BenchFault::TooMany { line }
        | BenchFault::Undefined { line }
        | BenchFault::Cycle { line } => Some(QuotedPart::Line(line)),
        BenchFault::TooLong | BenchFault::Read | BenchFault::OutOfMemory => None,
    }
}

/// Returns the part of a refused order that is shown.
fn quoted_part_in_order(fault: OrderFault) -> Option<QuotedPart>
    ensures { result ≡ order_part fault }
{
    match fault {
        OrderFault::BadName { line } => Some(QuotedPart::Line(line)),
        OrderFault::NotAPermutation { place } => Some(QuotedPart::Listed(place)),
        _ => None,
    }
}

/// Returns the part of refused pairs of names that is shown.
fn quoted_part_in_pairs(fault: PairsFault) -> Option<QuotedPart>
    ensures { result ≡ pairs_part fault }
{
    match fault {
        PairsFault::BadLine { line }
        | PairsFault::UnknownFirst { line }
        | PairsFault::UnknownSecond { line }
        | PairsFault::Repeated { line }
        | PairsFault::Taken { line } => Some(QuotedPart::Line(line)),
        PairsFault::TooLong | PairsFault::Read | PairsFault::OutOfMemory => None,
    }
}

/// Returns the part of the refused file that is shown, if the fault refers to one.
fn quoted_part_of(fault: ToolFault) -> Option<QuotedPart>
    ensures { result ≡ fault_part fault }
{
    match fault {
        ToolFault::BadPairs(fault) => quoted_part_in_pairs(fault),
        ToolFault::BadOrder(fault) => quoted_part_in_order(fault),
        ToolFault::Check(CheckFault::First(fault)) => quoted_part_in_text(fault),
        ToolFault::Check(CheckFault::Second(fault)) => quoted_part_in_text(fault),
        ToolFault::Check(CheckFault::Given(fault)) => quoted_part_in_text(fault),
        ToolFault::Check(CheckFault::Order(fault)) => quoted_part_in_order(fault),
        _ => None,
    }
}

/// Returns the path of the refused file, and the part that is shown, if there are both.
pub(crate) fn refused_part<'a>(
    options: &Options<'a>,
    fault: ToolFault,
) -> Option<(&'a str, QuotedPart)>
    ensures { IfSome result (λ r. (refused_paths options.now fault ≡ r.0.now ∷ []) × (fault_part fault ≡ Some r.1)) }
{
    let path = refused_file(options, fault)?;
    let quoted_part = quoted_part_of(fault)?;
    Some((path, quoted_part))
}

fn line_in_text(alloc: Global, name: &str, help: &str) -> Result<String, AllocError>
    ensures { IfOk result (λ line. string_bytes line ≡ help_line (in_text name.now) help.now) }
{
    format!(in alloc; "bddcheck: {name}: {help}\n")
}

fn line_on_line(alloc: Global, name: &str, line: u32, help: &str) -> Result<String, AllocError>
    ensures { IfOk result (λ text. string_bytes text ≡ help_line (on_line name.now line) help.now) }
{
    format!(in alloc; "bddcheck: {name}:{line}: {help}\n")
}

/// Returns the line of a location and what helps.
fn line_at(alloc: Global, location: Location<'_>, help: &str) -> Result<String, AllocError>
    ensures { IfOk result (λ line. string_bytes line ≡ help_line (where_of location.entry) help.now) }
{
    match location {
        Location::NoLocation => format!(in alloc; "bddcheck: {help}\n"),
        Location::Text(name) => line_in_text(alloc, name, help),
        Location::Line(name, line) => line_on_line(alloc, name, line, help),
    }
}

/// Returns the line of where a fault is and what helps. If one of several names is refused, it has all of them.
pub(crate) fn help_of(
    alloc: Global,
    options: &Options<'_>,
    fault: ToolFault,
) -> Result<String, AllocError>
    ensures { IfOk result (λ line. string_bytes line ≡ help_text options.now fault) }
{
    let location = location_of(options, fault);
    let help = help_against(options.order, fault);
    let both = with_names(alloc, help, refused_names(options, fault))?;
    line_at(alloc, location, both.as_str())
}

/// Returns the same line with an excerpt of the refused file, or with the name that is refused.
pub(crate) fn help_with(
    alloc: Global,
    options: &Options<'_>,
    fault: ToolFault,
    quoted: &str,
) -> Result<String, AllocError>
    ensures { IfOk result (λ line. string_bytes line ≡ help_quoting options.now fault quoted.now) }
{
    let location = location_of(options, fault);
    let help = help_shown(options.order, fault, quoted);
    let both = format!(in alloc; "{help}: {quoted}")?;
    line_at(alloc, location, both.as_str())
}
