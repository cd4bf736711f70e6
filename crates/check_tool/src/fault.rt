//! The faults for which the program prints no report, with their texts and their exit statuses.
ghost use Rattle.std.specs.Prelude.{◌≡◌, ◌≤◌, ◌++◌, [], decimal};
ghost use Rattle.check_tool.specs.FaultTexts.{bench_fault_text, check_fault_text, order_fault_text, pairs_fault_text, wave_fault_text};
ghost use Rattle.check_tool.specs.Faults.{file_role_text, tool_fault_text, words_text, text_status, pairs_status, order_status, check_status, fault_status};
ghost use Rattle.check_tool.specs.declared.fault.ToolFault.TheVariants as tool_faults;

use crate::folder::Obstacle;
use check_report::CheckFault;
use expand_work::WaveFault;
use net_bench::fault::BenchFault;
use net_names::order::OrderFault;
use net_rename::fault::PairsFault;
use std::alloc::AllocError;

/// Which of the files of a run a file is.
#[derive(Clone, Copy, Drop, Debug, PartialEq, Eq)]
pub enum FileRole {
    /// The file of the first text.
    First,
    /// The file of the second text.
    Second,
    /// The file of the condition.
    Given,
    /// The file of pairs of names.
    Pairs,
    /// The file with the order of the variables.
    Order,
}

/// Why there is no report, or not all of it.
#[derive(Clone, Copy, Drop, Debug, PartialEq, Eq)]
pub enum ToolFault {
    /// Only one file was named.
    OneFile,
    /// Standard input was named as both files.
    InputTwice,
    /// A file could not be opened.
    CannotOpen(FileRole, Obstacle),
    /// The file for the VCD could not be written.
    CannotSave(Obstacle),
    /// Standard input has failed while it was read.
    InputUnread,
    /// Standard input has more bytes than two texts and the line between them can have.
    InputTooLong,
    /// Standard input has no line `%%` that divides it into two texts.
    InputUndivided,
    /// The file with pairs of names was refused, or its names are not those of the netlists.
    BadPairs(PairsFault),
    /// The file with the order was refused.
    BadOrder(OrderFault),
    /// The check of the two texts has no report.
    Check(CheckFault),
    /// Memory was refused outside the check.
    OutOfMemory,
}

impl From<AllocError> for ToolFault {
    ghost from_gives = { λ _ fault. fault ≡ tool_faults.OutOfMemory };

    fn from(_: AllocError) -> ToolFault {
        ToolFault::OutOfMemory
    }
}

impl From<CheckFault> for ToolFault {
    ghost from_gives = { λ check fault. fault ≡ tool_faults.Check check };

    fn from(check: CheckFault) -> ToolFault {
        ToolFault::Check(check)
    }
}

/// The text of a fault in parts, so that it can be printed without memory: which text is refused, the words before a
/// number, the number of a line or of a name if there is one, and the words after it.
#[derive(Clone, Copy, Drop)]
pub(crate) struct FaultWords {
    pub(crate) place: &'static str,
    pub(crate) before: &'static str,
    pub(crate) number: Option<u32>,
    pub(crate) following: &'static str,
}

/// Returns a text without a number.
fn plain(text: &'static str) -> FaultWords
    ensures text { words_text result ≡ text.now }
    ensures has_no_place { result.place.now ≡ [] }
{
    FaultWords {
        place: "",
        before: text,
        number: None,
        following: "",
    }
}

/// Returns a text with a number.
fn numbered(before: &'static str, number: u32, following: &'static str) -> FaultWords
    ensures text { words_text result ≡ before.now ++ decimal number ++ following.now }
    ensures has_no_place { result.place.now ≡ [] }
{
    FaultWords {
        place: "",
        before,
        number: Some(number),
        following,
    }
}

/// Returns the text that names what is refused, and then why.
fn refused(place: &'static str, words: FaultWords) -> FaultWords
    requires { words.place.now ≡ [] }
    ensures { words_text result ≡ place.now ++ words_text words }
{
    FaultWords { place, ..words }
}

/// Returns the word that a fault's text has for a file.
fn name_of(place: FileRole) -> &'static str
    ensures { result.now ≡ file_role_text place }
{
    match place {
        FileRole::First => "first",
        FileRole::Second => "second",
        FileRole::Given => "given",
        FileRole::Pairs => "pairs",
        FileRole::Order => "order",
    }
}

/// Returns the text of a fault of a netlist's text.
fn words_of_text(fault: BenchFault) -> FaultWords
    ensures text { words_text result ≡ bench_fault_text fault }
    ensures has_no_place { result.place.now ≡ [] }
{
    match fault {
        BenchFault::TooLong => plain("longer than 67108864 bytes"),
        BenchFault::BadByte { line } => numbered("line ", line, ": a byte that no statement has"),
        BenchFault::BadStatement { line } => numbered("line ", line, ": broken statement"),
        BenchFault::UnknownGate { line } => numbered("line ", line, ": unknown gate"),
        BenchFault::WrongOperands { line } => {
            numbered("line ", line, ": wrong number of operands")
        }
        BenchFault::Redefined { line } => numbered("line ", line, ": signal defined twice"),
        BenchFault::TooMany { line } => numbered(
            "line ",
            line,
            ": too many signals or operands, or a name too long",
        ),
        BenchFault::Undefined { line } => numbered("line ", line, ": signal without definition"),
        BenchFault::Cycle { line } => numbered("line ", line, ": gate that depends on a cycle"),
        BenchFault::Read => plain("cannot be read"),
        BenchFault::OutOfMemory => plain("out of memory"),
    }
}

/// Returns the text of a fault of an order.
fn words_of_order(fault: OrderFault) -> FaultWords
    ensures text { words_text result ≡ order_fault_text fault }
    ensures has_no_place { result.place.now ≡ [] }
{
    match fault {
        OrderFault::CountsDiffer => {
            plain("the netlists have different numbers of inputs, outputs or registers")
        }
        OrderFault::NotAPermutation { place } => {
            numbered("name ", place, " of the list does not fit")
        }
        OrderFault::TooManyInputs => plain("more than 4096 variables"),
        OrderFault::OutOfMemory => plain("out of memory"),
        OrderFault::BadName { line } => numbered("line ", line, ": not a signal name"),
        OrderFault::TooLong => plain("longer than 67108864 bytes"),
        OrderFault::Read => plain("cannot be read"),
    }
}

/// Returns the text of a fault of a file of pairs.
fn words_of_pairs(fault: PairsFault) -> FaultWords
    ensures text { words_text result ≡ pairs_fault_text fault }
    ensures has_no_place { result.place.now ≡ [] }
{
    match fault {
        PairsFault::BadLine { line } => numbered("line ", line, ": not two signal names"),
        PairsFault::TooLong => plain("longer than 67108864 bytes"),
        PairsFault::Read => plain("cannot be read"),
        PairsFault::UnknownFirst { line } => numbered(
            "line ",
            line,
            ": no input, output or register of the first netlist",
        ),
        PairsFault::UnknownSecond { line } => numbered(
            "line ",
            line,
            ": no input, output or register of the second netlist",
        ),
        PairsFault::Repeated { line } => {
            numbered("line ", line, ": a name that is in its column before")
        }
        PairsFault::Taken { line } => numbered(
            "line ",
            line,
            ": the second netlist has the first name, too",
        ),
        PairsFault::OutOfMemory => plain("out of memory"),
    }
}

/// Returns the text of a fault of building the diagrams.
fn words_of_wave(fault: WaveFault) -> FaultWords
    ensures text { words_text result ≡ wave_fault_text fault }
    ensures has_no_place { result.place.now ≡ [] }
{
    match fault {
        WaveFault::OutOfMemory => plain("out of memory"),
        WaveFault::NoWorker => plain("a worker could not be started"),
        WaveFault::Full => plain("more nodes than the limit"),
        WaveFault::TooManyRequests => plain("more requests than the bound allows"),
        WaveFault::Stopped => plain("stopped before its end"),
    }
}

/// Returns the text of a fault of a check.
fn words_of_check(fault: CheckFault) -> FaultWords
    ensures { words_text result ≡ check_fault_text fault }
{
    match fault {
        CheckFault::First(fault) => refused("first: ", words_of_text(fault)),
        CheckFault::Second(fault) => refused("second: ", words_of_text(fault)),
        CheckFault::Given(fault) => refused("given: ", words_of_text(fault)),
        CheckFault::GivenOutputs => plain("given: not exactly one output"),
        CheckFault::Order(fault) => refused("order: ", words_of_order(fault)),
        CheckFault::Only => plain("only: no such output or register"),
        CheckFault::Explain => plain("explain: no such output or register"),
        CheckFault::Wave(fault) => refused("build: ", words_of_wave(fault)),
        CheckFault::GivenUp => plain(
            "build: given up in each order; more memory, or a good order by --order-file, may help",
        ),
        CheckFault::Write => plain("report: cannot be written"),
        CheckFault::OutOfMemory => plain("out of memory"),
    }
}

/// Returns the text of a fault.
pub(crate) fn words_of(fault: ToolFault) -> FaultWords
    ensures { words_text result ≡ tool_fault_text fault }
{
    match fault {
        ToolFault::OneFile => plain("give two files or none"),
        ToolFault::InputTwice => plain("standard input: given twice"),
        ToolFault::CannotOpen(place, _) => refused(name_of(place), plain(": cannot be opened")),
        ToolFault::CannotSave(_) => plain("vcd: cannot be written"),
        ToolFault::InputUnread => plain("standard input: cannot be read"),
        ToolFault::InputTooLong => plain("standard input: too long"),
        ToolFault::InputUndivided => plain("standard input: no line %%"),
        ToolFault::BadPairs(fault) => refused("pairs: ", words_of_pairs(fault)),
        ToolFault::BadOrder(fault) => refused("order: ", words_of_order(fault)),
        ToolFault::Check(fault) => words_of_check(fault),
        ToolFault::OutOfMemory => plain("out of memory"),
    }
}

/// Returns the status for a refused text: 3 if memory was refused, and otherwise 2.
fn status_of_text(fault: BenchFault) -> u8
    ensures status { result ≡ text_status fault }
    ensures bound { result ≤ 3 }
{
    match fault {
        BenchFault::OutOfMemory => 3,
        _ => 2,
    }
}

/// Returns the status for a refused order, in the same way.
fn status_of_order(fault: OrderFault) -> u8
    ensures status { result ≡ order_status fault }
    ensures bound { result ≤ 3 }
{
    match fault {
        OrderFault::OutOfMemory => 3,
        _ => 2,
    }
}

/// Returns the status for refused pairs of names, in the same way.
fn status_of_pairs(fault: PairsFault) -> u8
    ensures status { result ≡ pairs_status fault }
    ensures bound { result ≤ 3 }
{
    match fault {
        PairsFault::OutOfMemory => 3,
        _ => 2,
    }
}

/// Returns the status for a check that has no report. It is also 3 if the diagrams could not be built, or the report
/// could not be written.
fn status_of_check(fault: CheckFault) -> u8
    ensures status { result ≡ check_status fault }
    ensures bound { result ≤ 3 }
{
    match fault {
        CheckFault::First(fault) | CheckFault::Second(fault) | CheckFault::Given(fault) => {
            status_of_text(fault)
        }
        CheckFault::GivenOutputs | CheckFault::Only | CheckFault::Explain => 2,
        CheckFault::Order(fault) => status_of_order(fault),
        CheckFault::Wave(_) | CheckFault::GivenUp | CheckFault::Write | CheckFault::OutOfMemory =>
            3,
    }
}

/// Returns the program's exit status for a fault: 2 if the options, the files or the input are at fault, and 3 if
/// memory, nodes or time did not suffice, or something could not be written.
pub fn status_of_fault(fault: ToolFault) -> u8
    ensures status { result ≡ fault_status fault }
    ensures bound { result ≤ 3 }
{
    match fault {
        ToolFault::BadPairs(fault) => status_of_pairs(fault),
        ToolFault::BadOrder(fault) => status_of_order(fault),
        ToolFault::Check(fault) => status_of_check(fault),
        ToolFault::CannotSave(_) | ToolFault::OutOfMemory => 3,
        _ => 2,
    }
}
