//! What helps against each fault, as a text.
ghost use Rattle.std.specs.Prelude.{◌≡◌};
ghost use Rattle.check_tool.specs.Helping.{text_help, order_help, pairs_help, wave_help, opening_help, fewer_nodes, check_help, fault_help};
ghost use Rattle.check_tool.specs.Helping.{after_equals, unindented, front_word, gate_word, word_help, is_unknown_gate_fault, shown_help};
ghost use Rattle.check_tool.specs.Helping.{check_help_by_name, help_by_name};

use crate::fault::ToolFault;
use crate::folder::Obstacle;
use check_report::CheckFault;
use command_line::OrderChoice;
use expand_work::WaveFault;
use net_bench::fault::BenchFault;
use net_names::order::OrderFault;
use net_rename::fault::PairsFault;

/// Returns what helps if a text is refused.
fn help_in_text(fault: BenchFault) -> &'static str
    ensures { result.now ≡ text_help fault }
{
    match fault {
        BenchFault::TooLong => "a text has at most 67108864 bytes",
        BenchFault::BadByte { .. } =>
            "outside comments a netlist has only printable ASCII, blanks and line ends",
        BenchFault::BadStatement { .. } => "a statement is INPUT(a), OUTPUT(a) or a = GATE(b, c)",
        BenchFault::UnknownGate { .. } => {
            "the gates are AND, NAND, OR, NOR, XOR, XNOR, NOT, BUFF and DFF; see docs/FLOWS.md"
        }
        BenchFault::WrongOperands { .. } => "NOT, BUFF and DFF take one operand",
        BenchFault::Redefined { .. } => "a signal may have only one INPUT, gate or register",
        BenchFault::TooMany { .. } => {
            "a netlist has at most 1000000 signals and 4000000 operands, and a name has at most 255 bytes"
        }
        BenchFault::Undefined { .. } => "the signal has no INPUT, gate or register",
        BenchFault::Cycle { .. } => "a gate may depend on itself only through a register",
        BenchFault::Read => "the device failed, or the path is a folder",
        BenchFault::OutOfMemory => "more memory, or a smaller netlist, is needed",
    }
}

/// Returns what helps if an order is refused.
fn help_in_order(fault: OrderFault) -> &'static str
    ensures { result.now ≡ order_help fault }
{
    match fault {
        OrderFault::CountsDiffer => "--match name pairs them by their names",
        OrderFault::NotAPermutation { .. } => {
            "--extend takes the list as it is, and --print-order writes one that fits"
        }
        OrderFault::TooManyInputs => "compare by --order cones, or parts that have fewer inputs",
        OrderFault::OutOfMemory => "more memory, or a smaller netlist, is needed",
        OrderFault::BadName { .. } =>
            "a list has only names and blanks, as --print-order writes it",
        OrderFault::TooLong => "a text has at most 67108864 bytes",
        OrderFault::Read => "the device failed, or the path is a folder",
    }
}

/// Returns what helps if pairs of names are refused.
fn help_in_pairs(fault: PairsFault) -> &'static str
    ensures { result.now ≡ pairs_help fault }
{
    match fault {
        PairsFault::BadLine { .. } => {
            "a line has the first netlist's name of a signal, blanks, and the second netlist's"
        }
        PairsFault::TooLong => "a text has at most 67108864 bytes",
        PairsFault::Read => "the device failed, or the path is a folder",
        PairsFault::UnknownFirst { .. } => "the first name of a line is that of the first netlist",
        PairsFault::UnknownSecond { .. } => {
            "the second name of a line is that of the second netlist"
        }
        PairsFault::Repeated { .. } => "each name may be once in its column",
        PairsFault::Taken { .. } => {
            "give that signal of the second netlist a line of its own, or rename it"
        }
        PairsFault::OutOfMemory => "more memory, or a smaller netlist, is needed",
    }
}

/// Returns what helps if the diagrams grow too large.
fn help_by_order(choice: OrderChoice<'_>) -> &'static str
    ensures { result.now ≡ fewer_nodes choice.entry }
{
    match choice {
        OrderChoice::Best =>
            "msb-first, weights and force-groups were tried; a list by --order-file may need fewer nodes",
        OrderChoice::Auto =>
            "msb-first, weights and force-groups were tried; another --memory, or a list by --order-file, may help",
        OrderChoice::Cones | OrderChoice::ConesByList(_) | OrderChoice::Merge =>
            "each pair was judged by its cones; another --memory, or fewer --workers, may help",
        _ => "another order may need fewer nodes: try --order auto",
    }
}

/// Returns what helps if the diagrams could not be built.
fn help_in_building(choice: OrderChoice<'_>, fault: WaveFault) -> &'static str
    ensures { result.now ≡ wave_help choice.entry fault }
{
    match fault {
        WaveFault::NoWorker => "--workers 1 starts no thread",
        WaveFault::Stopped => {
            "more --seconds may be enough; by --order auto the pairs that are decided by then are reported"
        }
        _ => help_by_order(choice),
    }
}

/// Returns what the obstacle to opening or writing a file is.
fn help_in_opening(obstacle: Obstacle) -> &'static str
    ensures { result.now ≡ opening_help obstacle }
{
    match obstacle {
        Obstacle::Missing => "there is no such file or folder",
        Obstacle::Forbidden => "permission is denied",
        Obstacle::NoFolder => "a part of the path is not a folder",
        Obstacle::Links => "its links form a loop",
        Obstacle::Unwritten => "its device is full, or has failed",
        Obstacle::Other => "the system refused it",
    }
}

/// Returns what helps if a check has no report.
fn help_in_check(choice: OrderChoice<'_>, fault: CheckFault) -> &'static str
    ensures { result.now ≡ check_help choice.entry fault }
{
    match fault {
        CheckFault::First(fault) | CheckFault::Second(fault) | CheckFault::Given(fault) => {
            help_in_text(fault)
        }
        CheckFault::GivenOutputs => "a condition is a netlist with one output",
        CheckFault::Order(fault) => help_in_order(fault),
        CheckFault::Only => {
            "the first netlist has no output or register, or after NEXT no register, of one of these names:"
        }
        CheckFault::Explain => {
            "the first netlist has no output, or after NEXT no register, of one of these names:"
        }
        CheckFault::Wave(fault) => help_in_building(choice, fault),
        CheckFault::Write => "standard output is full, or closed",
        CheckFault::GivenUp | CheckFault::OutOfMemory => help_by_order(choice),
    }
}

/// Returns what helps against a fault.
pub(crate) fn help_against(choice: OrderChoice<'_>, fault: ToolFault) -> &'static str
    ensures { result.now ≡ fault_help choice.entry fault }
{
    match fault {
        ToolFault::OneFile => "give - as the other file to read it from standard input",
        ToolFault::InputTwice => "name a file as one of the two",
        ToolFault::CannotOpen(_, obstacle) | ToolFault::CannotSave(obstacle) => {
            help_in_opening(obstacle)
        }
        ToolFault::InputUnread => "standard input failed, or is a folder",
        ToolFault::InputTooLong => "a text has at most 67108864 bytes",
        ToolFault::InputUndivided => {
            "a line %% divides two netlists; if standard input has only one, give the other as a file and - for this one"
        }
        ToolFault::BadPairs(fault) => help_in_pairs(fault),
        ToolFault::BadOrder(fault) => help_in_order(fault),
        ToolFault::Check(fault) => help_in_check(choice, fault),
        ToolFault::OutOfMemory => "more memory is needed",
    }
}

/// Returns the bytes after the first equals sign.
fn after_equals(line: &[u8]) -> &[u8]
    ensures { result.now ≡ after_equals line.now }
{
    for at in 0..line.len() {
        if line[at] == b'=' {
            return &line[at + 1..];
        }
    }
    &[]
}

/// Returns the bytes from the first one that is not a blank.
fn unindented(bytes: &[u8]) -> &[u8]
    ensures { result.now ≡ unindented bytes.now }
{
    for at in 0..bytes.len() {
        if bytes[at] != b' ' {
            return &bytes[at..];
        }
    }
    &[]
}

/// Returns the bytes before the first blank or parenthesis.
fn front_word(bytes: &[u8]) -> &[u8]
    ensures { result.now ≡ front_word bytes.now }
{
    for at in 0..bytes.len() {
        if bytes[at] == b' ' || bytes[at] == b'(' {
            return &bytes[..at];
        }
    }
    bytes
}

/// Returns the keyword of the gate in a line, as it is shown.
fn gate_word(shown: &[u8]) -> &[u8]
    ensures { result.now ≡ gate_word shown.now }
{
    front_word(unindented(after_equals(shown)))
}

/// Returns what helps against a keyword that is not one of a gate. Some keywords that other tools write have advice of
/// their own.
fn help_by_word(word: &[u8]) -> &'static str
    ensures { result.now ≡ word_help word.now }
{
    if word.eq_ignore_ascii_case(b"INV") {
        return "the word for an inverter is NOT";
    }
    if word.eq_ignore_ascii_case(b"MUX") {
        return "a multiplexer is made of NOT, AND and OR gates; see docs/FLOWS.md";
    }
    if word.eq_ignore_ascii_case(b"VDD") {
        return "the constant 1 is XNOR(a, a) of any signal a; see docs/FLOWS.md";
    }
    if word.eq_ignore_ascii_case(b"GND") {
        return "the constant 0 is XOR(a, a) of any signal a; see docs/FLOWS.md";
    }
    if word.eq_ignore_ascii_case(b"LATCH") {
        return "a register is DFF, and there is no keyword for a latch; see docs/FLOWS.md";
    }
    if word.eq_ignore_ascii_case(b"LUT") {
        return "abc writes no LUT lines by write_bench -l; see docs/FLOWS.md";
    }
    "the gates are AND, NAND, OR, NOR, XOR, XNOR, NOT, BUFF and DFF; see docs/FLOWS.md"
}

/// Returns whether the fault is an unknown gate.
fn is_unknown_gate_fault(fault: ToolFault) -> bool
    ensures { result ≡ is_unknown_gate_fault fault }
{
    match fault {
        ToolFault::Check(CheckFault::First(BenchFault::UnknownGate { .. }))
        | ToolFault::Check(CheckFault::Second(BenchFault::UnknownGate { .. }))
        | ToolFault::Check(CheckFault::Given(BenchFault::UnknownGate { .. })) => true,
        _ => false,
    }
}

/// Returns what helps if a check has no report and the refused name is shown.
fn help_in_check_by_name(choice: OrderChoice<'_>, fault: CheckFault) -> &'static str
    ensures { result.now ≡ check_help_by_name choice.entry fault }
{
    match fault {
        CheckFault::Only => {
            "the first netlist has no output or register, or after NEXT no register, of this name"
        }
        CheckFault::Explain => {
            "the first netlist has no output, or after NEXT no register, of this name"
        }
        _ => help_in_check(choice, fault),
    }
}

/// Returns what helps against a fault if the refused name is shown.
fn help_by_name(choice: OrderChoice<'_>, fault: ToolFault) -> &'static str
    ensures { result.now ≡ help_by_name choice.entry fault }
{
    match fault {
        ToolFault::Check(fault) => help_in_check_by_name(choice, fault),
        _ => help_against(choice, fault),
    }
}

/// Returns what helps against a fault whose line or name is shown as this excerpt.
pub(crate) fn help_shown(choice: OrderChoice<'_>, fault: ToolFault, shown: &str) -> &'static str
    ensures { result.now ≡ shown_help choice.entry fault shown.now }
{
    if is_unknown_gate_fault(fault) {
        help_by_word(gate_word(shown.as_bytes()))
    } else {
        help_by_name(choice, fault)
    }
}
