//! Signals that are functions of at most two variables, and the pairs of variables of which a signal is the exclusive or.
ghost use Rattle.std.specs.Prelude.{◌≡◌, None, map, slice_get, slice_index_or, slice_set, IfOk, OnOk};
ghost use Rattle.net_bench.specs.Labels.{all_ones, folded, is_complemented, odd, some_one};
ghost use Rattle.group_order.specs.SmallFunctions.{bit_at, function_of, function_over, gate_value, is_xor, operand_value, operand_values, own_function, small_functions};
ghost use Rattle.group_order.specs.SmallFunctions.{support_of, with_function_of, with_pair_of, with_pairs_on, with_support_of, with_variable};
ghost use Rattle.group_order.specs.SmallFunctions.{xor_pair, xor_pairs};

use crate::sides::{IndexedNetlist, gate_at};
use net_bench::netlist::{GateLine, Kind, Signal};
use std::alloc::{AllocError, Global};

/// A function of two variables, or of one (`low` and `high` are the same then), as its truth table. `at01` is its value
/// if `low` is 0 and `high` is 1.
#[derive(Clone, Copy, Debug, PartialEq, Eq)]
pub struct SmallFunction {
    pub low: u32,
    pub high: u32,
    pub at00: bool,
    pub at01: bool,
    pub at10: bool,
    pub at11: bool,
}

/// The variables of a gate's operands, as far as they are at most two.
#[derive(Clone, Copy, Debug, PartialEq, Eq)]
pub enum Support {
    Nothing,
    One(u32),
    Two(u32, u32),
    /// More than two.
    More,
}

/// Two variables of which a signal is the exclusive or, the one of the lower number first.
#[derive(Clone, Copy, Debug, PartialEq, Eq)]
pub struct XorPair {
    pub low: u32,
    pub high: u32,
}

/// The support with one more variable.
fn with_variable(support: Support, variable: u32) -> Support
    ensures { result ≡ with_variable support variable }
{
    match support {
        Support::Nothing => Support::One(variable),
        Support::One(other) => {
            if other == variable {
                Support::One(other)
            } else {
                Support::Two(other.min(variable), other.max(variable))
            }
        }
        Support::Two(low, high) => {
            if low == variable || high == variable {
                Support::Two(low, high)
            } else {
                Support::More
            }
        }
        Support::More => Support::More,
    }
}

/// The support with the variables of one more operand.
fn with_support_of(support: Support, function: Option<SmallFunction>) -> Support
    ensures { result ≡ with_support_of support function }
{
    match function {
        None => Support::More,
        Some(function) => with_variable(with_variable(support, function.low), function.high),
    }
}

/// The function of a signal in a table; None beyond its end.
fn function_at(table: &[Option<SmallFunction>], signal: Signal) -> Option<SmallFunction>
    ensures { result ≡ slice_index_or table.now signal None }
{
    table.get(signal.number() as usize).copied().unwrap_or(None)
}

/// The variables of a gate's operands.
fn support_of(smalls: &[Option<SmallFunction>], gate: &GateLine) -> Support
    ensures { result ≡ support_of smalls.now gate.now }
{
    let operands = gate.operands.as_slice();
    operands.iter().fold(Support::Nothing, |support, operand| {
        with_support_of(support, function_at(smalls, *operand))
    })
}

/// The value if the variable `low` has the value `low`, and `high` the value `high`.
fn bit_at(function: SmallFunction, low: bool, high: bool) -> bool
    ensures { result ≡ bit_at function low high }
{
    match (low, high) {
        (true, true) => function.at11,
        (true, false) => function.at10,
        (false, true) => function.at01,
        (false, false) => function.at00,
    }
}

/// The value of an operand if the variable `first` has the value `low`, and any other the value `high`.
fn operand_value(first: u32, low: bool, high: bool, function: Option<SmallFunction>) -> bool
    ensures { result ≡ operand_value first low high function }
{
    match function {
        None => false,
        Some(function) => {
            let one = if function.low == first { low } else { high };
            let other = if function.high == first { low } else { high };
            bit_at(function, one, other)
        }
    }
}

/// An assignment of two variables: `low` is the value of the variable `first`, and `high` that of any other.
#[derive(Clone, Copy, Debug, PartialEq, Eq)]
struct TwoValues {
    first: u32,
    low: bool,
    high: bool,
}

impl TwoValues {
    /// The assignment with these values of a variable and of any other.
    fn of(first: u32, low: bool, high: bool) -> TwoValues
        ensures first { result.first ≡ first }
        ensures low { result.low ≡ low }
        ensures high { result.high ≡ high }
    {
        TwoValues { first, low, high }
    }
}

/// The value of an operand at this assignment.
fn value_at(smalls: &[Option<SmallFunction>], values: TwoValues, operand: Signal) -> bool
    ensures { result ≡ operand_value values.first values.low values.high (slice_index_or smalls.now operand None) }
{
    operand_value(
        values.first,
        values.low,
        values.high,
        function_at(smalls, operand),
    )
}

/// Whether all operands of a gate are 1 at this assignment.
fn all_ones(smalls: &[Option<SmallFunction>], values: TwoValues, operands: &[Signal]) -> bool
    ensures { result ≡ all_ones (operand_values smalls.now values.first values.low values.high operands.now) }
{
    let mut all = true;
    for operand in operands {
        all = all && value_at(smalls, values, *operand);
    }
    all
}

/// Whether an operand of a gate is 1 at this assignment.
fn some_one(smalls: &[Option<SmallFunction>], values: TwoValues, operands: &[Signal]) -> bool
    ensures { result ≡ some_one (operand_values smalls.now values.first values.low values.high operands.now) }
{
    let mut some = false;
    for operand in operands {
        some = some || value_at(smalls, values, *operand);
    }
    some
}

/// Whether an odd number of a gate's operands are 1 at this assignment.
fn odd(smalls: &[Option<SmallFunction>], values: TwoValues, operands: &[Signal]) -> bool
    ensures { result ≡ odd (operand_values smalls.now values.first values.low values.high operands.now) }
{
    let mut odd = false;
    for operand in operands {
        odd = odd != value_at(smalls, values, *operand);
    }
    odd
}

/// The value of the operation that folds a gate's operands: And, Or or Xor.
fn folded(smalls: &[Option<SmallFunction>], values: TwoValues, gate: &GateLine) -> bool
    ensures { result ≡ folded gate.now.kind (operand_values smalls.now values.first values.low values.high gate.now.operands) }
{
    let operands = gate.operands.as_slice();
    match gate.kind {
        Kind::And | Kind::Nand | Kind::Not | Kind::Buff | Kind::Dff => {
            all_ones(smalls, values, operands)
        }
        Kind::Or | Kind::Nor => some_one(smalls, values, operands),
        Kind::Xor | Kind::Xnor => odd(smalls, values, operands),
    }
}

/// Whether a gate's value is the complement of the folded one.
fn is_complemented(kind: Kind) -> bool
    ensures { result ≡ is_complemented kind }
{
    matches!(kind, Kind::Nand | Kind::Nor | Kind::Xnor | Kind::Not)
}

/// The value of a gate at this assignment.
fn gate_value(smalls: &[Option<SmallFunction>], values: TwoValues, gate: &GateLine) -> bool
    ensures { result ≡ gate_value smalls.now gate.now values.first values.low values.high }
{
    let value = folded(smalls, values, gate);
    if is_complemented(gate.kind) {
        !value
    } else {
        value
    }
}

/// A gate as a function of these two variables, or of one that is both.
fn function_of(
    smalls: &[Option<SmallFunction>],
    gate: &GateLine,
    low: u32,
    high: u32,
) -> SmallFunction
    ensures { result ≡ function_of smalls.now gate.now low high }
{
    SmallFunction {
        low,
        high,
        at00: gate_value(smalls, TwoValues::of(low, false, false), gate),
        at01: gate_value(smalls, TwoValues::of(low, false, true), gate),
        at10: gate_value(smalls, TwoValues::of(low, true, false), gate),
        at11: gate_value(smalls, TwoValues::of(low, true, true), gate),
    }
}

/// A gate as a function of the variables of its operands, if these are one or two.
fn function_over(
    smalls: &[Option<SmallFunction>],
    gate: &GateLine,
    support: Support,
) -> Option<SmallFunction>
    ensures { result ≡ function_over smalls.now gate.now support }
{
    match support {
        Support::Nothing => None,
        Support::One(only) => Some(function_of(smalls, gate, only, only)),
        Support::Two(low, high) => Some(function_of(smalls, gate, low, high)),
        Support::More => None,
    }
}

/// Writes the function of a signal into a table. Beyond its end nothing is written.
fn put_function(
    table: &mut Vec<Option<SmallFunction>>,
    signal: Signal,
    function: Option<SmallFunction>,
)
    ensures { table.new.items ≡ slice_set table.old.items signal function }
{
    let place = signal.number() as usize;
    if place < table.len() {
        table[place] = function;
    }
}

/// Writes the function of the gate at a place into the table, at its signal.
fn put_function_of(smalls: &mut Vec<Option<SmallFunction>>, gates: &[GateLine], place: usize)
    ensures { smalls.new.items ≡ with_function_of smalls.old.items (slice_get gates.now place) }
{
    match gate_at(gates, place) {
        Some(gate) => {
            let support = support_of(smalls.as_slice(), gate);
            let function = function_over(smalls.as_slice(), gate, support);
            put_function(smalls, gate.out, function);
        }
        None => {}
    }
}

/// A variable as a function of itself.
fn own_function(variable: Option<u32>) -> Option<SmallFunction>
    ensures { result ≡ own_function variable }
{
    match variable {
        None => None,
        Some(variable) => Some(SmallFunction {
            low: variable,
            high: variable,
            at00: false,
            at01: false,
            at10: true,
            at11: true,
        }),
    }
}

/// For each signal its function if it is a variable; None for a gate.
fn own_functions(
    alloc: Global,
    variables: &[Option<u32>],
) -> Result<Vec<Option<SmallFunction>>, AllocError>
    ensures { IfOk result (λ v. v.items ≡ map own_function variables.now) }
{
    variables
        .iter()
        .map(|variable| own_function(*variable))
        .collect(alloc)
}

/// For each signal its function, if it has at most two variables. Gates are visited by rising rank, so operands come
/// before them.
#[tactic(auto, unfolding(crate::specs::SmallFunctions::small_functions))]
fn small_functions(
    alloc: Global,
    side: &IndexedNetlist<'_>,
) -> Result<Vec<Option<SmallFunction>>, AllocError>
    ensures { IfOk result (λ v. v.items ≡ small_functions side.now) }
{
    let gates = side.net().gates();
    let mut smalls = own_functions(alloc, side.variables())?;
    for place in side.by_rank() {
        put_function_of(&mut smalls, gates, *place);
    }
    Ok(smalls)
}

/// Whether a function is the exclusive or of two variables, or the complement of one.
fn is_xor(function: SmallFunction) -> bool
    ensures { result ≡ is_xor function }
{
    function.low != function.high
        && function.at01 == function.at10
        && function.at00 == function.at11
        && function.at00 != function.at01
}

/// The pair of variables of which a function is the exclusive or, or its complement; None if it is none.
fn xor_pair(function: Option<SmallFunction>) -> Option<XorPair>
    ensures { result ≡ xor_pair function }
{
    match function {
        None => None,
        Some(function) => {
            if is_xor(function) {
                Some(XorPair {
                    low: function.low,
                    high: function.high,
                })
            } else {
                None
            }
        }
    }
}

/// Appends a pair, if there is one.
fn push_pair(pairs: &mut Vec<XorPair>, pair: Option<XorPair>) -> Result<(), AllocError>
    ensures { OnOk result (pairs.new.items ≡ with_pair_of pairs.old.items pair) }
{
    match pair {
        Some(pair) => {
            pairs.push(pair)?;
            Ok(())
        }
        None => Ok(()),
    }
}

/// Appends the pairs of all gates of a netlist.
fn push_pairs_on(
    alloc: Global,
    pairs: &mut Vec<XorPair>,
    side: &IndexedNetlist<'_>,
) -> Result<(), AllocError>
    ensures { OnOk result (pairs.new.items ≡ with_pairs_on pairs.old.items side.now) }
{
    let smalls = small_functions(alloc, side)?;
    let smalls = smalls.as_slice();
    let gates = side.net().gates();
    for gate in gates {
        push_pair(pairs, xor_pair(function_at(smalls, gate.out)))?;
    }
    Ok(())
}

/// The pairs of variables of which a signal of these netlists is the exclusive or, with repetitions.
#[tactic(auto, unfolding(crate::specs::SmallFunctions::xor_pairs))]
pub fn xor_pairs(alloc: Global, sides: &[IndexedNetlist<'_>]) -> Result<Vec<XorPair>, AllocError>
    ensures { IfOk result (λ v. v.items ≡ xor_pairs sides.now) }
{
    let mut pairs = Vec::new(alloc);
    for i in 0..sides.len() {
        let side = &sides[i];
        push_pairs_on(alloc, &mut pairs, side)?;
    }
    Ok(pairs)
}
