//! The naming of two netlists: over which variables they are compared, and which outputs and registers. It may have any
//! number of variables, unlike a pairing.
ghost use Rattle.std.specs.Prelude.{◌≡◌, ◌⊎◌, ◌↔◌, IfOk, IfErr, IsTrue, slice_index};
ghost use Rattle.net_bench.specs.Circuit.{circuit};
ghost use Rattle.net_names.specs.declared.order.Order.TheVariants.{Declared};
ghost use Rattle.net_order.specs.Order.{HaveEqualLength, HaveEqualCounts, IsNaming, condition, correspondence, level_in, registers_of};
ghost use Rattle.net_order.specs.Tables.{AreLevels};

use crate::correspondence::{Correspondence, correspond};
use crate::levels::{Levels, all_levels, level_at};
use crate::netlist_role::NetlistRole;
use crate::side::{NamedNetlist, sides_of};
use crate::variable_groups::registers_of;
use crate::variables::all_variables;
use net_bench::name_table::NameTable;
use net_bench::netlist::{Netlist, Signal};
use net_names::names::{MAX_NAMES, Names};
use net_names::order::{Match, OrderFault};
use std::alloc::{AllocError, Global};
use std::marker::Model;

/// The variables of two netlists and a condition, with their levels, and which outputs and registers of the two are compared.
#[derive(Drop)]
pub struct Naming {
    names: Names,
    /// For each side the levels of its variables: the first netlist, the second, and the condition if there is one.
    levels: Vec<Levels>,
    outputs: Correspondence,
    registers: Correspondence,
}

impl Model for Naming {
    ghost use Rattle.std.specs.Prelude.{[], slice_index_or};
    ghost use Rattle.net_order.specs.Order.{NamingModel};

    ghost Value = { NamingModel };

    ghost view = { λ a. record {
      names = a.names;
      first = slice_index_or a.levels.items 0 [];
      second = slice_index_or a.levels.items 1 [];
      given = slice_index_or a.levels.items 2 [];
      outputs = a.outputs;
      registers = a.registers;
    } };
}

impl Naming {
    /// The variables by level.
    pub fn names(&self) -> &Names
        ensures { result.now ≡ self.now.names }
    {
        &self.names
    }

    /// The level of an input or register of the first netlist.
    pub fn first_level(&self, input: Signal) -> u32
        ensures { result ≡ slice_index self.now.first input }
    {
        level_at(self.levels.as_slice(), 0, input)
    }

    /// The level of an input or register of the second netlist.
    pub fn second_level(&self, input: Signal) -> u32
        ensures { result ≡ slice_index self.now.second input }
    {
        level_at(self.levels.as_slice(), 1, input)
    }

    /// The level of an input or register of the condition.
    pub fn given_level(&self, input: Signal) -> u32
        ensures { result ≡ slice_index self.now.given input }
    {
        level_at(self.levels.as_slice(), 2, input)
    }

    /// Returns the level of an input or register of one of the netlists.
    pub fn level(&self, of: NetlistRole, input: Signal) -> u32
        ensures { result ≡ level_in self.now of input }
    {
        match of {
            NetlistRole::First => self.first_level(input),
            NetlistRole::Second => self.second_level(input),
            NetlistRole::Given => self.given_level(input),
        }
    }

    /// The outputs that are compared, the first netlist's signal first.
    pub fn output_pairs(&self) -> &[(Signal, Signal)]
        ensures { result.now ≡ self.now.outputs.pairs }
    {
        self.outputs.pairs()
    }

    /// The first netlist's outputs that are in no pair.
    pub fn only_first(&self) -> &[Signal]
        ensures { result.now ≡ self.now.outputs.only_first }
    {
        self.outputs.only_first()
    }

    /// The second netlist's outputs that are in no pair.
    pub fn only_second(&self) -> &[Signal]
        ensures { result.now ≡ self.now.outputs.only_second }
    {
        self.outputs.only_second()
    }

    /// The registers whose next states are compared, the first netlist's signal first.
    pub fn next_pairs(&self) -> &[(Signal, Signal)]
        ensures { result.now ≡ self.now.registers.pairs }
    {
        self.registers.pairs()
    }

    /// The first netlist's registers that are in no pair.
    pub fn only_first_next(&self) -> &[Signal]
        ensures { result.now ≡ self.now.registers.only_first }
    {
        self.registers.only_first()
    }

    /// The second netlist's registers that are in no pair.
    pub fn only_second_next(&self) -> &[Signal]
        ensures { result.now ≡ self.now.registers.only_second }
    {
        self.registers.only_second()
    }
}

/// Whether signals that are paired by position are as many in both netlists. By name any numbers will do.
fn have_equal_length(how: Match, signals: &[Signal], others: &[Signal]) -> bool
    ensures { IsTrue result ↔ HaveEqualLength how signals.now others.now }
{
    match how {
        Match::Name => true,
        Match::Position => signals.len() == others.len(),
    }
}

/// Whether both netlists have equally many inputs, outputs and registers, if they are paired by position.
pub(crate) fn have_equal_counts(first: &Netlist, second: &Netlist, how: Match) -> bool
    ensures { IsTrue result ↔ HaveEqualCounts how (circuit first.now) (circuit second.now) }
{
    have_equal_length(how, first.inputs(), second.inputs())
        && have_equal_length(how, first.outputs(), second.outputs())
        && have_equal_length(how, registers_of(first), registers_of(second))
}

/// The naming whose variables have these names by level. A longer list than an order file can have is refused as if memory ran out.
pub(crate) fn naming_of_table(
    alloc: Global,
    first: &Netlist,
    second: &Netlist,
    how: Match,
    sides: &[NamedNetlist<'_>],
    table: NameTable,
) -> Result<Naming, AllocError>
    requires { HaveEqualCounts how (circuit first.now) (circuit second.now) }
    ensures names { IfOk result (λ p. p.names ≡ table) }
    ensures levels { IfOk result (AreLevels table sides.now) }
    ensures outputs { IfOk result (λ p. p.outputs ≡ correspondence how (circuit first.now)
        (circuit second.now) first.now.outputs second.now.outputs) }
    ensures registers { IfOk result (λ p. p.registers ≡ correspondence how (circuit first.now) (circuit second.now)
        (registers_of (circuit first.now)) (registers_of (circuit second.now))) }
{
    let levels = all_levels(alloc, &table, sides)?;
    let outputs = correspond(alloc, first, second, how, first.outputs(), second.outputs())?;
    let registers = correspond(
        alloc,
        first,
        second,
        how,
        registers_of(first),
        registers_of(second),
    )?;
    let names = table.to_names(alloc)?;
    if names.len() > MAX_NAMES {
        return Err(AllocError);
    }
    Ok(Naming {
        names: Names::of(names),
        levels,
        outputs,
        registers,
    })
}

/// The naming of two netlists, with their variables as they are declared. The variables of a condition are those of the
/// same names; those that neither netlist has come after all others.
pub fn naming_of(
    alloc: Global,
    first: &Netlist,
    second: &Netlist,
    given: Option<&Netlist>,
    how: Match,
) -> Result<Naming, OrderFault>
    // The answer is the naming.
    ensures named { IfOk result (λ p. IsNaming how (circuit first.now) (circuit second.now) (condition given.entry) Declared p) }
    // It is refused only if the netlists have different counts, or memory ran out.
    ensures refused { IfErr result (λ f. (f ≡ OrderFault.OutOfMemory)
        ⊎ ((f ≡ OrderFault.CountsDiffer) × (HaveEqualCounts how (circuit first.now) (circuit second.now) → ⊥))) }
{
    if !have_equal_counts(first, second, how) {
        return Err(OrderFault::CountsDiffer);
    }
    let Ok(sides) = sides_of(alloc, first, second, given, how) else {
        return Err(OrderFault::OutOfMemory);
    };
    let (both, condition) = sides.as_slice().split_at(2);
    let table = all_variables(alloc, both, condition)?;
    match naming_of_table(alloc, first, second, how, sides.as_slice(), table) {
        Ok(naming) => Ok(naming),
        Err(_) => Err(OrderFault::OutOfMemory),
    }
}
