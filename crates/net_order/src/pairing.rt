//! The pairing of two netlists: a naming with at most 4,096 variables, in the order that is asked for.
ghost use Rattle.std.specs.Prelude.{◌≡◌, ◌<◌, ◌≤◌, ◌⊎◌, length, IfOk, IfErr};
ghost use Rattle.net_bench.specs.Circuit.{circuit};
ghost use Rattle.net_order.specs.Order.{IsFit, IsPairing, IsRefused, max_variables, condition, declared, ordered};
ghost use Rattle.net_order.specs.Tables.{IsOrderingFault};

use crate::extended_order::extended_table;
use crate::force::forced_table;
use crate::index_order::indexed_table;
use crate::interleave::interleaved_table;
use crate::listed_order::listed_table;
use crate::naming::{Naming, have_equal_counts, naming_of_table};
use crate::side::{NamedNetlist, sides_of};
use crate::variables::{MAX_VARIABLES, declared_table, depth_table};
use net_bench::name_table::NameTable;
use net_bench::netlist::Netlist;
use net_names::names::Names;
use net_names::order::{Match, Order, OrderFault};
use std::alloc::Global;
use std::marker::Model;

/// A naming of two netlists and a condition with at most 4,096 variables, so that each of them can be a level of a diagram.
#[derive(Drop)]
pub struct Pairing {
    naming: Naming,
}

impl Model for Pairing {
    ghost use Rattle.std.specs.Prelude.{◌≤◌, length};
    ghost use Rattle.net_order.specs.Order.{NamingModel, max_variables};

    ghost Value = { NamingModel };

    ghost view = { λ a. a.naming };

    ghost invariant = { λ a. length a.naming.names ≤ max_variables };
}

impl Pairing {
    /// The pairing of this naming, if its variables are few enough; otherwise the naming comes back as the error.
    pub fn of(naming: Naming) -> Result<Pairing, Naming>
        ensures same { IfOk result (λ p. p ≡ naming) }
        ensures few { IfOk result (λ p. length naming.names ≤ max_variables) }
        ensures back { IfErr result (λ n. n ≡ naming) }
        ensures many { IfErr result (λ n. max_variables < length naming.names) }
    {
        if naming.names().len() > MAX_VARIABLES {
            return Err(naming);
        }
        Ok(Pairing { naming })
    }

    /// The variables by level, at most 4,096.
    pub fn names(&self) -> &Names
        ensures value { result.now ≡ self.now.names }
        ensures few { length self.now.names ≤ max_variables }
    {
        self.naming.names()
    }

    /// Which variables there are, at which levels, and which outputs and registers are compared.
    pub fn naming(&self) -> &Naming
        ensures { result.now ≡ self.now }
    {
        &self.naming
    }

    /// The naming of this pairing.
    pub fn into_naming(self) -> Naming
        ensures { result ≡ self }
    {
        self.naming
    }
}

/// The names of the variables by level, in the order that is asked for.
fn ordered_table(
    alloc: Global,
    sides: &[NamedNetlist<'_>],
    given: &[NamedNetlist<'_>],
    order: &Order,
    variables: NameTable,
) -> Result<NameTable, OrderFault>
    requires all { variables ≡ declared sides.now given.now }
    requires few { length variables ≤ max_variables }
    ensures ok { IfOk result (λ t. t ≡ ordered sides.now given.now order.now) }
    ensures fit { IfOk result (λ t. IsFit (declared sides.now given.now) order.now) }
    ensures few { IfOk result (λ t. length t ≤ max_variables) }
    ensures err { IfErr result (IsOrderingFault (declared sides.now given.now) order.now) }
{
    match order {
        Order::Declared => Ok(variables),
        Order::Depth => depth_table(alloc, sides, given),
        Order::Interleave => interleaved_table(alloc, sides, given, &variables),
        Order::Index => {
            let table = indexed_table(alloc, &variables)?;
            Ok(table)
        }
        Order::Force => forced_table(alloc, sides, given, &variables),
        Order::Listed(list) => listed_table(alloc, &variables, list),
        Order::Extended(list) => extended_table(alloc, sides, given, &variables, list),
    }
}

/// Pairs two netlists, with their variables in the order that is asked for. The variables of a condition are those of
/// the same names; those that neither netlist has come after all others, unless the order is a list of names that puts
/// them elsewhere.
pub fn pair(
    alloc: Global,
    first: &Netlist,
    second: &Netlist,
    given: Option<&Netlist>,
    how: Match,
    order: &Order,
) -> Result<Pairing, OrderFault>
    // The answer is the pairing.
    ensures paired { IfOk result (λ p. IsPairing how (circuit first.now) (circuit second.now) (condition given.entry) order.now p) }
    // If it is refused, the cause is the first in the order of the checks, unless memory ran out.
    ensures refused { IfErr result (λ f. (f ≡ OrderFault.OutOfMemory)
        ⊎ IsRefused how (circuit first.now) (circuit second.now) (condition given.entry) order.now f) }
{
    if !have_equal_counts(first, second, how) {
        return Err(OrderFault::CountsDiffer);
    }
    let Ok(sides) = sides_of(alloc, first, second, given, how) else {
        return Err(OrderFault::OutOfMemory);
    };
    let (both, condition) = sides.as_slice().split_at(2);
    let variables = declared_table(alloc, both, condition)?;
    let table = ordered_table(alloc, both, condition, order, variables)?;
    match naming_of_table(alloc, first, second, how, sides.as_slice(), table) {
        Ok(naming) => Ok(Pairing { naming }),
        Err(_) => Err(OrderFault::OutOfMemory),
    }
}
