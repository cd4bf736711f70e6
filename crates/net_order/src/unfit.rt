//! The first name for which a list is no order of the variables of two netlists. It is what a refusal prints.
ghost use Rattle.std.specs.Prelude.{◌≡◌, ◌⊎◌, ◌↔◌, [], IfErr, IfOk, None};
ghost use Rattle.net_bench.specs.Circuit.{circuit};
ghost use Rattle.net_order.specs.Order.{HasEachVariableOnce, IsRefused, condition, variables_in};
ghost use Rattle.net_order.specs.Unfit.{first_missing, unfit_from};

use crate::naming::have_equal_counts;
use crate::side::sides_of;
use crate::variables::declared_table;
use net_bench::name_table::NameTable;
use net_bench::netlist::Netlist;
use net_names::names::Names;
use net_names::order::{Match, Order, OrderFault};
use std::alloc::{AllocError, Global};
use std::marker::Model;

/// Why a list does not fit for a name.
#[derive(Clone, Copy, Debug, PartialEq, Eq)]
pub enum Misfit {
    /// The name is no variable.
    Foreign,
    /// The name came before.
    Repeated,
    /// The list lacks this variable.
    Missing,
}

/// A name for which a list is no order, and why.
#[derive(Drop)]
pub struct Unfit {
    why: Misfit,
    name: Vec<u8>,
}

impl Model for Unfit {
    ghost use Rattle.net_order.specs.Unfit.{Unfit};

    ghost Value = { Unfit };

    ghost view = { λ u. record { why = u.why; name = u.name.items } };
}

impl Unfit {
    /// A name that does not fit for this reason.
    fn of(alloc: Global, why: Misfit, name: &[u8]) -> Result<Unfit, AllocError>
        ensures { IfOk result (λ u. u ≡ record { why = why; name = name.now }) }
    {
        let name = Vec::from_slice(alloc, name)?;
        Ok(Unfit { why, name })
    }

    /// Why the list does not fit.
    pub fn why(&self) -> Misfit
        ensures { result ≡ self.now.why }
    {
        self.why
    }

    /// The name.
    pub fn name(&self) -> &[u8]
        ensures { result.now ≡ self.now.name }
    {
        self.name.as_slice()
    }
}

/// The first of the variables that is not among the names; None if all are.
fn first_missing(
    alloc: Global,
    variables: &NameTable,
    names: &NameTable,
) -> Result<Option<Unfit>, AllocError>
    ensures { IfOk result (λ u. u ≡ first_missing variables.now names.now) }
{
    for place in 0..variables.len() {
        let name = variables.name_at(place);
        if !names.has(name) {
            let unfit = Unfit::of(alloc, Misfit::Missing, name)?;
            return Ok(Some(unfit));
        }
    }
    Ok(None)
}

/// The first name for which the list does not have each of the variables exactly once; None if it has.
fn unfit_among(
    alloc: Global,
    variables: &NameTable,
    list: &Names,
) -> Result<Option<Unfit>, AllocError>
    ensures { IfOk result (λ u. u ≡ unfit_from variables.now [] list.now) }
{
    let mut before = NameTable::new(alloc);
    for i in 0..list.len() {
        let name = list.at(i);
        if !variables.has(name) {
            let unfit = Unfit::of(alloc, Misfit::Foreign, name)?;
            return Ok(Some(unfit));
        }
        if before.has(name) {
            let unfit = Unfit::of(alloc, Misfit::Repeated, name)?;
            return Ok(Some(unfit));
        }
        before.intern(alloc, name)?;
    }
    first_missing(alloc, variables, &before)
}

/// The first name for which the list is no order of the variables that `pair` has for the same netlists: a name that is
/// no variable or came before; if there is none, the first variable in declared order that the list lacks. None if the
/// list is an order.
pub fn unfit_name(
    alloc: Global,
    first: &Netlist,
    second: &Netlist,
    given: Option<&Netlist>,
    how: Match,
    list: &Names,
) -> Result<Option<Unfit>, OrderFault>
    ensures first_misfit { IfOk result (λ u. u ≡ unfit_from (variables_in how (circuit first.now) (circuit second.now)
        (condition given.entry)) [] list.now) }
    // The answer is None exactly for the lists that `pair` accepts.
    ensures none { IfOk result (λ u. (u ≡ None) ↔ HasEachVariableOnce
        (variables_in how (circuit first.now) (circuit second.now) (condition given.entry)) list.now) }
    // If it is refused, the cause is the one that `pair` has in any other order.
    ensures refused { IfErr result (λ f. (f ≡ OrderFault.OutOfMemory)
        ⊎ IsRefused how (circuit first.now) (circuit second.now) (condition given.entry) Order.Declared f) }
{
    if !have_equal_counts(first, second, how) {
        return Err(OrderFault::CountsDiffer);
    }
    let Ok(sides) = sides_of(alloc, first, second, given, how) else {
        return Err(OrderFault::OutOfMemory);
    };
    let (both, condition) = sides.as_slice().split_at(2);
    let variables = declared_table(alloc, both, condition)?;
    match unfit_among(alloc, &variables, list) {
        Ok(unfit) => Ok(unfit),
        Err(_) => Err(OrderFault::OutOfMemory),
    }
}
