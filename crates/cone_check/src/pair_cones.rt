//! The cones of one pair, and the task of comparing them.
ghost use Rattle.std.specs.Prelude.{◌≡◌, ◌<◌, ◌≤◌, ◌∷◌, true, false, filter, length, map, replicate, slice_index_or, slice_set, None, Ok, All, IfOk, IfErr, IfSome};
ghost use Rattle.net_cone.specs.Cones.{variable_name};
ghost use Rattle.net_names.specs.declared.order.Order.{Order as OrderValue};
ghost use Rattle.net_order.specs.Force.{numbers_below};
ghost use Rattle.net_order.specs.Order.{condition};
ghost use Rattle.cone_check.specs.ConeLevels.{AreSetAt, among_below, cone_levels, given_levels, pair_levels};
ghost use Rattle.cone_check.specs.ConeRounds.{AreConesOf, EndsPairs, IsConeTask, IsPairSettings, IsInContext, IsConeContext, circuit_in};
ghost use Rattle.compare_built.specs.Attempts.{cone_names, cone_order};
ghost use Rattle.compare_built.specs.Scatter.{ArePlaces};
ghost use Rattle.order_search.specs.Trials.{EndsAtOnce, HasTooManyVariables, IsPairingIn};

use crate::variable_names::level_in;
use compare_built::fault::CheckFault;
use compare_built::settings::Settings;
use compare_built::strategy::Strategy;
use compare_built::subject::Subject;
use compare_built::task::Task;
use net_bench::netlist::{Netlist, Signal};
use net_cone::{Cone, cone_of};
use net_names::names::{MAX_NAMES, Names};
use net_names::order::{Order, OrderFault};
use net_order::naming::Naming;
use net_order::netlist_role::NetlistRole;
use net_order::pairing::Pairing;
use order_search::trials::paired;
use std::alloc::{AllocError, Global};

/// What all pairs have in common when they are judged by their cones.
#[derive(Drop)]
pub struct ConeContext<'a, H> {
    /// The comparison of the whole netlists.
    pub task: &'a Task<'a, H>,
    /// The naming of the netlists in declared order.
    pub naming: &'a Naming,
    /// By signal, the names that the variables of the first netlist have in the naming. Other signals have the empty
    /// name.
    pub first: &'a [Vec<u8>],
    /// The same of the second netlist.
    pub second: &'a [Vec<u8>],
    /// The signals of the first netlist's gates, in the order of the text.
    pub first_gates: &'a [Signal],
    /// The same of the second netlist.
    pub second_gates: &'a [Signal],
    /// The cone of the condition's output, if there is a condition.
    pub given: &'a Option<Cone>,
    /// The order of cones that is tried before those of the candidates, if the settings give one.
    pub order: &'a Option<Order>,
}

/// The cones of a pair: that of its signal in the first netlist, and that of its signal in the second one.
#[derive(Drop)]
pub struct Cones {
    pub first: Cone,
    pub second: Cone,
}

/// Returns the cones of a pair. Fails if memory is refused.
pub(crate) fn cones_of<H>(
    context: &ConeContext<'_, H>,
    subject: &Subject,
) -> Result<Cones, AllocError>
    requires ready { IsConeContext context.now }
    requires in_range { IsInContext context.now subject.now }
    ensures { IfOk result (AreConesOf context.now subject.now) }
{
    let task = context.task;
    let alloc = task.alloc;
    let net = task.first;
    let first = cone_of(
        alloc,
        net,
        subject.first,
        context.first,
        context.first_gates,
    )?;
    let net = task.second;
    let second = cone_of(
        alloc,
        net,
        subject.second,
        context.second,
        context.second_gates,
    )?;
    Ok(Cones { first, second })
}

/// Returns a flag for each of `count` levels, none of which is set.
fn no_levels(alloc: Global, count: usize) -> Result<Vec<bool>, AllocError>
    ensures { IfOk result (λ v. v.items ≡ replicate count false) }
{
    Vec::from_elem(alloc, false, count)
}

/// Sets the flag of a level, if there is one.
fn set_level(has_level: &mut Vec<bool>, level: usize)
    ensures { has_level.new.items ≡ slice_set has_level.old.items level true }
{
    if level < has_level.len() {
        has_level[level] = true;
    }
}

/// Sets the flag of each level that the cone has a variable of. The sources of a cone begin with those of its
/// variables, which are its inputs, so only as many sources as inputs are visited.
fn add_levels(has_level: &mut Vec<bool>, naming: &Naming, part: NetlistRole, cone: &Cone)
    ensures { AreSetAt (cone_levels part naming.now cone.now) has_level.old.items has_level.new.items }
{
    let from = cone.sources();
    let count = cone.net.inputs().len().min(from.len());
    for place in 0..count {
        let level = level_in(naming, part, from[place]);
        set_level(has_level, level as usize);
    }
}

/// The same for the cone of the condition, if there is a condition.
fn add_given_levels(has_level: &mut Vec<bool>, naming: &Naming, given: &Option<Cone>)
    ensures { AreSetAt (given_levels naming.now given.now) has_level.old.items has_level.new.items }
{
    match given {
        Some(cone) => add_levels(has_level, naming, NetlistRole::Given, cone),
        None => {}
    }
}

/// Returns the places of the flags that are set, in rising order.
fn true_places(alloc: Global, has_level: &[bool]) -> Result<Vec<u32>, AllocError>
    requires { length has_level.now ≤ MAX_NAMES }
    ensures set { IfOk result (λ v. v.items ≡ filter (λ l. slice_index_or has_level.now l false) (numbers_below (length has_level.now))) }
    ensures places { IfOk result (λ v. ArePlaces (length has_level.now) v.items) }
    ensures few { IfOk result (λ v. length v.items ≤ length has_level.now) }
{
    let mut places = Vec::new(alloc);
    for place in 0..has_level.len() {
        if has_level[place] {
            places.push(place as u32)?;
        }
    }
    Ok(places)
}

/// Returns the levels of all variables of the cones of a pair and of the condition's cone, in rising order. Takes time
/// linear in the number of levels and in the size of the cones. Fails if memory is refused.
pub(crate) fn places_of<H>(
    context: &ConeContext<'_, H>,
    cones: &Cones,
) -> Result<Vec<u32>, AllocError>
    ensures levels { IfOk result (λ v. v.items ≡ among_below (length context.now.naming.now.names) (pair_levels context.now cones.now)) }
    ensures places { IfOk result (λ v. ArePlaces (length context.now.naming.now.names) v.items) }
    ensures few { IfOk result (λ v. length v.items ≤ MAX_NAMES) }
{
    let naming = context.naming;
    let mut has_level = no_levels(context.task.alloc, naming.names().len())?;
    add_levels(&mut has_level, naming, NetlistRole::First, &cones.first);
    add_levels(&mut has_level, naming, NetlistRole::Second, &cones.second);
    add_given_levels(&mut has_level, naming, context.given);
    true_places(context.task.alloc, has_level.as_slice())
}

/// Returns the name that a variable has in cones. The letter `v` before it keeps it apart from the names of gates.
fn cone_name(alloc: Global, name: &[u8]) -> Result<Vec<u8>, AllocError>
    ensures { IfOk result (λ v. v.items ≡ 118 ∷ name.now) }
{
    let mut whole = Vec::new(alloc);
    whole.push(b'v')?;
    whole.extend_from_slice(name)?;
    Ok(whole)
}

/// Returns the names that the variables of a list have in cones.
fn cone_names(alloc: Global, names: &Names) -> Result<Names, AllocError>
    ensures { IfOk result (λ list. list ≡ cone_names names.now) }
{
    let mut list = Vec::new(alloc);
    for place in 0..names.len() {
        list.push(cone_name(alloc, names.at(place))?)?;
    }
    Ok(Names::of(list))
}

/// Returns the order of cones that is tried before those of the candidates, if the settings give one. It is an extended
/// order, since the names of the list and the variables of a pair's cones need not be the same.
pub(crate) fn cone_order(alloc: Global, order: &Strategy) -> Result<Option<Order>, AllocError>
    ensures { IfOk result (λ o. o ≡ cone_order order.now) }
{
    match order {
        Strategy::ConesByList(names) => {
            let names = cone_names(alloc, names)?;
            Ok(Some(Order::Extended(names)))
        }
        _ => Ok(None),
    }
}

/// Returns the names that the variables at these levels have in cones.
fn names_at(alloc: Global, names: &Names, places: &[u32]) -> Result<Names, AllocError>
    requires low { All (λ place. place < length names.now) places.now }
    requires few { length places.now ≤ MAX_NAMES }
    ensures { IfOk result (λ list. list ≡ map (variable_name names.now) places.now) }
{
    let mut list = Vec::new(alloc);
    for place in 0..places.len() {
        let name = names.at(places[place] as usize);
        list.push(cone_name(alloc, name)?)?;
    }
    Ok(Names::of(list))
}

/// Returns the netlist of the condition's cone, if there is a condition.
fn net_of(given: &Option<Cone>) -> Option<&Netlist>
    ensures { condition result ≡ circuit_in given.now }
{
    match given {
        Some(cone) => Some(&cone.net),
        None => None,
    }
}

/// Returns the task of comparing a pair's cones, under the condition's cone if there is one.
pub(crate) fn task_of<'a, H>(
    context: &ConeContext<'a, H>,
    settings: &'a Settings,
    cones: &'a Cones,
) -> Task<'a, H>
    requires ready { IsConeContext context.now }
    requires settings { IsPairSettings context.now settings.now }
    ensures { IsConeTask context.now cones.now result }
{
    Task {
        rt: context.task.rt,
        alloc: context.task.alloc,
        first: &cones.first.net,
        second: &cones.second.net,
        given: net_of(context.given),
        settings,
    }
}

/// Returns the fault of a comparison of cones as a fault of the whole comparison. Cones are paired by name, in an order
/// that lists their variables, and too many variables are handled before; so if no pairing is made, memory was refused.
pub fn as_comparison_fault(fault: CheckFault) -> CheckFault
    requires { EndsAtOnce fault }
    ensures { EndsPairs result }
{
    match fault {
        CheckFault::Wave(_) => fault,
        _ => CheckFault::OutOfMemory,
    }
}

/// Returns the pairing of a pair's cones, whose variables are in the same order as in the whole comparison. There is
/// none if the cones together have more variables than a pairing can have. Fails only if memory is refused.
pub(crate) fn cone_pairing<H>(
    task: &Task<'_, H>,
    names: &Names,
    places: &[u32],
) -> Result<Option<Pairing>, CheckFault>
    requires low { All (λ place. place < length names.now) places.now }
    requires few { length places.now ≤ MAX_NAMES }
    ensures paired { IfOk result (λ o. IfSome o (λ q. (order : OrderValue) × IsPairingIn task.now order q
        × (q.names ≡ map (variable_name names.now) places.now))) }
    ensures many { result ≡ Ok None → HasTooManyVariables task.now }
    ensures ends { IfErr result EndsPairs }
{
    let list = names_at(task.alloc, names, places)?;
    match paired(task, &Order::Listed(list)) {
        Ok(pairing) => Ok(Some(pairing)),
        Err(CheckFault::Order(OrderFault::TooManyInputs)) => Ok(None),
        Err(fault) => Err(as_comparison_fault(fault)),
    }
}
