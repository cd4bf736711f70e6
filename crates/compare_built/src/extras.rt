//! What a verdict reports besides the values of a pair: the sizes of the two diagrams, and the variables on which one
//! of the two functions depends.
ghost use Rattle.std.specs.Prelude.{◌≡◌, false, IfOk};
ghost use Rattle.counter_walk.specs.DeclaredOrder.{IsOrder, by_declared};
ghost use Rattle.counter_walk.specs.Support.{IsSupportOf};
ghost use Rattle.dd_store.specs.Nodes.{den};
ghost use Rattle.dd_store.specs.View.{Has};
ghost use Rattle.compare_built.specs.Report.{IsSizeShown, IsSupportShown, AreExtrasShown, AreSizesShown};

use crate::scatter::scatter_bits;
use crate::verdict_order::Details;
use counter_walk::support_of;
use dd_store::{Ref, Store};
use report_text::{Bits, Extras, PairKind};
use std::alloc::{AllocError, Global};

/// The role and the name under which a pair is reported, and its two diagrams.
#[derive(Clone, Copy, Drop)]
pub struct Diagrams<'a> {
    pub role: PairKind,
    pub name: &'a [u8],
    pub first: Ref,
    pub second: Ref,
}

/// Returns the number of nodes of a diagram, or none if sizes are not asked for. Fails if memory is refused.
pub fn size_of(store: &Store, reference: Ref, asked: bool) -> Result<Option<u64>, AllocError>
    requires { Has store.now reference }
    ensures { IfOk result (λ shown. IsSizeShown asked store.now.levels (den store.now reference) shown) }
{
    if asked {
        let size = store.size(reference)?;
        Ok(Some(size))
    } else {
        Ok(None)
    }
}

/// Returns the numbers of nodes of two diagrams, or none if sizes are not asked for.
fn sizes_of(
    store: &Store,
    first: Ref,
    second: Ref,
    asked: bool,
) -> Result<Option<(u64, u64)>, AllocError>
    requires first_known { Has store.now first }
    requires second_known { Has store.now second }
    ensures { IfOk result (λ shown. AreSizesShown asked store.now.levels (den store.now first) (den store.now second) shown) }
{
    if asked {
        let one = store.size(first)?;
        let two = store.size(second)?;
        Ok(Some((one, two)))
    } else {
        Ok(None)
    }
}

/// Returns, for each level, whether one of two functions depends on its variable, or none if support is not asked for.
fn support_in(
    alloc: Global,
    store: &Store,
    first: Ref,
    second: Ref,
    asked: bool,
) -> Result<Option<Bits>, AllocError>
    requires first_known { Has store.now first }
    requires second_known { Has store.now second }
    ensures { IfOk result (λ shown. IsSupportShown asked store.now.levels (den store.now first) (den store.now second) shown) }
{
    if asked {
        let levels = support_of(alloc, store, first, second)?;
        Ok(Some(Bits::of(levels)))
    } else {
        Ok(None)
    }
}

/// Returns what the verdict of two different functions reports besides its assignment, which is the least difference.
/// The support is by level. Fails if memory is refused.
pub fn extras_of(
    alloc: Global,
    store: &Store,
    first: Ref,
    second: Ref,
    asked: Details,
) -> Result<Extras, AllocError>
    requires first_known { Has store.now first }
    requires second_known { Has store.now second }
    ensures { IfOk result (AreExtrasShown asked store.now.levels (den store.now first) (den store.now second)) }
{
    let sizes = sizes_of(store, first, second, asked.sizes)?;
    let support = support_in(alloc, store, first, second, asked.support)?;
    Ok(Extras {
        least: true,
        support,
        sizes,
    })
}

/// Returns an order with its places as 32-bit numbers, as `scatter_bits` takes them.
fn as_places(alloc: Global, order: &[u16]) -> Result<Vec<u32>, AllocError>
    ensures { IfOk result (λ v. v.items ≡ order.now) }
{
    let mut places = Vec::new(alloc);
    for place in order {
        places.push(*place as u32)?;
    }
    Ok(places)
}

/// Returns, for each place of an order, whether one of two functions depends on the variable there.
fn arranged_support(
    alloc: Global,
    store: &Store,
    of: &Diagrams<'_>,
    order: &[u16],
) -> Result<Bits, AllocError>
    requires first_known { Has store.now of.now.first }
    requires second_known { Has store.now of.now.second }
    requires order { IsOrder store.now.levels order.now }
    ensures { IfOk result (IsSupportOf store.now.levels (by_declared order.now (den store.now of.now.first))
        (by_declared order.now (den store.now of.now.second))) }
{
    let levels = support_of(alloc, store, of.first, of.second)?;
    let places = as_places(alloc, order)?;
    let declared = scatter_bits(alloc, levels.as_slice(), order.len(), places.as_slice())?;
    Ok(Bits::of(declared))
}

/// Returns the same, or none if support is not asked for.
fn arranged_support_in(
    alloc: Global,
    store: &Store,
    of: &Diagrams<'_>,
    order: &[u16],
    asked: bool,
) -> Result<Option<Bits>, AllocError>
    requires first_known { Has store.now of.now.first }
    requires second_known { Has store.now of.now.second }
    requires order { IsOrder store.now.levels order.now }
    ensures { IfOk result (λ shown. IsSupportShown asked store.now.levels (by_declared order.now (den store.now of.now.first))
        (by_declared order.now (den store.now of.now.second)) shown) }
{
    if asked {
        let support = arranged_support(alloc, store, of, order)?;
        Ok(Some(support))
    } else {
        Ok(None)
    }
}

/// Returns what the verdict of two different functions reports besides its assignment, which is the least difference in
/// another order. The support is in that order too. There are no sizes, since those of diagrams in that order are not
/// known. Fails if memory is refused.
pub fn arranged_extras(
    alloc: Global,
    store: &Store,
    of: &Diagrams<'_>,
    order: &[u16],
    asked: bool,
) -> Result<Extras, AllocError>
    requires first_known { Has store.now of.now.first }
    requires second_known { Has store.now of.now.second }
    requires order { IsOrder store.now.levels order.now }
    ensures { IfOk result (AreExtrasShown (record { sizes = false; support = asked }) store.now.levels
        (by_declared order.now (den store.now of.now.first)) (by_declared order.now (den store.now of.now.second))) }
{
    let support = arranged_support_in(alloc, store, of, order, asked)?;
    Ok(Extras {
        least: true,
        support,
        sizes: None,
    })
}
