//! Groups of variables: those that exclusive ors of two of them join, such as the two operands of an adder at one bit.
ghost use Rattle.std.specs.Prelude.{◌≡◌, ◌∷◌, [], None, fold, IfOk, OnOk};
ghost use Rattle.net_order.specs.Force.{with_added};
ghost use Rattle.net_order.specs.Index.{rising};
ghost use Rattle.group_order.specs.Groups.{group_labels, group_places, grouped, has_no_hub, is_hub, is_pair, joined, joining_pairs, once, pair_counts, renamed};
ghost use Rattle.group_order.specs.Groups.{sorted_pairs};

use crate::sides::IndexedNetlist;
use crate::small_functions::{XorPair, xor_pairs};
use crate::tables::{add_one, first_places, place_at};
use net_order::tables::{number_at, numbers_below, sort_by_table};
use std::alloc::{AllocError, Global};

/// Sorts pairs by their second variable.
fn sort_by_high(pairs: &mut Vec<XorPair>) -> Result<(), AllocError>
    ensures { OnOk result (pairs.new.items ≡ rising (λ p. p.high) pairs.old.items) }
{
    pairs.sort_by_key(|pair| pair.high)?;
    Ok(())
}

/// Sorts pairs by their first variable.
fn sort_by_low(pairs: &mut Vec<XorPair>) -> Result<(), AllocError>
    ensures { OnOk result (pairs.new.items ≡ rising (λ p. p.low) pairs.old.items) }
{
    pairs.sort_by_key(|pair| pair.low)?;
    Ok(())
}

/// Whether this pair is the same as the last one.
fn is_pair(last: Option<XorPair>, pair: XorPair) -> bool
    ensures { result ≡ is_pair last pair }
{
    match last {
        None => false,
        Some(last) => last.low == pair.low && last.high == pair.high,
    }
}

/// Sorted pairs without repetitions.
fn once(alloc: Global, pairs: &[XorPair]) -> Result<Vec<XorPair>, AllocError>
    ensures { IfOk result (λ v. v.items ≡ once None pairs.now) }
{
    let mut kept = Vec::new(alloc);
    let mut last = None;
    for pair in pairs {
        if !is_pair(last, *pair) {
            kept.push(*pair)?;
            last = Some(*pair);
        }
    }
    Ok(kept)
}

/// The pairs by their first variable, then by their second, without repetitions.
#[tactic(auto, unfolding(crate::specs::Groups::sorted_pairs))]
fn sorted_pairs(alloc: Global, pairs: Vec<XorPair>) -> Result<Vec<XorPair>, AllocError>
    ensures { IfOk result (λ v. v.items ≡ sorted_pairs pairs.items) }
{
    let mut sorted = pairs;
    sort_by_high(&mut sorted)?;
    sort_by_low(&mut sorted)?;
    once(alloc, sorted.as_slice())
}

/// Counts a pair for each of its two variables.
fn count_pair(counts: &mut Vec<u64>, pair: XorPair)
    ensures { counts.new.items ≡ with_added 1 counts.old.items (pair.low ∷ pair.high ∷ []) }
{
    add_one(counts, pair.low as usize);
    add_one(counts, pair.high as usize);
}

/// For each variable the number of pairs that it is in.
#[tactic(auto, unfolding(crate::specs::Groups::pair_counts))]
fn pair_counts(alloc: Global, count: usize, pairs: &[XorPair]) -> Result<Vec<u64>, AllocError>
    ensures { IfOk result (λ v. v.items ≡ pair_counts count pairs.now) }
{
    let mut counts = Vec::from_elem(alloc, 0u64, count)?;
    for pair in pairs {
        count_pair(&mut counts, *pair);
    }
    Ok(counts)
}

/// Whether a variable that is in so many pairs is a hub: it is in more than two, and in at least a third of all.
fn is_hub(total: u64, count: u64) -> bool
    ensures { result ≡ is_hub total count }
{
    count > 2 && u128::from(total) <= u128::from(count) * 3
}

/// Whether neither variable of a pair is a hub.
fn has_no_hub(total: u64, counts: &[u64], pair: XorPair) -> bool
    ensures { result ≡ has_no_hub total counts.now pair }
{
    !is_hub(total, number_at(counts, pair.low as usize))
        && !is_hub(total, number_at(counts, pair.high as usize))
}

/// The pairs without hubs: only these join groups, since a hub would join nearly all variables to one group.
#[tactic(auto, unfolding(crate::specs::Groups::joining_pairs))]
fn joining_pairs(alloc: Global, count: usize, pairs: &[XorPair]) -> Result<Vec<XorPair>, AllocError>
    ensures { IfOk result (λ v. v.items ≡ joining_pairs count pairs.now) }
{
    let counts = pair_counts(alloc, count, pairs)?;
    let total = pairs.len() as u64;
    pairs
        .iter()
        .copied()
        .filter(|pair| has_no_hub(total, counts.as_slice(), *pair))
        .collect(alloc)
}

/// A label, after `from` was renamed to `to`.
fn renamed(from: usize, to: usize, label: usize) -> usize
    ensures { result ≡ renamed from to label }
{
    if label == from { to } else { label }
}

/// Gives both variables of a pair, and all others with their labels, one label.
fn join(alloc: Global, labels: &mut Vec<usize>, pair: XorPair) -> Result<(), AllocError>
    ensures { OnOk result (labels.new.items ≡ joined labels.old.items pair) }
{
    let from = place_at(labels.as_slice(), pair.high as usize);
    let to = place_at(labels.as_slice(), pair.low as usize);
    if from == to {
        return Ok(());
    }
    let old = labels.as_slice();
    let new: Vec<usize> = old
        .iter()
        .map(|label| renamed(from, to, *label))
        .collect(alloc)?;
    *labels = new;
    Ok(())
}

/// Does so for all pairs.
fn join_all(alloc: Global, labels: &mut Vec<usize>, pairs: &[XorPair]) -> Result<(), AllocError>
    ensures { OnOk result (labels.new.items ≡ fold joined labels.old.items pairs.now) }
{
    for pair in pairs {
        join(alloc, labels, *pair)?;
    }
    Ok(())
}

/// For each variable the label of its group. Each pair that joins two groups goes through all labels, so the time is at
/// most the square of the number of variables, which a pairing limits to 4,096.
#[tactic(auto, unfolding(crate::specs::Groups::group_labels))]
pub fn group_labels(
    alloc: Global,
    count: usize,
    sides: &[IndexedNetlist<'_>],
) -> Result<Vec<usize>, AllocError>
    ensures { IfOk result (λ v. v.items ≡ group_labels count sides.now) }
{
    let pairs = xor_pairs(alloc, sides)?;
    let sorted = sorted_pairs(alloc, pairs)?;
    let joining = joining_pairs(alloc, count, sorted.as_slice())?;
    let mut labels = numbers_below(alloc, count)?;
    join_all(alloc, &mut labels, joining.as_slice())?;
    Ok(labels)
}

/// For each variable the first place of its group in an order.
#[tactic(auto, unfolding(crate::specs::Groups::group_places))]
fn group_places(alloc: Global, labels: &[usize], order: &[usize]) -> Result<Vec<u64>, AllocError>
    ensures { IfOk result (λ v. v.items ≡ group_places labels.now order.now) }
{
    let places = first_places(alloc, labels, order)?;
    let places = places.as_slice();
    labels
        .iter()
        .map(|label| number_at(places, *label))
        .collect(alloc)
}

/// Moves the variables of each group together, to where the first of them is. Within a group the order is unchanged.
#[tactic(auto, unfolding(crate::specs::Groups::grouped))]
pub fn put_groups_together(
    alloc: Global,
    labels: &[usize],
    order: &mut Vec<usize>,
) -> Result<(), AllocError>
    ensures { OnOk result (order.new.items ≡ grouped labels.now order.old.items) }
{
    let places = group_places(alloc, labels, order.as_slice())?;
    sort_by_table(order, places.as_slice())
}
