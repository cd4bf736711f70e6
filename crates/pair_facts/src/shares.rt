//! The pairs by falling size of their cones, and the share of each pair if several machines divide them. The pairs with
//! the largest cones are given to the shares first, in serpentine order.
ghost use Rattle.std.specs.Prelude.{◌≡◌, ℕ, ◌+◌, ◌≤◌, ◌<◌, All, IfOk, length, map, slice_index};
ghost use Rattle.std.specs.List.{AllZip};
ghost use Rattle.std.specs.List.Sorted.{IsPermutation};
ghost use Rattle.net_bench.specs.Circuit.{HaveNoRepeats, circuit};
ghost use Rattle.net_order.specs.Force.{numbers_below};
ghost use Rattle.compare_built.specs.Comparing.{IsInside};
ghost use Rattle.compare_built.specs.PairSelection.{AreShares, ComesBefore, HasWeight, serpentine_share};
ghost use Rattle.pair_facts.specs.PairFacts.{IsWeightOrder};

use compare_built::subject::Subject;
use net_bench::netlist::{Netlist, Signal};
use net_cone::gates_below;
use std::alloc::{AllocError, Global};
use std::cmp::Reverse;

/// Returns the first netlist's signal of each pair.
fn first_roots(alloc: Global, subjects: &[Subject]) -> Result<Vec<Signal>, AllocError>
    ensures { IfOk result (λ v. v.items ≡ map (λ subject. subject.first) subjects.now) }
{
    subjects.iter().map(|subject| subject.first).collect(alloc)
}

/// Returns the second netlist's signal of each pair.
fn second_roots(alloc: Global, subjects: &[Subject]) -> Result<Vec<Signal>, AllocError>
    ensures { IfOk result (λ v. v.items ≡ map (λ subject. subject.second) subjects.now) }
{
    subjects.iter().map(|subject| subject.second).collect(alloc)
}

/// Returns the sum of the two numbers at each place. A sum of more than 64 bits is refused as if memory ran out.
fn sums_of(alloc: Global, ones: &[u64], others: &[u64]) -> Result<Vec<u64>, AllocError>
    requires { length others.now ≡ length ones.now }
    ensures one_for_each { IfOk result (λ v. length v.items ≡ length ones.now) }
    ensures sums { IfOk result (λ v. (i : ℕ) → i < length ones.now
        → slice_index v.items i ≡ slice_index ones.now i + slice_index others.now i) }
{
    let mut sums = Vec::new(alloc);
    for place in 0..ones.len() {
        match ones[place].checked_add(others[place]) {
            Some(sum) => sums.push(sum)?,
            None => return Err(AllocError),
        }
    }
    Ok(sums)
}

/// Returns the weight of each pair: the number of gates in its two cones together.
fn weights_of(
    alloc: Global,
    first: &Netlist,
    second: &Netlist,
    subjects: &[Subject],
) -> Result<Vec<u64>, AllocError>
    requires { All (IsInside (circuit first.now) (circuit second.now)) subjects.now }
    ensures { IfOk result (λ v. AllZip (HasWeight (circuit first.now) (circuit second.now)) subjects.now v.items) }
{
    let roots = first_roots(alloc, subjects)?;
    let ones = gates_below(alloc, first, roots.as_slice())?;
    let roots = second_roots(alloc, subjects)?;
    let others = gates_below(alloc, second, roots.as_slice())?;
    let sums = sums_of(alloc, ones.as_slice(), others.as_slice())?;
    Ok(sums)
}

/// Returns the weight at a place, or 0 if there is none.
fn weight_at(weights: &[u64], place: usize) -> u64
    ensures { result ≡ slice_index weights.now place }
{
    if place < weights.len() {
        weights[place]
    } else {
        0
    }
}

/// Returns the places of all weights, in rising order.
#[tactic(auto, unfolding(net_order::specs::Force::numbers_below))]
fn places_of(alloc: Global, weights: &[u64]) -> Result<Vec<usize>, AllocError>
    ensures { IfOk result (λ v. v.items ≡ numbers_below (length weights.now)) }
{
    let mut places = Vec::new(alloc);
    for place in 0..weights.len() {
        places.push(place)?;
    }
    Ok(places)
}

/// Returns the places by falling weight; those of equal weights stay in their order.
fn order_of(alloc: Global, weights: &[u64]) -> Result<Vec<usize>, AllocError>
    ensures places { IfOk result (λ v. IsPermutation (numbers_below (length weights.now)) v.items) }
    ensures falls { IfOk result (λ v. (t u : ℕ) → t < u → u < length v.items
        → ComesBefore weights.now (slice_index v.items t) (slice_index v.items u)) }
{
    let mut order = places_of(alloc, weights)?;
    order.sort_by_key(|place| Reverse(weight_at(weights, *place)))?;
    Ok(order)
}

/// Returns the places of the pairs by falling weight, which is the number of gates in a pair's two cones. Pairs of
/// equal weight stay in the order of the report. Takes the time of a walk over the two cones of each pair, and that of
/// sorting the pairs. Fails if memory is refused.
pub fn weight_order(
    alloc: Global,
    first: &Netlist,
    second: &Netlist,
    subjects: &[Subject],
) -> Result<Vec<usize>, AllocError>
    requires { All (IsInside (circuit first.now) (circuit second.now)) subjects.now }
    ensures { IfOk result (λ v. IsWeightOrder (circuit first.now) (circuit second.now) subjects.now v.items) }
{
    let weights = weights_of(alloc, first, second, subjects)?;
    let order = order_of(alloc, weights.as_slice())?;
    Ok(order)
}

/// Returns the share, from 1 to `of`, of the pair at this position of the order by falling weight, counted from 0. In
/// serpentine order the shares are 1, 2 .. n, n .. 2, 1, 1, 2 .. and so on, so that all get about equally many gates.
pub fn serpentine_share(of: u32, position: usize) -> u32
    requires { 1 ≤ of }
    ensures value { result ≡ serpentine_share of position }
    ensures some { 1 ≤ result }
    ensures few { result ≤ of }
{
    let shares = of as usize;
    let place = (position % shares) as u32;
    if position / shares % 2 == 0 {
        place + 1
    } else {
        of - place
    }
}

/// Returns, for each place, the share that it has if places are given to shares in this order.
fn shares_by(alloc: Global, of: u32, order: &[usize]) -> Result<Vec<u32>, AllocError>
    requires some { 1 ≤ of }
    requires in_range { All (λ place. place < length order.now) order.now }
    requires once { HaveNoRepeats order.now }
    ensures one_for_each { IfOk result (λ v. length v.items ≡ length order.now) }
    ensures share { IfOk result (λ v. (t : ℕ) → t < length order.now → slice_index v.items (slice_index order.now t) ≡ serpentine_share of t) }
{
    let mut shares = Vec::from_elem(alloc, 0u32, order.len())?;
    for position in 0..order.len() {
        shares[order[position]] = serpentine_share(of, position);
    }
    Ok(shares)
}

/// Returns the share of each pair, among `of` shares. Fails as `weight_order` does.
pub fn shares_of(
    alloc: Global,
    first: &Netlist,
    second: &Netlist,
    subjects: &[Subject],
    of: u32,
) -> Result<Vec<u32>, AllocError>
    requires some { 1 ≤ of }
    requires in_range { All (IsInside (circuit first.now) (circuit second.now)) subjects.now }
    ensures { IfOk result (λ v. AreShares (circuit first.now) (circuit second.now) subjects.now of v.items) }
{
    let order = weight_order(alloc, first, second, subjects)?;
    let shares = shares_by(alloc, of, order.as_slice())?;
    Ok(shares)
}
