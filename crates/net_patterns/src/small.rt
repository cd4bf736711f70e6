//! How a difference is made smaller: closer to the least, which comes first if levels are read from the top, 0 before 1.
ghost use Rattle.std.specs.Prelude.{◌≡◌, ◌<◌, ◌≤◌, Option, length, vec_len, IfOk, IfSome, IsTrue, MatchOption};
ghost use Rattle.dd_store.specs.Functions.{Before};
ghost use Rattle.net_bench.specs.Circuit.{Circuit, circuit};
ghost use Rattle.net_order.specs.Order.{NamingModel, condition};
ghost use Rattle.net_simulate.specs.Columns.{bit_in_block, column};
ghost use Rattle.net_patterns.specs.Differences.{HasOutput, IsCounterexample, IsLesser, IsPairOf, MakesSmaller};
ghost use Rattle.net_patterns.specs.Simulated.{AreKept, AreOf, HaveOutput, IsPairIn};

use crate::apart::{first_apart, first_value};
use crate::candidates::LevelWindow;
use crate::counterexample::Counterexample;
use crate::drawing::has_bit;
use crate::sides::{Netlists, Sides, evaluate, sides_of};
use net_bench::netlist::Signal;
use net_simulate::{Block, no_bits};
use std::alloc::{AllocError, Global};

/// Whether an assignment comes before another one.
fn is_before(one: &[bool], two: &[bool]) -> bool
    requires { length one.now ≡ length two.now }
    ensures { IsTrue result → Before one.now two.now }
{
    for level in 0..one.len() {
        if one[level] != two[level] {
            return two[level];
        }
    }
    false
}

/// The assignment whose bits are bit `bit` of each level's block.
fn column_at(alloc: Global, at: &[Block], bit: usize) -> Result<Vec<bool>, AllocError>
    requires { bit < 512 }
    ensures { IfOk result (λ v. v.items ≡ column bit_in_block bit at.now) }
{
    let mut bits = Vec::new(alloc);
    for level in 0..at.len() {
        let block = at[level];
        bits.push(has_bit(block[bit / 64], bit % 64))?;
    }
    Ok(bits)
}

/// The first of 512 candidates that is a difference of the pair; None if none is.
fn first_candidate(
    alloc: Global,
    sides: &mut Sides<'_>,
    pair: &(Signal, Signal),
    at: &[Block],
) -> Result<Option<Counterexample>, AllocError>
    requires output { HaveOutput sides.old.given }
    requires pair { IsPairIn sides.old pair.now }
    ensures kept { AreKept sides.old sides.new }
    ensures found { (a b : Circuit) (given : Option Circuit) (p : NamingModel) → AreOf a b given p sides.old
        → length at.now ≡ length p.names
        → IfOk result (λ o. IfSome o (IsCounterexample a b given p pair.now)) }
{
    let holds = evaluate(sides, at);
    match first_apart(sides, pair, &holds) {
        Some(bit) => {
            let first = first_value(sides, pair, bit);
            let bits = column_at(alloc, at, bit)?;
            Ok(Some(Counterexample { at: bits, first }))
        }
        None => Ok(None),
    }
}

/// The candidate, if its assignment comes before that of `small`; otherwise `small`.
fn lesser(small: Counterexample, candidate: Option<Counterexample>) -> Counterexample
    ensures each { vec_len result.at ≡ vec_len small.at }
    ensures lesser { MatchOption candidate (result ≡ small) (λ c. IsLesser small c result) }
{
    let Some(less) = candidate else {
        return small;
    };
    if less.at.len() == small.at.len() && is_before(less.at.as_slice(), small.at.as_slice()) {
        less
    } else {
        small
    }
}

/// The first candidate of a window that is a difference of the pair, if it comes before the counterexample; otherwise the counterexample.
fn try_window(
    alloc: Global,
    sides: &mut Sides<'_>,
    pair: &(Signal, Signal),
    window: &LevelWindow,
    candidates: &mut [Block],
    small: Counterexample,
) -> Result<Counterexample, AllocError>
    requires output { HaveOutput sides.old.given }
    requires pair { IsPairIn sides.old pair.now }
    requires each { vec_len small.at ≡ length candidates.old }
    requires window { window.now.from ≤ vec_len small.at }
    ensures kept { AreKept sides.old sides.new }
    ensures each { IfOk result (λ y. vec_len y.at ≡ vec_len small.at) }
    ensures smaller { (a b : Circuit) (given : Option Circuit) (p : NamingModel) → AreOf a b given p sides.old
        → IsCounterexample a b given p pair.now small → IfOk result (MakesSmaller a b given p pair.now small) }
{
    if !window.is_tried(small.at.as_slice()) {
        return Ok(small);
    }
    window.set_candidates(small.at.as_slice(), candidates);
    let candidate = first_candidate(alloc, sides, pair, candidates)?;
    Ok(lesser(small, candidate))
}

/// The counterexample after all windows of this size that are tried.
fn by_windows(
    alloc: Global,
    sides: &mut Sides<'_>,
    pair: &(Signal, Signal),
    size: usize,
    tried: usize,
    small: Counterexample,
) -> Result<Counterexample, AllocError>
    requires output { HaveOutput sides.old.given }
    requires pair { IsPairIn sides.old pair.now }
    requires some { 0 < size }
    requires few { size ≤ 1000 }
    ensures kept { AreKept sides.old sides.new }
    ensures smaller { (a b : Circuit) (given : Option Circuit) (p : NamingModel) → AreOf a b given p sides.old
        → IsCounterexample a b given p pair.now small → IfOk result (MakesSmaller a b given p pair.now small) }
{
    let mut candidates = Vec::from_elem(alloc, no_bits(), small.at.len())?;
    let mut small = small;
    for from in 0..candidates.len() {
        let window = LevelWindow { from, size, tried };
        small = try_window(
            alloc,
            sides,
            pair,
            &window,
            candidates.as_mut_slice(),
            small,
        )?;
    }
    Ok(small)
}

/// A counterexample of the pair that does not come after the given one, and before it if one is found: nearer to the
/// least difference. In windows of nine groups, from level 0 on, those groups become 0 without which the pair still
/// differs and the condition holds. Groups have 729 levels, then 81, 9 and 1; windows of single levels take the least
/// of all combinations. For each window that has a 1, one block of candidates is evaluated. `windows` bounds how many
/// windows of each size are tried.
pub fn make_small(
    alloc: Global,
    netlists: &Netlists<'_, '_>,
    pair: (Signal, Signal),
    windows: usize,
    found: Counterexample,
) -> Result<Counterexample, AllocError>
    requires pair { IsPairOf (circuit netlists.now.first.now) (circuit netlists.now.second.now) pair }
    requires condition { IfSome (condition netlists.now.given) HasOutput }
    requires difference { IsCounterexample (circuit netlists.now.first.now) (circuit netlists.now.second.now)
        (condition netlists.now.given) netlists.now.naming.now pair found }
    ensures { IfOk result (MakesSmaller (circuit netlists.now.first.now) (circuit netlists.now.second.now)
        (condition netlists.now.given) netlists.now.naming.now pair found) }
{
    let mut sides = sides_of(alloc, netlists)?;
    let rough = by_windows(alloc, &mut sides, &pair, 729, windows, found)?;
    let finer = by_windows(alloc, &mut sides, &pair, 81, windows, rough)?;
    let fine = by_windows(alloc, &mut sides, &pair, 9, windows, finer)?;
    let small = by_windows(alloc, &mut sides, &pair, 1, windows, fine)?;
    Ok(small)
}
