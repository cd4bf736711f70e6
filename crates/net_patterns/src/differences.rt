//! The first pattern at which each of several pairs differs.
ghost use Rattle.std.specs.Prelude.{◌≡◌, ◌<◌, ℕ, Option, None, length, replicate, slice_index_or, All, IfOk, IfSome};
ghost use Rattle.net_bench.specs.Circuit.{circuit};
ghost use Rattle.net_order.specs.Order.{condition};
ghost use Rattle.net_patterns.specs.Choices.{IsNext};
ghost use Rattle.net_patterns.specs.Differences.{AreFirst, HasOutput, IsPairOf};
ghost use Rattle.net_patterns.specs.Patterns.{pattern_count};
ghost use Rattle.net_patterns.specs.Simulated.{AreApart, IsPairIn, first_bit};

use crate::apart::next_apart;
use crate::counterexample::ShownPattern;
use crate::patterns::Patterns;
use crate::sides::{Netlists, Sides, evaluate, sides_of};
use net_bench::netlist::Signal;
use net_simulate::{Block, no_bits};
use std::alloc::{AllocError, Global};

/// For each of so many pairs nothing found yet.
fn none_found(alloc: Global, count: usize) -> Result<Vec<Option<ShownPattern>>, AllocError>
    ensures { IfOk result (λ v. v.items ≡ replicate count None) }
{
    let mut found = Vec::new(alloc);
    for _ in 0..count {
        found.push(None)?;
    }
    Ok(found)
}

/// Notes what the block evaluated last shows of the pairs of which nothing was found before.
fn add_block(
    sides: &Sides<'_>,
    pairs: &[(Signal, Signal)],
    holds: &Block,
    block: usize,
    found: &mut [Option<ShownPattern>],
)
    requires pairs { All (IsPairIn sides.now) pairs.now }
    requires each { length found.old ≡ length pairs.now }
    requires block { block < 64 }
    ensures { (k : ℕ) (d : ℕ × ℕ) → k < length pairs.now
        → IsNext (AreApart sides.now holds.now (slice_index_or pairs.now k d)) (first_bit sides.now (slice_index_or pairs.now k d)) block
        (slice_index_or found.old k None) (slice_index_or found.new k None) }
{
    for place in 0..pairs.len() {
        let shown = next_apart(found[place], sides, &pairs[place], holds, block);
        found[place] = shown;
    }
}

/// For each pair of a signal of the first netlist and one of the second, the first pattern at which the condition holds
/// and the two functions differ, over the variables of the naming, and the first function's value there; None if there
/// is no such pattern. For each block of patterns time is linear in the gates; memory is allocated only at the
/// beginning.
pub fn first_differences(
    alloc: Global,
    netlists: &Netlists<'_, '_>,
    pairs: &[(Signal, Signal)],
    patterns: &Patterns,
) -> Result<Vec<Option<ShownPattern>>, AllocError>
    requires pairs { All (IsPairOf (circuit netlists.now.first.now) (circuit netlists.now.second.now)) pairs.now }
    requires condition { IfSome (condition netlists.now.given) HasOutput }
    requires variables { patterns.now.variables ≡ length netlists.now.naming.now.names }
    ensures { IfOk result (λ v. AreFirst (circuit netlists.now.first.now) (circuit netlists.now.second.now)
        (condition netlists.now.given) netlists.now.naming.now patterns.now (pattern_count patterns.now) pairs.now v.items) }
{
    let mut sides = sides_of(alloc, netlists)?;
    let mut at = Vec::from_elem(alloc, no_bits(), patterns.variables)?;
    let mut found = none_found(alloc, pairs.len())?;
    for block in 0..patterns.blocks {
        patterns.set_block(block, at.as_mut_slice());
        let holds = evaluate(&mut sides, at.as_slice());
        add_block(&sides, pairs, &holds, block, found.as_mut_slice());
    }
    Ok(found)
}
