//! The first assignment of a block at which the values of a pair differ.
ghost use Rattle.std.specs.Prelude.{◌≡◌, ◌≢◌, ◌<◌, true};
ghost use Rattle.net_simulate.specs.Columns.{bit_in, bit_in_block};
ghost use Rattle.net_patterns.specs.Choices.{IsFirst, IsNext};
ghost use Rattle.net_patterns.specs.Simulated.{AreApart, IsPairIn, first_bit};

use crate::counterexample::ShownPattern;
use crate::drawing::has_bit;
use crate::sides::Sides;
use net_bench::netlist::Signal;
use net_simulate::Block;

/// The number of the lowest bit that is 1; None if there is none.
fn first_one(word: u64) -> Option<usize>
    ensures { IsFirst (λ i. bit_in i word ≡ true) 64 result }
{
    if word == 0 {
        None
    } else {
        Some(word.trailing_zeros() as usize)
    }
}

/// The first bit at which two words differ, of those in which the condition's word is 1.
fn first_in_word(first: u64, second: u64, holds: u64) -> Option<usize>
    ensures { IsFirst (λ i. (bit_in i holds ≡ true) × (bit_in i first ≢ bit_in i second)) 64 result }
{
    first_one((first ^ second) & holds)
}

/// The first bit at which two blocks differ, of those in which the condition's block is 1.
fn first_in_block(first: &Block, second: &Block, holds: &Block) -> Option<usize>
    ensures { IsFirst (λ i. (bit_in_block i holds.now ≡ true) × (bit_in_block i first.now ≢ bit_in_block i second.now)) 512 result }
{
    for place in 0..8 {
        if let Some(bit) = first_in_word(first[place], second[place], holds[place]) {
            return Some(64 * place + bit);
        }
    }
    None
}

/// The first assignment of the block evaluated last at which the values of a pair differ, of those at which the condition holds.
pub(crate) fn first_apart(
    sides: &Sides<'_>,
    pair: &(Signal, Signal),
    holds: &Block,
) -> Option<usize>
    requires { IsPairIn sides.now pair.now }
    ensures { IsFirst (AreApart sides.now holds.now pair.now) 512 result }
{
    let (one, two) = *pair;
    let first = sides.first.value(one);
    let second = sides.second.value(two);
    first_in_block(&first, &second, holds)
}

/// The value of a pair's first signal at an assignment of the block evaluated last.
pub(crate) fn first_value(sides: &Sides<'_>, pair: &(Signal, Signal), bit: usize) -> bool
    requires pair { IsPairIn sides.now pair.now }
    requires bit { bit < 512 }
    ensures { result ≡ first_bit sides.now pair.now bit }
{
    let (one, _) = *pair;
    let block = sides.first.value(one);
    has_bit(block[bit / 64], bit % 64)
}

/// What was found earlier; if nothing was, the first pattern of this block at which the values of a pair differ.
pub(crate) fn next_apart(
    earlier: Option<ShownPattern>,
    sides: &Sides<'_>,
    pair: &(Signal, Signal),
    holds: &Block,
    block: usize,
) -> Option<ShownPattern>
    requires pair { IsPairIn sides.now pair.now }
    requires block { block < 64 }
    ensures { IsNext (AreApart sides.now holds.now pair.now) (first_bit sides.now pair.now) block earlier result }
{
    if let Some(shown) = earlier {
        return Some(shown);
    }
    match first_apart(sides, pair, holds) {
        Some(bit) => Some(ShownPattern {
            number: 512 * block + bit,
            first: first_value(sides, pair, bit),
        }),
        None => None,
    }
}
