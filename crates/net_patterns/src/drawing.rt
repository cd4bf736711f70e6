//! The words of patterns: the bits of one level in 64 patterns.
ghost use Rattle.std.specs.Prelude.{◌≡◌, ◌<◌, ◌+◌, ◌*◌, ◌^◌, ℕ};
ghost use Rattle.net_simulate.specs.Columns.{bit_in};
ghost use Rattle.net_patterns.specs.Drawing.{combined, drawn_word, single_bit};

use rand_core::{Rng, SeedableRng};
use rand_xoshiro::SplitMix64;

/// A word whose bits of odd numbers are 1.
const ODD_BITS: u64 = 0xaaaa_aaaa_aaaa_aaaa;

/// A word of the first patterns, in which one variable differs from all others: bit i is that of pattern 64 * word + i.
pub(crate) fn single_word(word: usize, level: usize) -> u64
    requires { level + 1 < 2 ^ 64 }
    ensures { (i : ℕ) → i < 64 → bit_in i result ≡ single_bit (64 * word + i) level }
{
    let own = level + 1;
    if own / 32 == word {
        ODD_BITS ^ (3 << (2 * (own % 32)))
    } else {
        ODD_BITS
    }
}

/// One of two words, or both combined, by the number of the word, so that some words have fewer 1s and some more.
fn combined(word: usize, one: u64, two: u64) -> u64
    ensures { result ≡ combined word one two }
{
    let kind = word % 4;
    if kind == 2 {
        one & two
    } else if kind == 3 {
        one | two
    } else {
        one
    }
}

/// A word of pseudo-random bits by the generator SplitMix64 (Steele, Lea and Flood 2014). The seed is made of the
/// word's number and the level, so that each word is the same in every run.
pub(crate) fn drawn_word(word: usize, level: usize) -> u64
    ensures { result ≡ drawn_word word level }
{
    let mut generator = SplitMix64::seed_from_u64(((word as u64) << 32) ^ (level as u64));
    let one = generator.next_u64();
    let two = generator.next_u64();
    combined(word, one, two)
}

/// Whether the bit of this number is 1.
pub(crate) fn has_bit(word: u64, number: usize) -> bool
    requires { number < 64 }
    ensures { result ≡ bit_in number word }
{
    (word >> number) & 1 == 1
}
