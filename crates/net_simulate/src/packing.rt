//! Values that hold a bit for each of several assignments.
ghost use Rattle.std.specs.Prelude.{◌≡◌, ◌<◌, ℕ, Bool, true, false, not, cond, ◌&&◌, ◌||◌};
ghost use Rattle.net_simulate.specs.Columns.{bit_in, bit_in_block};

use crate::blocks::{Block, all_bits, and_blocks, no_bits, or_blocks, xor_blocks};

/// A value that holds a bit for each of several assignments, which are numbered from 0.
pub trait Packed: Copy + Drop {
    // For how many assignments a value has bits.
    ghost count: { ℕ };

    // The bit of a value for the assignment of this number.
    ghost bit: { ℕ → Self → Bool };

    /// 0 at each assignment.
    fn zeros() -> Self
        ensures { (i : ℕ) → i < count → bit i result ≡ false };

    /// 1 at each assignment.
    fn ones() -> Self
        ensures { (i : ℕ) → i < count → bit i result ≡ true };

    /// In each bit, the And of both.
    fn and_with(&mut self, other: &Self)
        ensures { (i : ℕ) → i < count → bit i self.new ≡ (bit i self.old && bit i other.now) };

    /// In each bit, the Or of both.
    fn or_with(&mut self, other: &Self)
        ensures { (i : ℕ) → i < count → bit i self.new ≡ (bit i self.old || bit i other.now) };

    /// In each bit, the exclusive or of both.
    fn xor_with(&mut self, other: &Self)
        ensures { (i : ℕ) → i < count → bit i self.new ≡ cond (bit i other.now) (not (bit i self.old)) (bit i self.old) };
}

/// A bit for one assignment.
impl Packed for bool {
    ghost count = { 1 };

    ghost bit = { λ i b. b };

    fn zeros() -> bool {
        false
    }

    fn ones() -> bool {
        true
    }

    fn and_with(&mut self, other: &bool) {
        *self = *self && *other;
    }

    fn or_with(&mut self, other: &bool) {
        *self = *self || *other;
    }

    fn xor_with(&mut self, other: &bool) {
        *self = if *other { !*self } else { *self };
    }
}

/// Bits for 64 assignments.
impl Packed for u64 {
    ghost count = { 64 };

    ghost bit = { bit_in };

    #[tactic(auto, using(crate::proofs::Bits::in_none))]
    fn zeros() -> u64 {
        0
    }

    #[tactic(auto, using(crate::proofs::Bits::in_all))]
    fn ones() -> u64 {
        u64::MAX
    }

    #[tactic(auto, using(crate::proofs::Bits::in_and))]
    fn and_with(&mut self, other: &u64) {
        *self &= *other;
    }

    #[tactic(auto, using(crate::proofs::Bits::in_or))]
    fn or_with(&mut self, other: &u64) {
        *self |= *other;
    }

    #[tactic(auto, using(crate::proofs::Bits::in_xor))]
    fn xor_with(&mut self, other: &u64) {
        *self ^= *other;
    }
}

/// Bits for 512 assignments.
impl Packed for Block {
    ghost count = { 512 };

    ghost bit = { bit_in_block };

    fn zeros() -> Block {
        no_bits()
    }

    fn ones() -> Block {
        all_bits()
    }

    fn and_with(&mut self, other: &Block) {
        and_blocks(self, other);
    }

    fn or_with(&mut self, other: &Block) {
        or_blocks(self, other);
    }

    fn xor_with(&mut self, other: &Block) {
        xor_blocks(self, other);
    }
}
