//! Blocks of eight words, which hold a bit for each of 512 assignments.
ghost use Rattle.std.specs.Prelude.{◌≡◌, ◌<◌, ℕ, true, false, not, cond, ◌&&◌, ◌||◌, slice_index, bit_and, bit_or, bit_xor};
ghost use Rattle.net_simulate.specs.Columns.{bit_in_block};

/// Eight words: bit i of the block is bit i mod 64 of word i div 64. A processor with wide registers handles a block at once.
pub type Block = [u64; 8];

/// The block whose bits are all 0.
pub fn no_bits() -> Block
    ensures { (i : ℕ) → i < 512 → bit_in_block i result ≡ false }
{
    [0; 8]
}

/// The block whose bits are all 1.
pub fn all_bits() -> Block
    ensures { (i : ℕ) → i < 512 → bit_in_block i result ≡ true }
{
    [u64::MAX; 8]
}

/// Replaces each word by its `&` with the other block's word at the same place.
fn and_each(block: &mut Block, other: &Block)
    ensures { (j : ℕ) → j < 8 → slice_index block.new j ≡ bit_and (slice_index block.old j) (slice_index other.now j) }
{
    for j in 0..8 {
        block[j] &= other[j];
    }
}

/// Replaces each word by its `|` with the other block's word at the same place.
fn or_each(block: &mut Block, other: &Block)
    ensures { (j : ℕ) → j < 8 → slice_index block.new j ≡ bit_or (slice_index block.old j) (slice_index other.now j) }
{
    for j in 0..8 {
        block[j] |= other[j];
    }
}

/// Replaces each word by its `^` with the other block's word at the same place.
fn xor_each(block: &mut Block, other: &Block)
    ensures { (j : ℕ) → j < 8 → slice_index block.new j ≡ bit_xor (slice_index block.old j) (slice_index other.now j) }
{
    for j in 0..8 {
        block[j] ^= other[j];
    }
}

/// In each bit, the And of both.
pub fn and_blocks(block: &mut Block, other: &Block)
    ensures { (i : ℕ) → i < 512 → bit_in_block i block.new ≡ (bit_in_block i block.old && bit_in_block i other.now) }
{
    and_each(block, other);
}

/// In each bit, the Or of both.
pub fn or_blocks(block: &mut Block, other: &Block)
    ensures { (i : ℕ) → i < 512 → bit_in_block i block.new ≡ (bit_in_block i block.old || bit_in_block i other.now) }
{
    or_each(block, other);
}

/// In each bit, the exclusive or of both.
pub fn xor_blocks(block: &mut Block, other: &Block)
    ensures { (i : ℕ) → i < 512 → bit_in_block i block.new ≡ cond (bit_in_block i other.now) (not (bit_in_block i block.old)) (bit_in_block i block.old) }
{
    xor_each(block, other);
}
