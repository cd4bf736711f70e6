//! The hash of a reference, by which workers are chosen, and the shard that a node is in.
ghost use Rattle.std.specs.Prelude.{◌≡◌, ◌<◌, ◌^◌, false};
ghost use Rattle.dd_store.specs.Hashes.{block_of, ref_hash_of, shard_of_pair};
ghost use Rattle.dd_store.specs.Complements.{is_complement};

use crate::reference::{Ref, Reference, SHARDS, complement_pair};
use crate::words::place_of;

/// What the hash of a reference adds for each level, for each place in its shard, and for a complement bit.
const LEVEL_FACTOR: u64 = 17;

const INDEX_FACTOR: u64 = 65537;

const COMPLEMENT_TERM: u64 = 7;

/// How many neighbouring places of a shard have one block number.
const BLOCK: u64 = 4096;

/// The difference of the block numbers of neighbouring blocks. Five is odd, so that blocks go through all 16 shards.
const BLOCK_STEP: u64 = 5;

/// Returns the hash of a reference, by which the owner of a request is found (`req_table`). References may share a
/// hash.
pub fn ref_hash(reference: Ref) -> u64
    ensures number { result ≡ ref_hash_of reference }
    ensures small { result < 2 ^ 49 }
{
    match reference.view() {
        Reference::False => 0,
        Reference::True => 1,
        Reference::Node { id, complement } => {
            let node = 2
                + id.shard as u64
                + LEVEL_FACTOR * id.level as u64
                + INDEX_FACTOR * id.index as u64;
            if complement {
                node + COMPLEMENT_TERM
            } else {
                node
            }
        }
    }
}

/// Returns the block number of a reference. Neighbours in a shard share it, so that their parents are neighbours too.
fn block(reference: Ref) -> u64
    ensures number { result ≡ block_of reference }
    ensures small { result < 2 ^ 33 }
{
    1 + (reference == Ref::TRUE) as u64 + BLOCK_STEP * (place_of(reference.word()) / BLOCK)
}

/// Returns the shard, 0 to 15, of the node with these children, of which `hi` has no complement bit.
#[inline(always)]
pub(crate) fn shard_of_regular(lo: Ref, hi: Ref) -> u8
    requires { is_complement hi ≡ false }
    ensures { result ≡ shard_of_pair lo hi }
{
    ((block(lo) + block(hi)) % SHARDS as u64) as u8
}

/// Returns the shard, 0 to 15, of the node with these children; if `hi` has a complement bit, of the node with their
/// complements, which is the one that a store keeps.
pub fn shard_of(lo: Ref, hi: Ref) -> u8
    ensures { result ≡ shard_of_pair lo hi }
{
    let pair = complement_pair((lo, hi), hi.is_complement());
    shard_of_regular(pair.0, pair.1)
}
