//! The words of references: each node has a number of eight bytes, of which four suffice for most.
//! In all forms the level plus 1 is above the shard, the shard above the place, and the place above
//! bit 0, which is the complement bit.
ghost use Rattle.std.specs.Prelude.{◌≡◌, ◌<◌, ◌^◌, false};
ghost use Rattle.dd_store.specs.declared.reference.Reference.{Reference};
ghost use Rattle.dd_store.specs.Words.{is_near, is_far, node_word, node_of, reference_of, IsWord, IsNodeWord};

use crate::reference::{NodeId, SHARDS};

/// A node is near if its level is below this number and its place below `NEAR_PLACES`. In its word the shard begins at
/// bit 18, whose value is `NEAR_SHARD`.
const NEAR_LEVELS: u16 = 255;

const NEAR_PLACES: u32 = 1 << 17;

const NEAR_SHARD: u64 = 1 << 18;

/// A node is far if its level is below this number but not below `NEAR_LEVELS`, and its place below `FAR_PLACES`. In
/// its word the shard begins at bit 14, and the bit `FAR` is set.
const FAR_LEVELS: u16 = 4095;

const FAR_PLACES: u32 = 1 << 13;

const FAR_SHARD: u64 = 1 << 14;

const FAR: u64 = 1 << 30;

/// The least number above the words of near and far nodes; the words of all others are greater.
pub const LONG: u64 = 1 << 31;

/// The values of the lowest bit of the level and of the shard in the word of a node that is neither near nor far.
const LEVEL_BIT: u64 = 1 << 41;

const SHARD_BIT: u64 = 1 << 33;

/// The value of the lowest bit of the place in each word; bit 0 is the complement bit.
const INDEX_BIT: u64 = 2;

/// The number of places of a shard.
const PLACES: u64 = 1 << 32;

/// Whether a node is near.
#[inline(always)]
fn is_near(id: NodeId) -> bool
    ensures { result ≡ is_near id }
{
    id.level < NEAR_LEVELS && (id.shard as usize) < SHARDS && id.index < NEAR_PLACES
}

/// Whether a node is far.
#[inline(always)]
fn is_far(id: NodeId) -> bool
    ensures { result ≡ is_far id }
{
    id.level >= NEAR_LEVELS
        && id.level < FAR_LEVELS
        && (id.shard as usize) < SHARDS
        && id.index < FAR_PLACES
}

/// Returns the word of the reference to a node without a complement bit.
#[inline(always)]
pub fn node_word(id: NodeId) -> u64
    ensures word { result ≡ node_word id }
    ensures within { IsNodeWord result }
    ensures node { reference_of result ≡ Reference.Node id false }
{
    let level = id.level as u64 + 1;
    let name = level * SHARDS as u64 + id.shard as u64;
    let place = id.index as u64 * INDEX_BIT;
    if is_near(id) {
        name * NEAR_SHARD + place
    } else if is_far(id) {
        FAR + name * FAR_SHARD + place
    } else {
        level * LEVEL_BIT + id.shard as u64 * SHARD_BIT + place
    }
}

/// Returns the name of the node that a word refers to.
#[inline(always)]
pub fn node_of(word: u64) -> NodeId
    requires { IsNodeWord word }
    ensures { result ≡ node_of word }
{
    let shards = SHARDS as u64;
    if word < FAR {
        return NodeId {
            level: (word / (NEAR_SHARD * shards) - 1) as u16,
            shard: (word / NEAR_SHARD % shards) as u8,
            index: (word / INDEX_BIT) as u32 % NEAR_PLACES,
        };
    }
    if word < LONG {
        return NodeId {
            level: ((word - FAR) / (FAR_SHARD * shards) - 1) as u16,
            shard: (word / FAR_SHARD % shards) as u8,
            index: (word / INDEX_BIT) as u32 % FAR_PLACES,
        };
    }
    NodeId {
        level: (word / LEVEL_BIT - 1) as u16,
        shard: (word / SHARD_BIT % 256) as u8,
        index: (word / INDEX_BIT % PLACES) as u32,
    }
}

/// Returns the place of the node that a word refers to, and 0 for a terminal.
#[inline(always)]
pub fn place_of(word: u64) -> u64
    requires { IsWord word }
    ensures terminal { word < 2 → result ≡ 0 }
    ensures node { IsNodeWord word → result ≡ (node_of word).index }
    ensures small { result < 2 ^ 32 }
{
    let place = word / INDEX_BIT;
    if word < FAR {
        place % NEAR_PLACES as u64
    } else if word < LONG {
        place % FAR_PLACES as u64
    } else {
        place % PLACES
    }
}
