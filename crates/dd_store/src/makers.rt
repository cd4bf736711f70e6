//! Threads that share the shards of a level: each makes the nodes of some neighbouring shards,
//! which no other thread touches.
ghost use Rattle.std.specs.Prelude.{◌≡◌, ◌+◌, ◌^◌, ◌<◌, ◌≤◌, ℕ, length, slice_index_or, All};
ghost use Rattle.std.specs.Thread.{IsSync};
ghost use Rattle.dd_store.specs.declared.level.ShardState.{ShardState as ShardValue};
ghost use Rattle.dd_store.specs.Levels.{IsNoted, AreMadeFrom, all_at};

use crate::level::{ShardState, Watch};
use crate::reference::{Ref, SHARDS};
use std::thread::Threads;

/// The threads that make the nodes of a level.
#[derive(Drop)]
pub struct Makers<'a, R, H> {
    /// The runtime that starts the threads.
    pub rt: &'a R,
    /// Is notified when a thread comes to a shard.
    pub watch: &'a H,
    /// The greatest number of threads for one level, the caller's included.
    pub count: u32,
}

/// What is to be added to the shards of a level: lists of pairs by part and shard. `limit` holds for each shard by
/// itself.
#[derive(Drop)]
struct Lists<'a, H> {
    parts: &'a [Vec<Vec<(Ref, Ref)>>],
    limit: u64,
    level: u16,
    watch: &'a H,
}

/// Adds list `shard` of each part to this shard, notes the references of its pairs, and the fault if there is one.
fn note_lists<H>(shard_state: &mut ShardState, lists: &Lists<'_, H>, shard: usize)
    requires limit { lists.now.limit < 2 ^ 32 }
    requires lists { All (λ part. length part.items ≡ 16) lists.now.parts.now }
    requires shard { shard < 16 }
    ensures { IsNoted lists.now.limit lists.now.level shard (all_at lists.now.parts.now shard) shard_state.old shard_state.new }
{
    shard_state.fault = shard_state
        .make_lists(lists.parts, lists.limit, lists.level, shard as u8)
        .err();
}

/// Adds the lists of neighbouring shards, the first of which has the number `first`, and notes the references of the
/// pairs.
fn make_shards<H: Watch>(shards: &mut [ShardState], lists: &Lists<'_, H>, first: usize)
    requires limit { lists.now.limit < 2 ^ 32 }
    requires lists { All (λ part. length part.items ≡ 16) lists.now.parts.now }
    requires shards { first + length shards.old ≤ 16 }
    ensures { AreMadeFrom lists.now.limit lists.now.level lists.now.parts.now first shards.old shards.new }
{
    for place in 0..shards.len() {
        let shard = first + place;
        lists.watch.at_shard(shard as u8, lists.level);
        note_lists(&mut shards[place], lists, shard);
    }
}

/// Returns the number of pairs of all parts for a shard, or the greatest `usize` if they are more. It only divides
/// work.
fn pairs_for(parts: &[Vec<Vec<(Ref, Ref)>>], shard: usize) -> usize
    requires lists { All (λ part. length part.items ≡ 16) parts.now }
    requires shard { shard < 16 }
{
    let mut total: usize = 0;
    for part in parts {
        total = total.saturating_add(part[shard].len());
    }
    total
}

/// Returns the number of pairs of all parts for `count` neighbouring shards from `first` on.
fn pairs_from(parts: &[Vec<Vec<(Ref, Ref)>>], first: usize, count: usize) -> usize
    requires lists { All (λ part. length part.items ≡ 16) parts.now }
    requires shards { first + count ≤ 16 }
{
    let mut total: usize = 0;
    for place in 0..count {
        total = total.saturating_add(pairs_for(parts, first + place));
    }
    total
}

/// Returns how many of `count` neighbouring shards the first of `threads` threads gets: as nearly as possible its share
/// of the pairs, but at least one shard, with at least one left for each other thread.
fn first_share(parts: &[Vec<Vec<(Ref, Ref)>>], first: usize, count: usize, threads: usize) -> usize
    requires lists { All (λ part. length part.items ≡ 16) parts.now }
    requires shards { first + count ≤ 16 }
    requires threads { (1 < threads) × (threads ≤ count) }
    ensures { (0 < result) × (result + threads ≤ count + 1) }
{
    let wanted = pairs_from(parts, first, count) / threads;
    let most = count - (threads - 1);
    let mut assigned = pairs_for(parts, first);
    for share in 1..most {
        let next = pairs_for(parts, first + share);
        if assigned.saturating_add(next / 2) > wanted {
            return share;
        }
        assigned = assigned.saturating_add(next);
    }
    most
}

/// Adds the lists of neighbouring shards by `threads` threads.
#[cycle(forks)]
fn make_in_parallel<R: Threads + Sync, H: Watch + Sync>(
    rt: &R,
    lists: &Lists<'_, H>,
    first: usize,
    threads: usize,
    shards: &mut [ShardState],
)
    requires limit { lists.now.limit < 2 ^ 32 }
    requires lists { All (λ part. length part.items ≡ 16) lists.now.parts.now }
    requires shards { first + length shards.old ≤ 16 }
    requires threads { threads ≤ length shards.old }
    ensures { AreMadeFrom lists.now.limit lists.now.level lists.now.parts.now first shards.old shards.new }
{
    if threads < 2 {
        make_shards(shards, lists, first);
        return;
    }
    let share = first_share(lists.parts, first, shards.len(), threads);
    let (own, rest) = shards.split_at_mut(share);
    share_and_rest(rt, lists, threads - 1, first, own, rest);
}

/// Adds the lists of the first share in a thread that this one starts, and meanwhile those of the rest by `threads`
/// threads. So one thread starts all: a thread that has just begun and starts another one would delay it until its own
/// processor is free.
#[cycle(forks)]
fn share_and_rest<R: Threads + Sync, H: Watch + Sync>(
    rt: &R,
    lists: &Lists<'_, H>,
    threads: usize,
    first: usize,
    own: &mut [ShardState],
    rest: &mut [ShardState],
)
    requires limit { lists.now.limit < 2 ^ 32 }
    requires lists { All (λ part. length part.items ≡ 16) lists.now.parts.now }
    requires shards { first + length own.old + length rest.old ≤ 16 }
    requires threads { threads ≤ length rest.old }
    ensures own { AreMadeFrom lists.now.limit lists.now.level lists.now.parts.now first own.old own.new }
    ensures rest { AreMadeFrom lists.now.limit lists.now.level lists.now.parts.now (first + length own.old) rest.old rest.new }
{
    let next = first + own.len();
    let mut front = ||
        requires { IsSync H.row × (lists.now.limit < 2 ^ 32) × All (λ part. length part.items ≡ 16) lists.now.parts.now
            × (first + length own.now ≤ 16) }
        ensures { AreMadeFrom lists.entry.now.limit lists.entry.now.level lists.entry.now.parts.now first own.entry.now own.exit.now }
    { make_shards(own, lists, first) };
    let mut back = ||
        requires { IsSync R.row × IsSync H.row × (lists.now.limit < 2 ^ 32) × All (λ part. length part.items ≡ 16) lists.now.parts.now
            × (next + length rest.now ≤ 16) × (threads ≤ length rest.now) }
        ensures { AreMadeFrom lists.entry.now.limit lists.entry.now.level lists.entry.now.parts.now next rest.entry.now rest.exit.now }
    { make_in_parallel(rt, lists, next, threads, rest) };
    rayon::join_mut(rt, &mut front, &mut back);
}

/// Adds list i of each part to shard i, for the 16 shards of a level, and notes the references of all pairs.
pub(crate) fn make_level<R: Threads + Sync, H: Watch + Sync>(
    makers: &Makers<'_, R, H>,
    shards: &mut [ShardState],
    parts: &[Vec<Vec<(Ref, Ref)>>],
    limit: u64,
    level: u16,
)
    requires shards { length shards.old ≡ 16 }
    requires lists { All (λ part. length part.items ≡ 16) parts.now }
    requires limit { limit < 2 ^ 32 }
    ensures { (s : ℕ) (d : ShardValue) → s < 16 → IsNoted limit level s (all_at parts.now s) (slice_index_or shards.old s d)
        (slice_index_or shards.new s d) }
{
    let lists = Lists {
        parts,
        limit,
        level,
        watch: makers.watch,
    };
    let threads = SHARDS.min(makers.count as usize);
    make_in_parallel(makers.rt, &lists, 0, threads, shards);
}
