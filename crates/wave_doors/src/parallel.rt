//! A level with many records, which several threads share: two maps over its records, and between
//! them the nodes, shard by shard (van Dijk 2016).
ghost use Rattle.std.specs.Prelude.{◌≡◌, ◌<◌, length, All, IfOk, IfErr, OnOk};
ghost use Rattle.std.specs.List.{AllZip};
ghost use Rattle.dd_store.specs.Levels.{list_at};
ghost use Rattle.dd_store.specs.Nodes.{IsSound, IsThere};
ghost use Rattle.reduce_up.specs.Reducing.{IsReady, MayReduceRow, ReducesRow};
ghost use Rattle.wave_doors.specs.Reducing.{wave_result};
ghost use Rattle.wave_doors.specs.Placed.{IsIndexOf};
ghost use Rattle.reduce_up.specs.Sharing.{IsPairOf, CanBeNode, IsListed, AreDivided, NotesFirst};
ghost use Rattle.wave_doors.specs.Sharing.{AddsPairs, HasPair, IsPairsFault};

use crate::results::{Results, index_of};
use dd_store::{Ref, SHARDS, Store, StoreFault, Watch, shard_of};
use rayon::prelude::*;
use reduce_up::empty_lists;
use req_table::{Record, Table};
use std::alloc::{AllocError, Global};
use std::thread::Threads;

/// Returns the diagrams of a record's children.
fn pair_of(results: &Results, entry: Record) -> (Ref, Ref)
    requires low_ready { IsReady results.now entry.low }
    requires high_ready { IsReady results.now entry.high }
    ensures { IsPairOf results.now entry result }
{
    (results.resolve(entry.low), results.resolve(entry.high))
}

/// Returns the diagrams of each record's children, in the order of the records.
fn pairs_of<R: Threads + Sync>(
    rt: &R,
    alloc: Global,
    results: &Results,
    row: &[Record],
) -> Result<Vec<(Ref, Ref)>, AllocError>
    requires low_ready { All (λ r. IsReady results.now r.low) row.now }
    requires high_ready { All (λ r. IsReady results.now r.high) row.now }
    ensures { IfOk result (λ pairs. AllZip (IsPairOf results.now) row.now pairs.items) }
{
    row.par_iter()
        .map(
            |entry: &Record| -> (Ref, Ref)
                requires { IsReady results.now entry.now.low × IsReady results.now entry.now.high }
                ensures { IsPairOf results.entry.now entry.now result }
            { pair_of(results, *entry) },
        )
        .collect(rt, alloc)
}

/// Adds a pair of different children to the list of its shard.
fn list_pair(lists: &mut Vec<Vec<(Ref, Ref)>>, pair: (Ref, Ref)) -> Result<(), AllocError>
    requires { length lists.old.items ≡ 16 }
    ensures sixteen { length lists.new.items ≡ 16 }
    ensures listed { OnOk result (IsListed (list_at lists.old.items) pair (list_at lists.new.items)) }
{
    if pair.0 != pair.1 {
        let shard = shard_of(pair.0, pair.1);
        lists[shard as usize].push(pair)?;
    }
    Ok(())
}

/// Returns the pairs of different children, divided by the shards of their nodes.
fn divide(alloc: Global, pairs: &[(Ref, Ref)]) -> Result<Vec<Vec<(Ref, Ref)>>, AllocError>
    ensures sixteen { IfOk result (λ lists. length lists.items ≡ 16) }
    ensures divided { IfOk result (λ lists. AreDivided pairs.now (list_at lists.items)) }
{
    let mut lists = empty_lists(alloc, pairs.len() / SHARDS)?;
    for pair in pairs {
        list_pair(&mut lists, *pair)?;
    }
    Ok(lists)
}

/// Adds to a level a node for each pair of different children that has none.
fn add_pairs<R: Threads + Sync, H: Watch + Sync>(
    rt: &R,
    alloc: Global,
    store: &mut Store,
    level: u16,
    pairs: &[(Ref, Ref)],
    watch: &H,
) -> Result<(), StoreFault>
    requires held { IsSound store.old }
    requires level { level < store.old.levels }
    requires ready { All (CanBeNode store.old level) pairs.now }
    ensures sound { IsSound store.new }
    ensures adds { AddsPairs store.old store.new level pairs.now }
    ensures there { OnOk result (All (HasPair store.new level) pairs.now) }
    ensures fault { IfErr result (λ e. IsPairsFault store.new level pairs.now e) }
{
    match divide(alloc, pairs) {
        Ok(lists) => store.add_all(rt, level, lists.as_slice(), watch),
        Err(_) => Err(StoreFault::OutOfMemory),
    }
}

/// Returns the reference for a pair: the child if both are equal, and otherwise the node of the level.
fn reference(store: &Store, level: u16, pair: (Ref, Ref)) -> Ref
    requires level { level < store.now.levels }
    requires there { HasPair store.now level pair }
    ensures { IsThere store.now level pair.0 pair.1 result }
{
    if pair.0 == pair.1 {
        return pair.0;
    }
    store.find(level, pair.0, pair.1).unwrap()
}

/// Returns the references for pairs, in the order of the pairs.
fn references<R: Threads + Sync>(
    rt: &R,
    alloc: Global,
    store: &Store,
    level: u16,
    pairs: &[(Ref, Ref)],
) -> Result<Vec<Ref>, AllocError>
    requires level { level < store.now.levels }
    requires there { All (HasPair store.now level) pairs.now }
    ensures { IfOk result (λ answers. AllZip (λ p r. IsThere store.now level p.0 p.1 r) pairs.now answers.items) }
{
    pairs
        .par_iter()
        .map(
            |pair: &(Ref, Ref)| -> Ref
                requires { (level < store.now.levels) × HasPair store.now level pair.now }
                ensures { IsThere store.entry.now level pair.now.0 pair.now.1 result }
            { reference(store, level, *pair) },
        )
        .collect(rt, alloc)
}

/// Notes the diagrams of a row, in order.
pub(crate) fn note_all(
    results: &mut Results,
    row: &[Record],
    answers: &[Ref],
) -> Result<(), AllocError>
    requires { length answers.now ≡ length row.now }
    ensures first_noted { NotesFirst results.old row.now answers.now 0 results.new }
    ensures all_noted { OnOk result (NotesFirst results.old row.now answers.now (length row.now) results.new) }
{
    for (entry, answer) in row.iter().zip(answers) {
        results.note(entry.key, *answer)?;
    }
    Ok(())
}

/// Returns the diagrams of each record's children, found by several threads, and the keys of the row as a table, which
/// one more thread makes meanwhile.
fn gather<R: Threads + Sync>(
    rt: &R,
    alloc: Global,
    results: &Results,
    row: &[Record],
) -> Result<(Vec<(Ref, Ref)>, Table), AllocError>
    requires low_ready { All (λ r. IsReady results.now r.low) row.now }
    requires high_ready { All (λ r. IsReady results.now r.high) row.now }
    ensures pairs { IfOk result (λ r. AllZip (IsPairOf results.now) row.now r.0.items) }
    ensures index { IfOk result (λ r. IsIndexOf row.now r.1) }
{
    let (keys, pairs) = rayon::join(
        rt,
        || index_of(alloc, row),
        || -> Result<Vec<(Ref, Ref)>, AllocError>
            requires low_ready { All (λ r. IsReady results.now r.low) row.now }
            requires high_ready { All (λ r. IsReady results.now r.high) row.now }
            ensures { IfOk result (λ pairs. AllZip (IsPairOf results.entry.now) row.entry.now pairs.items) }
        { pairs_of(rt, alloc, results, row) },
    );
    Ok((pairs?, keys?))
}

/// Notes the diagrams of a row, whose records and shards several threads share.
///
/// If a thread cannot be started, the caller's thread does its work. After a failure some of the nodes may have been
/// added, and some diagrams noted.
pub(crate) fn reduce_row_parallel<R: Threads + Sync, H: Watch + Sync>(
    rt: &R,
    store: &mut Store,
    results: &mut Results,
    level: u16,
    row: &[Record],
    watch: &H,
) -> Result<(), StoreFault>
    requires level { level < store.old.levels }
    requires ready { MayReduceRow store.old results.old level row.now }
    ensures { ReducesRow store.old results.old level row.now (wave_result result) store.new results.new }
{
    let alloc = results.alloc();
    let Ok(found) = gather(rt, alloc, results, row) else {
        return Err(StoreFault::OutOfMemory);
    };
    let (pairs, keys) = found;
    add_pairs(rt, alloc, store, level, pairs.as_slice(), watch)?;
    let Ok(answers) = references(rt, alloc, store, level, pairs.as_slice()) else {
        return Err(StoreFault::OutOfMemory);
    };
    match results.put_row(level, row, keys, answers) {
        Ok(()) => Ok(()),
        Err(_) => Err(StoreFault::OutOfMemory),
    }
}
