//! Reduction of records, from the last level up.
ghost use Rattle.std.specs.Prelude.{◌<◌, IfOk, IfErr, OnOk, [], ◌∷◌};
ghost use Rattle.dd_store.specs.Nodes.{IsSound};
ghost use Rattle.reduce_up.specs.Reducing.{IsReady, IsRecordAt, AreAnswers, IsAnswer, AddsDescribed, AskedBy, MayReduceRow, ReducesRow};
ghost use Rattle.reduce_up.specs.Reducing.{IsRowWithin, IsRecordFault};
ghost use Rattle.reduce_up.specs.Levels.{AreRecords, AskedInRows, AreReduced, IsReduceFault, IsWithinFrom};

use crate::parallel::reduce_row_parallel;
use crate::results::Results;
use dd_store::{Ref, Store, StoreFault, Watch};
use expand_work::WaveFault;
use req_table::Record;
use std::alloc::Global;
use std::thread::Threads;
use wave_core::Records;

/// A level with fewer records is reduced on the caller's thread: a map over it would start no thread, and to start
/// those that share it takes longer than the level.
const FEWEST_SHARED: usize = 2048;

/// Returns the diagram of a record's request. At most its node is added.
fn reduce_record(
    store: &mut Store,
    results: &Results,
    level: u16,
    entry: Record,
) -> Result<Ref, StoreFault>
    requires held { IsSound store.old }
    requires record_at { IsRecordAt store.old level entry }
    requires answers { AreAnswers store.old results.now }
    requires low_ready { IsReady results.now entry.low }
    requires high_ready { IsReady results.now entry.high }
    ensures sound { IsSound store.new }
    ensures answer { IfOk result (λ r. IsAnswer store.new entry.key r) }
    ensures adds { AddsDescribed store.old store.new (AskedBy store.old level (entry ∷ [])) }
    ensures fault { IfErr result (λ e. IsRecordFault store.new level entry.key e) }
{
    let low = results.resolve(entry.low);
    let high = results.resolve(entry.high);
    store.make(level, low, high)
}

/// Notes the diagrams of a row of records.
fn reduce_row(
    store: &mut Store,
    results: &mut Results,
    level: u16,
    row: &[Record],
) -> Result<(), WaveFault>
    requires { MayReduceRow store.old results.old level row.now }
    ensures { ReducesRow store.old results.old level row.now result store.new results.new }
{
    for entry in row {
        let answer = match reduce_record(store, results, level, *entry) {
            Ok(answer) => answer,
            Err(fault) => return Err(WaveFault::from(fault)),
        };
        if results.note(entry.key, answer).is_err() {
            return Err(WaveFault::OutOfMemory);
        }
    }
    Ok(())
}

/// Notes the diagrams of a row, by several threads if it has many records.
fn reduce_row_by_size<R: Threads + Sync, H: Watch + Sync>(
    rt: &R,
    store: &mut Store,
    results: &mut Results,
    level: u16,
    row: &[Record],
    watch: &H,
) -> Result<(), WaveFault>
    requires level { level < store.old.levels }
    requires ready { MayReduceRow store.old results.old level row.now }
    ensures { ReducesRow store.old results.old level row.now result store.new results.new }
{
    if row.len() < FEWEST_SHARED {
        return reduce_row(store, results, level, row);
    }
    match reduce_row_parallel(rt, store, results, level, row, watch) {
        Ok(()) => Ok(()),
        Err(fault) => Err(WaveFault::from(fault)),
    }
}

/// Notes the diagrams of a row, and checks that the store is within its limit if the row has records.
fn reduce_level<R: Threads + Sync, H: Watch + Sync>(
    rt: &R,
    store: &mut Store,
    results: &mut Results,
    level: u16,
    row: &[Record],
    watch: &H,
) -> Result<(), WaveFault>
    requires level { level < store.old.levels }
    requires ready { MayReduceRow store.old results.old level row.now }
    ensures row { ReducesRow store.old results.old level row.now result store.new results.new }
    ensures within { OnOk result (IsRowWithin store.old row.now store.new) }
{
    if row.is_empty() {
        return Ok(());
    }
    reduce_row_by_size(rt, store, results, level, row, watch)?;
    if store.count() > store.limit() {
        return Err(WaveFault::Full);
    }
    Ok(())
}

/// Returns the diagram of each record's request.
///
/// A level with many records is shared by several threads, and `watch` is notified of its shards; if a thread cannot be
/// started, the caller's thread does its work. Fails with Full, perhaps at the first node that is refused, before all
/// of the level were tried, and with OutOfMemory.
pub fn reduce<R: Threads + Sync, H: Watch + Sync>(
    rt: &R,
    alloc: Global,
    store: &mut Store,
    records: &Records,
    watch: &H,
) -> Result<Results, WaveFault>
    requires records { AreRecords store.old records.now }
    ensures sound { IsSound store.new }
    ensures adds { AddsDescribed store.old store.new (AskedInRows store.old records.now) }
    ensures answers { IfOk result (λ results. AreReduced records.now store.new results) }
    ensures within { OnOk result (IsWithinFrom store.old records.now 0 store.new) }
    ensures fault { IfErr result (λ e. IsReduceFault store.new records.now e) }
{
    let mut results = Results::new(alloc);
    let mut level = store.levels();
    while level > 0 {
        level -= 1;
        reduce_level(rt, store, &mut results, level, records.level(level), watch)?;
    }
    Ok(results)
}
