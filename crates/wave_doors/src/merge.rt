//! The records of all workers, in one row for each level.
ghost use Rattle.std.specs.Prelude.{◌≡◌, ℕ, ◌<◌, length, All, IfOk};
ghost use Rattle.req_table.specs.Keys.{IsKey};
ghost use Rattle.req_table.specs.Settled.{level_of_rows};
ghost use Rattle.req_table.specs.Tables.{row_at};
ghost use Rattle.expand_work.specs.WavePorts.{row_of};
ghost use Rattle.expand_work.specs.WaveParts.{AreParts};
ghost use Rattle.expand_work.specs.OwnerRows.{records_of};
ghost use Rattle.wave_doors.specs.Merging.{MayMerge};

use dd_store::Store;
use expand_work::Parts;
use req_table::requests::split;
use req_table::{Key, Record, Table};
use std::alloc::{AllocError, Global};
use wave_core::Records;

/// Returns the records of these keys.
fn split_all(alloc: Global, store: &Store, keys: &Table) -> Result<Vec<Record>, AllocError>
    requires { All (IsKey store.now) keys.now }
    ensures { IfOk result (λ records. records.items ≡ records_of store.now keys.now) }
{
    let count = keys.len();
    let mut records = Vec::with_capacity(alloc, count)?;
    for place in 0..count {
        let Record { key, low, high } = split(store, keys.key_at(place));
        records.push(Record { key, low, high })?;
    }
    Ok(records)
}

/// Returns the records of a level, worker by worker.
fn level_records(
    alloc: Global,
    store: &Store,
    parts: &Parts,
    workers: u32,
    level: u16,
) -> Result<Vec<Record>, AllocError>
    requires level { level < store.now.levels }
    requires parts { MayMerge store.now workers parts.now }
    ensures { IfOk result (λ records. records.items ≡ level_of_rows workers (row_of parts.now.rows) level) }
{
    let _ = store.levels(); // For the proof.
    let mut records = Vec::new(alloc);
    for worker in 0..workers {
        let Some(keys) = parts.notes().keys(worker, level) else {
            // This does not happen: the memory of the wave keeps each table with its level.
            return Err(AllocError);
        };
        let more = split_all(alloc, store, keys)?;
        records.extend_from_slice(more.as_slice())?;
    }
    Ok(records)
}

/// Returns the records of all levels, those of a level worker by worker. They are made again from the keys, because
/// workers keep only keys and packed children.
pub(crate) fn merge_rows(
    alloc: Global,
    store: &Store,
    roots: &[Key],
    parts: &Parts,
    workers: u32,
) -> Result<Records, AllocError>
    requires roots { All (IsKey store.now) roots.now }
    requires parts { AreParts store.now workers roots.now parts.now }
    ensures levels { IfOk result (λ r. length r ≡ store.now.levels) }
    ensures rows { IfOk result (λ r. (v : ℕ) → v < store.now.levels → row_at r v ≡ level_of_rows workers (row_of parts.now.rows) v) }
{
    let _ = roots.len(); // For the proof.
    let mut merged = Vec::new(alloc);
    for level in 0..store.levels() {
        merged.push(level_records(alloc, store, parts, workers, level)?)?;
    }
    Ok(Records::of(merged))
}
