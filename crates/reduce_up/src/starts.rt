//! The number of requests of workers: at each level how many the workers before one have, and
//! whether there are many in all.
ghost use Rattle.std.specs.Prelude.{◌≡◌, ◌++◌, ◌<◌, ◌^◌, length, All, List, IfOk, OnOk};
ghost use Rattle.req_table.specs.declared.Record.{Record as RecordValue};
ghost use Rattle.req_table.specs.Settled.{level_of_rows};
ghost use Rattle.expand_work.specs.WavePorts.{row_of};
ghost use Rattle.expand_work.specs.OwnerRows.{AreRowsByOwner};
ghost use Rattle.reduce_up.specs.Numbers.{starts_at, starts_below, AreFew};

use req_table::Rows;
use std::alloc::{AllocError, Global};

/// Returns the number of workers. It fails if they are 2^32 or more, which never happens, since there are 16 at most.
pub(crate) fn worker_count(rows: &Vec<Rows>) -> Result<u32, AllocError>
    ensures { IfOk result (λ count. count ≡ length rows.now.items) }
{
    let count = rows.len();
    if count > u32::MAX as usize {
        return Err(AllocError);
    }
    Ok(count as u32)
}

/// The children of fewer requests are numbered on the caller's thread, because to start threads would take as long.
const FEWEST_NUMBERED: u64 = 1 << 15;

/// Whether the workers together have so many requests that threads number their children.
pub(crate) fn are_many(rows: &[Rows]) -> bool {
    let mut total: u64 = 0;
    for own in rows {
        total = total.saturating_add(own.count());
    }
    total >= FEWEST_NUMBERED
}

/// Adds, for each worker, how many requests of a level the workers before it have. Fails if memory is refused, or if
/// the level has 2^32 requests or more.
fn push_starts(rows: &[Rows], level: u16, starts: &mut Vec<u32>) -> Result<(), AllocError>
    requires levels { All (λ own. level < length own) rows.now }
    ensures starts { (records : List (List (List RecordValue))) → AreRowsByOwner records rows.now
        → OnOk result (starts.new.items ≡ starts.old.items ++ starts_at (length records) (row_of records) level) }
    ensures few { (records : List (List (List RecordValue))) → AreRowsByOwner records rows.now
        → OnOk result (length (level_of_rows (length records) (row_of records) level) < 2 ^ 32) }
{
    let mut start: u32 = 0;
    for worker in 0..rows.len() {
        starts.push(start)?;
        let count = rows[worker].row(level).len();
        if count > (u32::MAX - start) as usize {
            return Err(AllocError);
        }
        start += count as u32;
    }
    Ok(())
}

/// Returns, by level and worker, how many requests of the level the workers before this one have.
pub(crate) fn all_starts(alloc: Global, rows: &[Rows], levels: u16) -> Result<Vec<u32>, AllocError>
    requires levels { All (λ own. length own ≡ levels) rows.now }
    ensures starts { (records : List (List (List RecordValue))) → AreRowsByOwner records rows.now
        → IfOk result (λ starts. starts.items ≡ starts_below levels (length records) (row_of records)) }
    ensures few { (records : List (List (List RecordValue))) → AreRowsByOwner records rows.now
        → OnOk result (AreFew levels (length records) (row_of records)) }
{
    let mut starts = Vec::with_capacity(alloc, rows.len().saturating_mul(levels as usize))?;
    for level in 0..levels {
        push_starts(rows, level, &mut starts)?;
    }
    Ok(starts)
}
