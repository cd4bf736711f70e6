//! The lists of all workers before any event.
ghost use Rattle.std.specs.Prelude.{◌≡◌, ◌*◌, ◌<◌, ◌≤◌, [], length, replicate, IfOk};
ghost use Rattle.wave_core.specs.MachineView.{AreDistributed};

use crate::queues::KeyQueue;
use req_table::requests::owner;
use req_table::{Key, Table};
use std::alloc::{AllocError, Global};

/// Returns `count` empty tables.
pub fn tables(alloc: Global, count: usize) -> Result<Vec<Table>, AllocError>
    ensures { IfOk result (λ tables. tables.items ≡ replicate count []) }
{
    let mut tables = Vec::new(alloc);
    for made in 0..count {
        tables.push(Table::new(alloc))?;
    }
    Ok(tables)
}

/// Returns, for each pair of workers, the roots that are due from the one to the other: root i is due from worker i
/// modulo their number, to the root's owner.
pub fn distribute_roots(
    alloc: Global,
    workers: u32,
    roots: &[Key],
) -> Result<Vec<KeyQueue>, AllocError>
    requires some { 0 < workers }
    requires few { workers ≤ 16 }
    ensures size { IfOk result (λ due. length due.items ≡ workers * workers) }
    ensures distributed { IfOk result (λ due. AreDistributed workers roots.now due.items) }
{
    let mut due = KeyQueue::many(alloc, (workers * workers) as usize)?;
    for place in 0..roots.len() {
        let root = roots[place];
        let by = (place % workers as usize) as u32;
        let to = owner(root, workers);
        due[(by * workers + to) as usize].put(root)?;
    }
    Ok(due)
}
