//! Lists of pairs of children, one for each shard of a level.
ghost use Rattle.std.specs.Prelude.{◌≡◌, ℕ, length, IfOk, OnOk};
ghost use Rattle.dd_store.specs.Levels.{list_at};

use dd_store::{Ref, SHARDS};
use std::alloc::{AllocError, Global};

/// Returns an empty list for each shard, with room for `room` pairs.
pub fn empty_lists(alloc: Global, room: usize) -> Result<Vec<Vec<(Ref, Ref)>>, AllocError>
    ensures sixteen { IfOk result (λ lists. length lists.items ≡ 16) }
    ensures empty { IfOk result (λ lists. (s : ℕ) → length (list_at lists.items s) ≡ 0) }
{
    let mut lists = Vec::with_capacity(alloc, SHARDS)?;
    for _ in 0..SHARDS {
        lists.push(Vec::with_capacity(alloc, room)?)?;
    }
    Ok(lists)
}

/// Removes all pairs of each list, and makes room for `room` pairs in each.
fn clear_lists(lists: &mut Vec<Vec<(Ref, Ref)>>, room: usize) -> Result<(), AllocError>
    ensures same { length lists.new.items ≡ length lists.old.items }
    ensures empty { OnOk result ((s : ℕ) → length (list_at lists.new.items s) ≡ 0) }
{
    for place in 0..lists.len() {
        let list = &mut lists[place];
        list.clear();
        list.reserve_exact(room)?;
    }
    Ok(())
}

/// Makes `lists` an empty list for each shard, with room for `room` pairs, in the old memory if there are 16 lists
/// already.
pub(crate) fn empty_all(
    alloc: Global,
    lists: &mut Vec<Vec<(Ref, Ref)>>,
    room: usize,
) -> Result<(), AllocError>
    ensures sixteen { OnOk result (length lists.new.items ≡ 16) }
    ensures empty { OnOk result ((s : ℕ) → length (list_at lists.new.items s) ≡ 0) }
{
    if lists.len() == SHARDS {
        return clear_lists(lists, room);
    }
    *lists = empty_lists(alloc, room)?;
    Ok(())
}
