//! Tables by number, whose entries beyond the end are 0, and stable sorts by them.
ghost use Rattle.std.specs.Prelude.{◌≡◌, ◌+◌, ◌<◌, length, min, replicate, slice_index, slice_set, IfOk};
ghost use Rattle.net_order.specs.Force.{numbers_below, u64_max};
ghost use Rattle.group_order.specs.Sides.{completed, first_places};

use net_order::tables::{number_at, numbers_below, put, sort_by_table};
use std::alloc::{AllocError, Global};

/// The entry at this place of a table of places; 0 beyond its end.
pub fn place_at(table: &[usize], place: usize) -> usize
    ensures { result ≡ slice_index table.now place }
{
    table.get(place).copied().unwrap_or(0)
}

/// Adds 1 to the number at this place of a table. Beyond its end nothing is written.
pub fn add_one(table: &mut Vec<u64>, place: usize)
    ensures { table.new.items ≡ slice_set table.old.items place (min (slice_index table.old.items place + 1) u64_max) }
{
    let number = number_at(table.as_slice(), place).saturating_add(1);
    put(table, place, number);
}

/// For each label the first place of an order at which a number with this label is.
pub fn first_places(
    alloc: Global,
    labels: &[usize],
    order: &[usize],
) -> Result<Vec<u64>, AllocError>
    ensures { IfOk result (λ v. v.items ≡ first_places labels.now (replicate (length labels.now) (length order.now)) 0 order.now) }
{
    let mut table = Vec::from_elem(alloc, order.len() as u64, labels.len())?;
    let mut place = order.len();
    while place > 0 {
        place -= 1;
        put(&mut table, place_at(labels, order[place]), place as u64);
    }
    Ok(table)
}

/// All numbers below a count: those of a list in its order, then the others by rising number.
#[tactic(auto, unfolding(crate::specs::Sides::completed))]
pub fn completed(alloc: Global, count: usize, list: &[usize]) -> Result<Vec<usize>, AllocError>
    ensures { IfOk result (λ v. v.items ≡ completed count list.now) }
{
    let mut numbers = numbers_below(alloc, count)?;
    let places = first_places(alloc, numbers.as_slice(), list)?;
    sort_by_table(&mut numbers, places.as_slice())?;
    Ok(numbers)
}
