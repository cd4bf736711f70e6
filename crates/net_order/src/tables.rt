//! Tables by number, whose entries beyond the end are 0, and stable sorts by them.
ghost use Rattle.std.specs.Prelude.{◌≡◌, ◌+◌, ◌^◌, ◌<◌, length, slice_index, slice_set, IfOk, OnOk};
ghost use Rattle.net_order.specs.Force.{counted_from, numbers_below};
ghost use Rattle.net_order.specs.Index.{rising};

use std::alloc::{AllocError, Global};

/// The number at this place of a table; 0 beyond its end.
pub fn number_at(table: &[u64], place: usize) -> u64
    ensures { result ≡ slice_index table.now place }
{
    table.get(place).copied().unwrap_or(0)
}

/// Writes a number at this place of a table. Beyond its end nothing is written.
pub fn put(table: &mut Vec<u64>, place: usize, number: u64)
    ensures { table.new.items ≡ slice_set table.old.items place number }
{
    if place < table.len() {
        table[place] = number;
    }
}

/// Writes consecutive numbers at these places, in this order, from `first` on.
pub fn count_from(table: &mut Vec<u64>, first: u64, places: &[usize])
    requires { first + length places.now < 2 ^ 64 }
    ensures { table.new.items ≡ counted_from first table.old.items places.now }
{
    let mut number = first;
    for place in places {
        put(table, *place, number);
        number += 1;
    }
}

/// The numbers from 0 to `count - 1`.
#[tactic(auto, unfolding(crate::specs::Force::numbers_below))]
pub fn numbers_below(alloc: Global, count: usize) -> Result<Vec<usize>, AllocError>
    ensures { IfOk result (λ v. v.items ≡ numbers_below count) }
{
    let mut numbers = Vec::new(alloc);
    for number in 0..count {
        numbers.push(number)?;
    }
    Ok(numbers)
}

/// Sorts numbers by rising key in a table. Numbers of equal key keep their order.
pub fn sort_by_table(order: &mut Vec<usize>, table: &[u64]) -> Result<(), AllocError>
    ensures { OnOk result (order.new.items ≡ rising (slice_index table.now) order.old.items) }
{
    order.sort_by_key(|number| number_at(table, *number))?;
    Ok(())
}
