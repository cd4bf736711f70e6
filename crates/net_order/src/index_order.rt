//! The variables by the numbers at the end of their names.
ghost use Rattle.std.specs.Prelude.{◌≡◌, [], map, IfOk, bytes_eq};
ghost use Rattle.std.specs.List.{IsDistinct};
ghost use Rattle.net_order.specs.Index.{index_key, rising};
ghost use Rattle.net_order.specs.Tables.{with_names};

use crate::trailing_number::index_key;
use net_bench::name_table::NameTable;
use std::alloc::{AllocError, Global};

/// The names by rising number at their end. Those without a number come first, and equal numbers keep their order.
fn sorted_names(alloc: Global, names: &NameTable) -> Result<Vec<Vec<u8>>, AllocError>
    ensures { IfOk result (λ v. map (λ w. w.items) v.items ≡ rising index_key names.now) }
{
    let mut sorted = names.to_names(alloc)?;
    sorted.sort_by_key(|name| index_key(name.as_slice()))?;
    Ok(sorted)
}

/// The names of a list, each at its first place.
fn table_of(alloc: Global, names: &[Vec<u8>]) -> Result<NameTable, AllocError>
    ensures { IfOk result (λ t. t ≡ with_names [] (map (λ w. w.items) names.now)) }
{
    let mut table = NameTable::new(alloc);
    for name in names {
        table.intern(alloc, name.as_slice())?;
    }
    Ok(table)
}

/// The names by rising number at their end. Those without a number come first, and equal numbers keep their order.
pub fn indexed_table(alloc: Global, names: &NameTable) -> Result<NameTable, AllocError>
    requires { IsDistinct bytes_eq names.now }
    ensures { IfOk result (λ t. t ≡ rising index_key names.now) }
{
    let sorted = sorted_names(alloc, names)?;
    let table = table_of(alloc, sorted.as_slice())?;
    Ok(table)
}
