//! The places of one pairing's variables in another pairing of the same netlists.
ghost use Rattle.std.specs.Prelude.{◌≡◌, bytes_eq, IfOk};
ghost use Rattle.std.specs.List.{IsDistinct};
ghost use Rattle.compare_built.specs.Arrangement.{places_among};

use net_bench::name_table::NameTable;
use net_names::names::Names;
use net_order::pairing::Pairing;
use std::alloc::{AllocError, Global};

/// Returns a table of the names, in which each is found in constant time on average. Fails if memory is refused.
fn table_of(alloc: Global, names: &Names) -> Result<NameTable, AllocError>
    requires { IsDistinct bytes_eq names.now }
    ensures { IfOk result (λ table. table ≡ names.now) }
{
    let mut table = NameTable::new(alloc);
    for place in 0..names.len() {
        table.intern(alloc, names.at(place))?;
    }
    Ok(table)
}

/// Returns, for each level of `built`, the place of its variable among the names of `reported`, which has the same
/// variables in another order. So a verdict over the levels of the diagrams can be reported in the order of `reported`.
/// Fails if memory is refused.
pub fn arrangement(
    alloc: Global,
    built: &Pairing,
    reported: &Pairing,
) -> Result<Vec<u16>, AllocError>
    requires { IsDistinct bytes_eq reported.now.names }
    ensures { IfOk result (λ order. order.items ≡ places_among reported.now.names built.now.names) }
{
    let table = table_of(alloc, reported.names())?;
    let names = built.names();
    let mut order = Vec::new(alloc);
    for level in 0..names.len() {
        let place = table.find(names.at(level)).unwrap_or(0);
        order.push(place as u16)?;
    }
    Ok(order)
}
