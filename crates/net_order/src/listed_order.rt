//! Orders by a list of names that has to be complete.
ghost use Rattle.std.specs.Prelude.{◌≡◌, ℕ, ◌≤◌, ◌⊎◌, [], length, IfOk, IfErr, Some, None};
ghost use Rattle.net_order.specs.Order.{bad_place};

use net_bench::name_table::NameTable;
use net_names::names::Names;
use net_names::order::OrderFault;
use std::alloc::Global;

/// The names of the list by level, if it has each variable exactly once; otherwise the first place that is wrong.
pub fn listed_table(
    alloc: Global,
    variables: &NameTable,
    list: &Names,
) -> Result<NameTable, OrderFault>
    ensures ok { IfOk result (λ t. (t ≡ list.now) × (bad_place variables.now [] list.now 1 ≡ None)) }
    ensures few { IfOk result (λ t. length t ≤ length variables.now) }
    ensures err { IfErr result (λ f. (f ≡ OrderFault.OutOfMemory)
        ⊎ ((place : ℕ) × (f ≡ OrderFault.NotAPermutation place) × (bad_place variables.now [] list.now 1 ≡ Some place))) }
{
    let mut table = NameTable::new(alloc);
    let count = list.len();
    for i in 0..count {
        let name = list.at(i);
        if !variables.has(name) || table.has(name) {
            return Err(OrderFault::NotAPermutation {
                place: i as u32 + 1,
            });
        }
        table.intern(alloc, name)?;
    }
    if table.len() < variables.len() {
        return Err(OrderFault::NotAPermutation {
            place: count as u32 + 1,
        });
    }
    Ok(table)
}
