//! The names of a list of pairs, by column.
ghost use Rattle.std.specs.Prelude.{◌≡◌, ◌⊎◌, ℕ, List, length, IfOk, IfErr};
ghost use Rattle.std.specs.List.{IsDistinct};
ghost use Rattle.std.specs.Prelude.{bytes_eq};
ghost use Rattle.net_rename.specs.Renaming.{HasRepeated, firsts, renamed, seconds};
ghost use Rattle.net_rename.specs.declared.pair.NamePair.{NamePair as NamePairValue};

use crate::fault::PairsFault;
use crate::pair::NamePair;
use net_bench::name_table::NameTable;
use std::alloc::Global;

/// The first names of pairs, and the second, each by the place of its pair. No name is in a column twice.
#[derive(Drop)]
pub(crate) struct PairTables {
    pub(crate) firsts: NameTable,
    pub(crate) seconds: NameTable,
}

/// The columns of these pairs.
pub(crate) fn tables_of(alloc: Global, pairs: &[NamePair]) -> Result<PairTables, PairsFault>
    ensures firsts { IfOk result (λ t. t.firsts ≡ firsts pairs.now) }
    ensures seconds { IfOk result (λ t. t.seconds ≡ seconds pairs.now) }
    ensures once { IfOk result (λ t. IsDistinct bytes_eq (firsts pairs.now) × IsDistinct bytes_eq (seconds pairs.now)) }
    ensures refused { IfErr result (λ fault. (fault ≡ PairsFault.OutOfMemory)
        ⊎ ((line : ℕ) × (fault ≡ PairsFault.Repeated line) × HasRepeated pairs.now line)) }
{
    let mut firsts = NameTable::new(alloc);
    let mut seconds = NameTable::new(alloc);
    for pair in pairs {
        let first = pair.first.as_slice();
        let second = pair.second.as_slice();
        if firsts.has(first) || seconds.has(second) {
            return Err(PairsFault::Repeated { line: pair.line });
        }
        let _ = firsts.intern(alloc, first)?;
        let _ = seconds.intern(alloc, second)?;
    }
    Ok(PairTables { firsts, seconds })
}

/// The new name of a signal of the second netlist.
pub(crate) fn renamed<'a>(tables: &'a PairTables, name: &'a [u8]) -> &'a [u8]
    requires { length tables.now.firsts ≡ length tables.now.seconds }
    ensures { (pairs : List NamePairValue) → tables.now.firsts ≡ firsts pairs → tables.now.seconds ≡ seconds pairs → result.now ≡ renamed pairs name.now }
{
    if let Some(place) = tables.seconds.find(name) {
        return tables.firsts.name(place);
    }
    match tables.firsts.find(name) {
        Some(place) => tables.seconds.name(place),
        None => name,
    }
}
