//! The level of each variable of a netlist, by the variable's signal.
ghost use Rattle.std.specs.Prelude.{◌≡◌, IfOk, slice_index, slice_index_or, []};
ghost use Rattle.std.specs.List.{AllZip};
ghost use Rattle.net_order.specs.Order.{HasLevels};

use crate::side::NamedNetlist;
use net_bench::name_table::NameTable;
use net_bench::netlist::Signal;
use std::alloc::{AllocError, Global};
use std::marker::Model;

/// The levels of one netlist's variables, by signal.
#[derive(Drop)]
pub struct Levels {
    list: Vec<u32>,
}

impl Model for Levels {
    ghost use Rattle.std.specs.Prelude.{List, ℕ};

    ghost Value = { List ℕ };

    ghost view = { λ l. l.list.items };
}

impl Levels {
    /// The level of a variable; 0 for a signal that is none.
    pub fn at(&self, variable: Signal) -> u32
        ensures { result ≡ slice_index self.now variable }
    {
        self.list
            .get(variable.number() as usize)
            .copied()
            .unwrap_or(0)
    }
}

/// The level of a variable of the side at this place; 0 if there is no such side.
pub fn level_at(sides: &[Levels], place: usize, variable: Signal) -> u32
    ensures { result ≡ slice_index (slice_index_or sides.now place []) variable }
{
    match sides.get(place) {
        Some(levels) => levels.at(variable),
        None => 0,
    }
}

/// The levels of the variables of one side.
pub fn levels_on(
    alloc: Global,
    table: &NameTable,
    side: &NamedNetlist<'_>,
) -> Result<Levels, AllocError>
    ensures { IfOk result (HasLevels table.now side.now) }
{
    let net = side.net();
    let mut list = Vec::from_elem(alloc, 0u32, net.count())?;
    for variable in net.variables() {
        let level = table.find(side.name(*variable)).unwrap_or(0);
        list[variable.number() as usize] = level;
    }
    Ok(Levels { list })
}

/// The levels of the variables of each side.
pub fn all_levels(
    alloc: Global,
    table: &NameTable,
    sides: &[NamedNetlist<'_>],
) -> Result<Vec<Levels>, AllocError>
    ensures { IfOk result (λ v. AllZip (HasLevels table.now) sides.now v.items) }
{
    let mut all = Vec::new(alloc);
    for i in 0..sides.len() {
        let side = &sides[i];
        all.push(levels_on(alloc, table, side)?)?;
    }
    Ok(all)
}
