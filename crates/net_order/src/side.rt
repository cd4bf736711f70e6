//! The sides of a pairing: its netlists, each with the names that its variables have in the pairing.
ghost use Rattle.std.specs.Prelude.{◌≡◌, ◌++◌, ℕ, ◌<◌, length, All, IfOk, IsTrue, slice_index};
ghost use Rattle.net_bench.specs.Circuit.{circuit, variables_of};
ghost use Rattle.net_order.specs.Order.{HaveEqualCounts, NamedNetlistModel, both, condition, given_side, is_member, named, partner};
ghost use Rattle.net_order.specs.Tables.{AreMatched};

use net_bench::netlist::{Netlist, Signal};
use net_names::order::Match;
use std::alloc::{AllocError, Global};
use std::marker::Model;

/// A netlist of a pairing. By position its variables have the names of those at the same places of another netlist, `name_source`.
#[derive(Drop)]
pub struct NamedNetlist<'a> {
    net: &'a Netlist,
    name_source: &'a Netlist,
    how: Match,
    /// By position: for the signal of each variable, the number of the one of `name_source` that names it. By name it is empty.
    partners: Vec<u32>,
}

impl<'a> Model for NamedNetlist<'a> {
    ghost use Rattle.net_bench.specs.Circuit.{circuit};
    ghost use Rattle.net_order.specs.Order.{NamedNetlistModel};
    ghost use Rattle.net_order.specs.Tables.{IsSide};

    ghost Value = { NamedNetlistModel };

    ghost view = { λ s. record { how = s.how; name_source = circuit s.name_source.now; net = circuit s.net.now } };

    ghost invariant = { λ s. IsSide s.how s.name_source.now s.net.now s.partners.items };
}

/// For each signal below `count` its partner by position: of the place at which it is first in
/// `from`, the number at the same place of `to`.
fn partner_table(
    alloc: Global,
    count: usize,
    from: &[Signal],
    to: &[Signal],
) -> Result<Vec<u32>, AllocError>
    requires in_bounds { All (λ s. s < count) from.now }
    requires same { length from.now ≡ length to.now }
    ensures len { IfOk result (λ v. length v.items ≡ count) }
    ensures partners_are_right { IfOk result (λ v. (s : ℕ) → s < count → slice_index v.items s ≡ partner from.now to.now s) }
{
    let mut table = Vec::from_elem(alloc, 0u32, count)?;
    let mut i = from.len();
    while i > 0 {
        i -= 1;
        table[from[i].number() as usize] = to[i].number();
    }
    Ok(table)
}

impl<'a> NamedNetlist<'a> {
    /// A netlist whose variables are matched with those of `name_source`.
    fn new(
        alloc: Global,
        net: &'a Netlist,
        name_source: &'a Netlist,
        how: Match,
    ) -> Result<NamedNetlist<'a>, AllocError>
        requires { AreMatched how (circuit name_source.now) (circuit net.now) }
        ensures { IfOk result (λ side. side ≡ record { how = how; name_source = circuit name_source.entry.now; net = circuit net.entry.now }) }
    {
        let variables = net.variables();
        let names = name_source.variables();
        let partners = match how {
            Match::Name => Vec::new(alloc),
            Match::Position => partner_table(alloc, net.count(), variables, names)?,
        };
        Ok(NamedNetlist {
            net,
            name_source,
            how,
            partners,
        })
    }

    /// The netlist.
    pub fn net(&self) -> &Netlist
        ensures { circuit result.now ≡ self.now.net }
    {
        self.net
    }

    /// The name of a variable in the pairing.
    pub fn name(&self, variable: Signal) -> &[u8]
        requires { IsTrue (is_member variable (variables_of self.now.net)) }
        ensures { result.now ≡ named self.now variable }
    {
        match self.how {
            Match::Name => self.net.name(variable),
            Match::Position => {
                let partner = Signal::of(self.partners[variable.number() as usize]);
                self.name_source.name(partner)
            }
        }
    }
}

/// The sides of a pairing: the first netlist, the second, and the condition if there is one.
pub fn sides_of<'a>(
    alloc: Global,
    first: &'a Netlist,
    second: &'a Netlist,
    given: Option<&'a Netlist>,
    how: Match,
) -> Result<Vec<NamedNetlist<'a>>, AllocError>
    requires { HaveEqualCounts how (circuit first.now) (circuit second.now) }
    ensures { IfOk result (λ sides. sides.items ≡ both how (circuit first.entry.now) (circuit second.entry.now)
        ++ given_side (condition given.entry)) }
{
    let mut sides = Vec::new(alloc);
    sides.push(NamedNetlist::new(alloc, first, first, Match::Name)?)?;
    sides.push(NamedNetlist::new(alloc, second, first, how)?)?;
    match given {
        None => {}
        Some(given) => sides.push(NamedNetlist::new(alloc, given, given, Match::Name)?)?,
    }
    Ok(sides)
}
