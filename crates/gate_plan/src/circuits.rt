//! The netlists that are built together.
use net_bench::netlist::Netlist;
use net_order::pairing::Pairing;

/// What is built together: two netlists, the condition if there is one, and the variables that their pairing gives
/// them.
#[derive(Drop)]
pub struct Circuits<'a> {
    pub first: &'a Netlist,
    pub second: &'a Netlist,
    /// The netlist of the condition, if there is one.
    pub given: Option<&'a Netlist>,
    /// Gives each input and register its variable, and the variables their levels.
    pub pairing: &'a Pairing,
}
