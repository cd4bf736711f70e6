//! The netlists that a comparison compares, and what it uses for that.
ghost use Rattle.std.specs.Prelude.{IfSome};
ghost use Rattle.net_order.specs.Order.{condition};
ghost use Rattle.compare_built.specs.Conditions.{HasOneOutput, one_output-prop};

use crate::settings::Settings;
use net_bench::netlist::Netlist;
use std::alloc::Global;

/// What a comparison uses: the threads and the memory of its caller, its settings, and the monitor that bounds and
/// watches its waves.
#[derive(Drop)]
pub struct Context<'a, H, G> {
    pub rt: &'a H,
    pub alloc: Global,
    pub settings: &'a Settings,
    pub monitor: &'a G,
}

/// Two netlists that are compared, with a condition or without, the settings, and the threads and the memory of the
/// caller. A condition has exactly one output.
#[derive(Drop)]
pub struct Task<'a, H> {
    pub rt: &'a H,
    pub alloc: Global,
    pub first: &'a Netlist,
    pub second: &'a Netlist,
    pub given: Option<&'a Netlist>,
    pub settings: &'a Settings,
    ghost one_output: { IfSome (condition given) HasOneOutput } by { one_output-prop (condition given) },
}
