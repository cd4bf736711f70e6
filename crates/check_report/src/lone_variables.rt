//! The inputs and registers that only one of two netlists has. The monitor is notified of them,
//! since they are often a mistake in the names.

use compare_built::task::Task;
use expand_work::Monitor;
use net_bench::netlist::{Netlist, Role};
use net_names::order::Match;
use std::alloc::{AllocError, Global};

/// The most names that the monitor is given: enough to see which kind of names is meant, and few
/// enough for a line.
const MOST_NAMED: usize = 10;

/// The number of such inputs and registers, and the first `MOST_NAMED` of their names, each after a blank.
#[derive(Drop)]
struct LoneVariables {
    count: usize,
    names: Vec<u8>,
}

impl LoneVariables {
    /// Counts one more, and appends its name if there is room.
    fn add(&mut self, name: &[u8]) -> Result<(), AllocError> {
        if self.count < MOST_NAMED {
            self.names.push(b' ')?;
            self.names.extend_from_slice(name)?;
        }
        self.count = self.count.saturating_add(1);
        Ok(())
    }
}

/// Returns whether the netlist has an input or a register of this name.
fn has_variable(net: &Netlist, name: &[u8]) -> bool {
    match net.find(name) {
        Some(signal) => matches!(net.role(signal), Role::Input | Role::Register(_)),
        None => false,
    }
}

/// Adds the inputs and registers of `net` that `other` does not have.
fn add_lone(lone: &mut LoneVariables, net: &Netlist, other: &Netlist) -> Result<(), AllocError> {
    let variables = net.variables();
    for place in 0..variables.len() {
        let name = net.name(variables[place]);
        if !has_variable(other, name) {
            lone.add(name)?;
        }
    }
    Ok(())
}

/// Returns the inputs and registers that only one of these netlists has, those of the first netlist
/// first. The condition's are not looked at.
fn lone_variables(
    alloc: Global,
    first: &Netlist,
    second: &Netlist,
) -> Result<LoneVariables, AllocError> {
    let mut lone = LoneVariables {
        count: 0,
        names: Vec::new(alloc),
    };
    add_lone(&mut lone, first, second)?;
    add_lone(&mut lone, second, first)?;
    Ok(lone)
}

/// Notifies the monitor of the inputs and registers that only one netlist has, if they are paired
/// by name and there is memory for it: for want of memory a note is left out, but no run fails. A
/// function that depends on such a variable differs from each function of the other netlist. It is
/// called before the comparison, which may take long.
pub(crate) fn notify_lone_variables<H, G: Monitor>(task: &Task<'_, H>, monitor: &G) {
    let Match::Name = task.settings.matching else {
        return;
    };
    if let Ok(lone) = lone_variables(task.alloc, task.first, task.second) {
        if lone.count > 0 {
            monitor.at_lone_variables(lone.count, lone.names.as_slice());
        }
    }
}
