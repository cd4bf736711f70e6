//! The diagrams of the variables, and of the inputs and registers of a netlist.
ghost use Rattle.std.specs.Prelude.{◌≡◌, ◌≢◌, ℕ, ◌<◌, Contains, IfOk, IfErr, length};
ghost use Rattle.dd_store.specs.Nodes.{IsSound};
ghost use Rattle.net_bench.specs.Circuit.{circuit, variables_of};
ghost use Rattle.net_order.specs.Order.{level_in};
ghost use Rattle.reduce_up.specs.Reducing.{AddsDescribed};
ghost use Rattle.gate_plan.specs.Folds.{IsVariable};
ghost use Rattle.gate_plan.specs.Need.{IsCounted};
ghost use Rattle.gate_plan.specs.Needing.{IsBuildFault, IsStillWithin};
ghost use Rattle.gate_plan.specs.Building.{AreVariables, AreInputs, wave_fault_of};

use dd_store::{Ref, Store, StoreFault};
use expand_work::WaveFault;
use net_bench::netlist::Netlist;
use net_order::netlist_role::NetlistRole;
use net_order::pairing::Pairing;
use std::alloc::{AllocError, Global};

fn wave_fault(fault: StoreFault) -> WaveFault
    ensures { result ≡ wave_fault_of fault }
{
    match fault {
        StoreFault::Full => WaveFault::Full,
        StoreFault::OutOfMemory => WaveFault::OutOfMemory,
    }
}

/// Makes the diagrams of all variables, in the order of their levels. Fails with Full or OutOfMemory.
pub fn make_variables(alloc: Global, store: &mut Store) -> Result<Vec<Ref>, WaveFault>
    ensures sound { IsSound store.new }
    ensures adds { AddsDescribed store.old store.new (IsCounted store.old.levels (IsVariable store.old.levels)) }
    ensures made { IfOk result (λ v. AreVariables store.new v.items) }
    ensures within { IsStillWithin store.old store.new }
    ensures fault { IfErr result (IsBuildFault store.old.levels (IsVariable store.old.levels) store.new) }
    ensures never_no_worker { IfErr result (λ e. e ≢ WaveFault.NoWorker) }
    ensures never_too_many_requests { IfErr result (λ e. e ≢ WaveFault.TooManyRequests) }
    ensures never_stopped { IfErr result (λ e. e ≢ WaveFault.Stopped) }
{
    let mut variables = Vec::new(alloc);
    for level in 0..store.levels() {
        let variable = match store.variable(level) {
            Ok(variable) => variable,
            Err(fault) => return Err(wave_fault(fault)),
        };
        if variables.push(variable).is_err() {
            return Err(WaveFault::OutOfMemory);
        }
    }
    Ok(variables)
}

/// Returns a reference for each signal of a netlist: the variable of an input or register, and False for a gate, which
/// is replaced when the gate's rank is built.
pub fn input_references(
    alloc: Global,
    netlist: &Netlist,
    pairing: &Pairing,
    which: NetlistRole,
    variables: &[Ref],
) -> Result<Vec<Ref>, AllocError>
    requires { (s : ℕ) → Contains (variables_of (circuit netlist.now)) s → level_in pairing.now which s < length variables.now }
    ensures { IfOk result (λ v. AreInputs netlist.now (level_in pairing.now which) variables.now v.items) }
{
    let mut references = Vec::from_elem(alloc, Ref::FALSE, netlist.count())?;
    for input in netlist.variables() {
        let level = pairing.naming().level(which, *input);
        references[input.number() as usize] = variables[level as usize];
    }
    Ok(references)
}
