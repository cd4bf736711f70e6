//! Netlists that are made of their parts instead of read from a text, such as the cone of a signal.
ghost use Rattle.std.specs.Prelude.{◌≡◌, ℕ, ◌<◌, length, All, IfOk, OnOk, true};
ghost use Rattle.net_bench.specs.declared.netlist.Role.TheVariants.{Undefined};
ghost use Rattle.net_bench.specs.Circuit.{HasRole, IsNet};
ghost use Rattle.net_bench.specs.Assembly.{AreRolesRight, HasRoleSet, KeepsRoles, role_in, net_of_parts};
ghost use Rattle.net_bench.specs.Symbols.{AreRoles, is_defined_role};

use crate::name_table::{NameTable, narrow};
use crate::netlist::{GateLine, Role, Signal};
use crate::symbols::Symbol;
use std::alloc::{AllocError, Global};

/// The parts of a netlist that a caller has computed, for `reader::netlist_of_parts`. A signal is the number of its
/// name in `names`.
#[derive(Drop)]
pub struct Assembly {
    pub names: NameTable,
    pub inputs: Vec<Signal>,
    pub outputs: Vec<Signal>,
    pub gates: Vec<GateLine>,
    pub registers: Vec<GateLine>,
    /// The rank of each signal: 0 for a variable; for a gate, 1 more than the greatest rank of its operands.
    pub ranks: Vec<u32>,
}

/// The symbols before any role is set. `is_output` is false in all of them: only while a text is read does it matter.
#[tactic(auto, using(crate::proofs::Placing::none_yet))]
fn without_roles(alloc: Global, parts: &Assembly) -> Result<Vec<Symbol>, AllocError>
    ensures one_symbol_per_name { IfOk result (λ v. length v.items ≡ length parts.now.names) }
    ensures none { IfOk result (λ v. (s : ℕ) → role_in v.items s ≡ Undefined) }
{
    let mut symbols = Vec::new(alloc);
    symbols.resize(
        parts.names.len(),
        Symbol {
            role: Role::Undefined,
            is_output: false,
        },
    )?;
    Ok(symbols)
}

/// Sets the role of a signal.
#[tactic(auto, using(crate::proofs::Placing::right_set, crate::proofs::Placing::placed_set, crate::proofs::Placing::kept_set))]
fn set_role(parts: &Assembly, symbols: &mut [Symbol], signal: Signal, role: Role)
    requires in_bounds { signal < length symbols.old }
    requires role { HasRole (net_of_parts parts.now) signal role }
    requires some { is_defined_role role ≡ true }
    requires right { AreRolesRight (net_of_parts parts.now) symbols.old }
    ensures right { AreRolesRight (net_of_parts parts.now) symbols.new }
    ensures role_set { HasRoleSet symbols.new signal }
    ensures kept { KeepsRoles symbols.old symbols.new }
{
    let _ = parts; // For the proof.
    let place = signal.number() as usize;
    symbols[place] = Symbol {
        role,
        is_output: false,
    };
}

/// Sets the roles of the inputs.
fn set_input_roles(parts: &Assembly, symbols: &mut [Symbol])
    requires in_bounds { All (λ s. s < length symbols.old) parts.now.inputs.items }
    requires right { AreRolesRight (net_of_parts parts.now) symbols.old }
    ensures right { AreRolesRight (net_of_parts parts.now) symbols.new }
    ensures role_set { All (λ s. HasRoleSet symbols.new s) parts.now.inputs.items }
    ensures kept { KeepsRoles symbols.old symbols.new }
{
    for place in 0..parts.inputs.len() {
        set_role(parts, symbols, parts.inputs[place], Role::Input);
    }
}

/// Sets the roles of the gates' signals.
fn set_gate_roles(parts: &Assembly, symbols: &mut [Symbol]) -> Result<(), AllocError>
    requires in_bounds { All (λ g. g.out < length symbols.old) parts.now.gates.items }
    requires right { AreRolesRight (net_of_parts parts.now) symbols.old }
    ensures right { OnOk result (AreRolesRight (net_of_parts parts.now) symbols.new) }
    ensures role_set { OnOk result (All (λ g. HasRoleSet symbols.new g.out) parts.now.gates.items) }
    ensures kept { OnOk result (KeepsRoles symbols.old symbols.new) }
{
    for place in 0..parts.gates.len() {
        let number = narrow(place)?;
        set_role(parts, symbols, parts.gates[place].out, Role::Gate(number));
    }
    Ok(())
}

/// Sets the roles of the registers' signals.
fn set_register_roles(parts: &Assembly, symbols: &mut [Symbol]) -> Result<(), AllocError>
    requires in_bounds { All (λ g. g.out < length symbols.old) parts.now.registers.items }
    requires right { AreRolesRight (net_of_parts parts.now) symbols.old }
    ensures right { OnOk result (AreRolesRight (net_of_parts parts.now) symbols.new) }
    ensures role_set { OnOk result (All (λ g. HasRoleSet symbols.new g.out) parts.now.registers.items) }
    ensures kept { OnOk result (KeepsRoles symbols.old symbols.new) }
{
    for place in 0..parts.registers.len() {
        let number = narrow(place)?;
        set_role(
            parts,
            symbols,
            parts.registers[place].out,
            Role::Register(number),
        );
    }
    Ok(())
}

/// Sets the roles of all signals.
#[tactic(auto, using(crate::proofs::Placing::inputs_low, crate::proofs::Placing::registers_low))]
fn set_all_roles(parts: &Assembly, symbols: &mut [Symbol]) -> Result<(), AllocError>
    requires sound { IsNet (net_of_parts parts.now) }
    requires one_symbol_per_name { length symbols.old ≡ length parts.now.names }
    requires right { AreRolesRight (net_of_parts parts.now) symbols.old }
    ensures { OnOk result (AreRoles (net_of_parts parts.now) symbols.new) }
{
    set_input_roles(parts, symbols);
    set_gate_roles(parts, symbols)?;
    set_register_roles(parts, symbols)?;
    Ok(())
}

/// The symbols of the signals of a netlist that has these parts.
#[tactic(auto, using(crate::proofs::Placing::none_right))]
pub(crate) fn symbols_of(alloc: Global, parts: &Assembly) -> Result<Vec<Symbol>, AllocError>
    requires { IsNet (net_of_parts parts.now) }
    ensures { IfOk result (λ v. AreRoles (net_of_parts parts.now) v.items) }
{
    let mut symbols = without_roles(alloc, parts)?;
    set_all_roles(parts, symbols.as_mut_slice())?;
    Ok(symbols)
}
