//! A netlist, its parts, and what users can ask of it.
ghost use Rattle.std.specs.Prelude.{◌≡◌, ◌<◌, length, map, slice_index, slice_get};
ghost use Rattle.net_bench.specs.Circuit.{circuit, find, variables_of, HasRole, gate_by, gate_of, is_register_kind, IsNet};

use crate::name_table::NameTable;
use crate::symbols::{Symbol, symbol_of};
use std::marker::Model;

/// What a gate computes of its operands. `Dff` is a register: its signal is a variable, and its operand is its next state.
#[derive(Clone, Copy, Debug, PartialEq, Eq)]
pub enum Kind {
    And,
    Nand,
    Or,
    Nor,
    Xor,
    Xnor,
    Not,
    Buff,
    Dff,
}

impl Kind {
    /// Whether this is the kind of registers.
    pub fn is_register(self) -> bool
        ensures { result ≡ is_register_kind self }
    {
        matches!(self, Kind::Dff)
    }
}

/// What gives a signal its value: an INPUT, or the gate or register at this place of its list. Only while a text is
/// read can a signal be `Undefined`.
#[derive(Clone, Copy, Debug, PartialEq, Eq)]
pub enum Role {
    Undefined,
    Input,
    Gate(u32),
    Register(u32),
}

/// A signal, as its number in its netlist.
#[derive(Clone, Copy, Debug, PartialEq, Eq)]
pub struct Signal {
    number: u32,
}

impl Model for Signal {
    ghost use Rattle.std.specs.Prelude.{ℕ};

    ghost Value = { ℕ };

    ghost view = { λ s. s.number };

    ghost inverse = { λ n. record { number = n } };
}

impl Signal {
    /// The signal of this number.
    pub fn of(number: u32) -> Signal
        ensures { result ≡ number }
    {
        Signal { number }
    }

    /// The number, counted from 0.
    pub fn number(&self) -> u32
        ensures { result ≡ self.now }
    {
        self.number
    }
}

/// The operands of a gate, from left to right.
#[derive(Debug, Drop)]
pub struct Operands {
    signals: Vec<Signal>,
}

impl Model for Operands {
    ghost use Rattle.std.specs.Prelude.{List, ℕ};

    ghost Value = { List ℕ };

    ghost view = { λ s. s.signals.items };
}

impl Operands {
    /// These signals as operands.
    pub fn of(signals: Vec<Signal>) -> Operands
        ensures { result ≡ signals.items }
    {
        Operands { signals }
    }

    /// The operands, from left to right.
    pub fn as_slice(&self) -> &[Signal]
        ensures { result.now ≡ self.now }
    {
        self.signals.as_slice()
    }
}

/// A gate or a register. `line` is the line of its statement's first token, counted from 1.
#[derive(Debug, Drop)]
pub struct GateLine {
    pub out: Signal,
    pub kind: Kind,
    pub operands: Operands,
    pub line: u32,
}

/// A netlist. Its signals are numbered in the order in which the text first mentions them as signals.
#[derive(Drop)]
pub struct Netlist {
    pub(crate) names: NameTable,
    pub(crate) symbols: Vec<Symbol>,
    pub(crate) inputs: Vec<Signal>,
    pub(crate) outputs: Vec<Signal>,
    pub(crate) gates: Vec<GateLine>,
    pub(crate) registers: Vec<GateLine>,
    pub(crate) variables: Vec<Signal>,
    pub(crate) ranks: Vec<u32>,
}

impl Model for Netlist {
    ghost use Rattle.std.specs.Prelude.{◌≡◌, ◌++◌, map};
    ghost use Rattle.net_bench.specs.Circuit.{Net, IsNet};
    ghost use Rattle.net_bench.specs.Symbols.{AreRoles};

    ghost Value = { Net };

    ghost view = { λ a. record {
      names = a.names;
      inputs = a.inputs.items;
      outputs = a.outputs.items;
      gates = a.gates.items;
      registers = a.registers.items;
      ranks = a.ranks.items;
    } };

    ghost invariant = { λ a. IsNet (record {
      names = a.names;
      inputs = a.inputs.items;
      outputs = a.outputs.items;
      gates = a.gates.items;
      registers = a.registers.items;
      ranks = a.ranks.items;
    }) × (a.variables.items ≡ a.inputs.items ++ map (λ g. g.out) a.registers.items) × AreRoles (record {
      names = a.names;
      inputs = a.inputs.items;
      outputs = a.outputs.items;
      gates = a.gates.items;
      registers = a.registers.items;
      ranks = a.ranks.items;
    }) a.symbols.items };
}

impl Netlist {
    /// The inputs, in the order of their first INPUT.
    pub fn inputs(&self) -> &[Signal]
        ensures value { result.now ≡ self.now.inputs }
        ensures sound { IsNet self.now }
    {
        self.inputs.as_slice()
    }

    /// The outputs, in the order of their first OUTPUT.
    pub fn outputs(&self) -> &[Signal]
        ensures value { result.now ≡ self.now.outputs }
        ensures sound { IsNet self.now }
    {
        self.outputs.as_slice()
    }

    /// The registers, in the order of the text. The signal of each is a variable, and its one operand is its next state.
    pub fn registers(&self) -> &[GateLine]
        ensures value { result.now ≡ self.now.registers }
        ensures sound { IsNet self.now }
    {
        self.registers.as_slice()
    }

    /// The variables: the inputs, then the registers' signals, each in its order.
    pub fn variables(&self) -> &[Signal]
        ensures value { result.now ≡ variables_of (circuit self.now) }
        ensures sound { IsNet self.now }
    {
        self.variables.as_slice()
    }

    /// The gates that are no registers, in the order of the text.
    pub fn gates(&self) -> &[GateLine]
        ensures value { result.now ≡ self.now.gates }
        ensures sound { IsNet self.now }
    {
        self.gates.as_slice()
    }

    /// How many signals the netlist has. They are numbered from 0.
    pub fn count(&self) -> usize
        ensures value { result ≡ length self.now.names }
        ensures sound { IsNet self.now }
    {
        self.names.len()
    }

    /// The signal of this name; None if there is none.
    pub fn find(&self, name: &[u8]) -> Option<Signal>
        ensures value { result ≡ find self.now.names name.now }
        ensures sound { IsNet self.now }
    {
        match self.names.find(name) {
            Some(number) => Some(Signal::of(number)),
            None => None,
        }
    }

    /// The name of a signal.
    pub fn name(&self, signal: Signal) -> &[u8]
        requires { signal < length self.now.names }
        ensures value { slice_get self.now.names signal ≡ Some result.now }
        ensures sound { IsNet self.now }
    {
        self.names.name(signal.number())
    }

    /// What gives the signal its value; never `Undefined`.
    pub fn role(&self, signal: Signal) -> Role
        requires { signal < length self.now.names }
        ensures value { HasRole self.now signal result }
        // The gate of the role is the only one of the signal; if the role is no gate, the signal has none.
        ensures gate { gate_of self.now.gates signal ≡ gate_by self.now.gates result }
        ensures sound { IsNet self.now }
    {
        symbol_of(self.symbols.as_slice(), signal).role
    }

    /// The rank of a signal: 0 for a variable; for a gate, 1 more than the greatest rank of its operands.
    pub fn rank(&self, signal: Signal) -> u32
        requires { signal < length self.now.names }
        ensures value { result ≡ slice_index self.now.ranks signal }
        ensures sound { IsNet self.now }
    {
        self.ranks[signal.number() as usize]
    }
}
