//! A verdict: what a comparison says of one pair, or of an output or register without a partner.
ghost use Rattle.std.specs.Prelude.{◌≡◌, IfOk};
ghost use Rattle.report_text.specs.SupportBits.{support_bits_of};

use crate::outcome::{PairKind, Side};
use std::alloc::{AllocError, Global};
use std::marker::Model;

/// The name of an output or a register.
#[derive(Debug, Drop)]
pub struct Name {
    bytes: Vec<u8>,
}

impl Model for Name {
    ghost use Rattle.std.specs.Prelude.{List, ℕ};

    ghost Value = { List ℕ };

    ghost view = { λ a. a.bytes.items };
}

impl Name {
    /// A copy of these bytes as a name.
    pub fn copied(alloc: Global, bytes: &[u8]) -> Result<Name, AllocError>
        ensures { IfOk result (λ name. name ≡ bytes.now) }
    {
        let bytes = bytes.to_vec(alloc)?;
        Ok(Name { bytes })
    }

    /// The bytes of the name.
    pub fn as_slice(&self) -> &[u8]
        ensures { result.now ≡ self.now }
    {
        self.bytes.as_slice()
    }
}

/// An assignment: a bit for each variable, by level.
#[derive(Debug, Drop)]
pub struct Bits {
    list: Vec<bool>,
}

impl Model for Bits {
    ghost use Rattle.std.specs.Prelude.{List, Bool};

    ghost Value = { List Bool };

    ghost view = { λ a. a.list.items };
}

impl Bits {
    /// This list as an assignment.
    pub fn of(list: Vec<bool>) -> Bits
        ensures { result ≡ list.items }
    {
        Bits { list }
    }

    /// The bits by level.
    pub fn as_slice(&self) -> &[bool]
        ensures { result.now ≡ self.now }
    {
        self.list.as_slice()
    }
}

/// What is reported of two different functions besides an assignment and their values.
#[derive(Debug, Drop)]
pub struct Extras {
    /// Whether the assignment is known to be the least at which they differ.
    pub least: bool,
    /// For each variable, by level, whether one of the two functions depends on it; None if support is not asked for.
    pub support: Option<Bits>,
    /// The sizes of both diagrams; None if sizes are not asked for.
    pub sizes: Option<(u64, u64)>,
}

impl Extras {
    /// For each variable whether one of the functions depends on it; empty if support is not asked for.
    pub(crate) fn support_bits(&self) -> &[bool]
        ensures { result.now ≡ support_bits_of self.now.support }
    {
        match &self.support {
            Some(support) => support.as_slice(),
            None => &[],
        }
    }
}

/// What a comparison says of one pair of functions, or of an output or register without a partner.
#[derive(Debug, Drop)]
pub enum Verdict {
    /// The two functions are equal. The size of their diagram is there if sizes are asked for.
    Equal {
        role: PairKind,
        name: Name,
        size: Option<u64>,
    },
    /// The two functions differ at this assignment, and have these values there. It is the least such assignment if
    /// `extras.least` is true.
    Differs {
        role: PairKind,
        name: Name,
        at: Bits,
        first: bool,
        second: bool,
        extras: Extras,
    },
    /// An output or a register of one netlist has no partner in the other.
    Unmatched {
        side: Side,
        role: PairKind,
        name: Name,
    },
    /// No attempt has decided whether the two functions are equal.
    Undecided {
        role: PairKind,
        name: Name,
    },
}
