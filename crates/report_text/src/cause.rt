//! Causes: inner signals at which differences begin, each with all pairs that it explains.
ghost use Rattle.std.specs.Prelude.{◌≡◌};

use crate::outcome::PairKind;
use crate::verdict::Name;
use std::marker::Model;

/// A pair that a verdict is about: an output of the first netlist, or the next state of one of its registers.
#[derive(Drop)]
pub struct PairName {
    pub role: PairKind,
    pub name: Name,
}

/// A cause: an inner signal of the first netlist, and the pairs of which it is the first inner signal that differs.
#[derive(Drop)]
pub struct Cause {
    signal: Name,
    first_line: u32,
    second_line: u32,
    pairs: Vec<PairName>,
}

impl Model for Cause {
    ghost use Rattle.report_text.specs.Causes.{Caused};

    ghost Value = { Caused };

    ghost view = { λ c. record { signal = c.signal; first_line = c.first_line; second_line = c.second_line; pairs = c.pairs.items } };
}

impl Cause {
    /// The cause of these pairs: a signal, with the line of its gate in the first text and that of the gate of the same
    /// name in the second.
    pub fn of(signal: Name, lines: (u32, u32), pairs: Vec<PairName>) -> Cause
        ensures { result ≡ record { signal = signal; first_line = lines.0; second_line = lines.1; pairs = pairs.items } }
    {
        let (first_line, second_line) = lines;
        Cause {
            signal,
            first_line,
            second_line,
            pairs,
        }
    }

    /// The name of the signal.
    pub fn signal(&self) -> &[u8]
        ensures { result.now ≡ self.now.signal }
    {
        self.signal.as_slice()
    }

    /// The line of the signal's gate in the first text, and in the second.
    pub fn lines(&self) -> (u32, u32)
        ensures first { result.0 ≡ self.now.first_line }
        ensures second { result.1 ≡ self.now.second_line }
    {
        (self.first_line, self.second_line)
    }

    /// The pairs, in the order of the report.
    pub fn pairs(&self) -> &[PairName]
        ensures { result.now ≡ self.now.pairs }
    {
        self.pairs.as_slice()
    }
}
