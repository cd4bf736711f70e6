//! What is asked of a pairing (how signals are matched, and the order of the variables), and why there is none.
ghost use Rattle.std.specs.Prelude.{◌≡◌};
ghost use Rattle.net_names.specs.declared.order.OrderFault.TheVariants.{OutOfMemory};

use crate::names::Names;
use std::alloc::AllocError;

/// How inputs, outputs and registers of two netlists are paired.
#[derive(Clone, Copy, Debug, PartialEq, Eq)]
pub enum Match {
    /// Equal names are paired.
    Name,
    /// Input i is paired with input i, output i with output i, and register i with register i.
    Position,
}

/// The order of the variables, from level 0 at the top down.
#[derive(Drop)]
pub enum Order {
    /// As declared: the first netlist's inputs, the second's, then the first's registers, the second's. A name that
    /// comes again is at its first place.
    Declared,
    /// As depth-first walks meet them below the outputs and next states, with operands from left to right: below the
    /// first netlist's, then below the second's. Then the others, as declared.
    Depth,
    /// Interleaved (Fujii, Ootomo and Hori 1993): walks below the outputs and next states put each new variable right
    /// after the one that they met before. Roots and operands are taken by falling rank. Then the others, as declared.
    Interleave,
    /// By rising number at the end of their names. Those without a number come first, and equal numbers are as declared.
    Index,
    /// By FORCE (Aloul, Markov and Sakallah 2003) over the gates of all netlists, which begins with `Index`; the result is reversed.
    Force,
    /// The names of a list, which must have each variable exactly once.
    Listed(Names),
    /// The names of a list that are variables, each at its first place, then the others as declared.
    Extended(Names),
}

/// Why two netlists were not paired, or an order file was not read.
#[derive(Clone, Copy, Debug, PartialEq, Eq)]
pub enum OrderFault {
    /// By position: the netlists have different numbers of inputs, of outputs or of registers.
    CountsDiffer,
    /// The list does not have each variable once. The place, counted from 1, is that of the first name that is no
    /// variable or came before, or one after the end if names are missing.
    NotAPermutation { place: u32 },
    /// There are more than 4,096 variables.
    TooManyInputs,
    /// An allocation was refused.
    OutOfMemory,
    /// An order file has a token that is no name, or a name of more than 255 bytes.
    BadName { line: u32 },
    /// An order file has more than 67,108,864 bytes (64 MiB).
    TooLong,
    /// The device that an order file is read from has failed.
    Read,
}

impl From<AllocError> for OrderFault {
    ghost from_gives = { λ _ fault. fault ≡ OutOfMemory };

    fn from(_: AllocError) -> OrderFault {
        OrderFault::OutOfMemory
    }
}
