//! Why a text is no netlist.
ghost use Rattle.std.specs.Prelude.{◌≡◌};
ghost use Rattle.net_bench.specs.declared.fault.BenchFault.TheVariants.{OutOfMemory};

use std::alloc::AllocError;

/// Why a text is no netlist. Lines are counted from 1.
#[derive(Clone, Copy, Debug, PartialEq, Eq)]
pub enum BenchFault {
    /// The text has more than 67,108,864 bytes (64 MiB).
    TooLong,
    /// A byte outside comments that is neither a blank nor printable.
    BadByte { line: u32 },
    /// A token that cannot come after those before it, or a text that ends within a statement.
    BadStatement { line: u32 },
    /// The word of a gate is none of the gate words.
    UnknownGate { line: u32 },
    /// NOT, BUFF or DFF with two operands or more.
    WrongOperands { line: u32 },
    /// A second definition: the signal has a gate or register already, or it has both an INPUT and one of these.
    Redefined { line: u32 },
    /// A name of more than 255 bytes, more than 1,000,000 signals, or more than 4,000,000 operands.
    TooMany { line: u32 },
    /// An operand or an OUTPUT that no INPUT, gate or register defines.
    Undefined { line: u32 },
    /// The gate depends on a cycle of gates: an endless chain of operands starts at it.
    Cycle { line: u32 },
    /// The device failed.
    Read,
    /// An allocation was refused.
    OutOfMemory,
}

impl From<AllocError> for BenchFault {
    ghost from_gives = { λ _ fault. fault ≡ OutOfMemory };

    fn from(_fault: AllocError) -> BenchFault {
        BenchFault::OutOfMemory
    }
}
