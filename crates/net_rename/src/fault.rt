//! Why a list of pairs is refused.
ghost use Rattle.std.specs.Prelude.{◌≡◌};
ghost use Rattle.net_rename.specs.declared.fault.PairsFault.TheVariants.{OutOfMemory};

use std::alloc::AllocError;

/// Why a list of pairs is refused. Lines are counted from 1.
#[derive(Clone, Copy, Drop, Debug, PartialEq, Eq)]
pub enum PairsFault {
    /// A line has something else than pairs of names of at most 255 bytes each.
    BadLine { line: u32 },
    /// The file has more than 67,108,864 bytes.
    TooLong,
    /// The device that the file is read from has failed.
    Read,
    /// The first name is that of no input, output or register of the first netlist.
    UnknownFirst { line: u32 },
    /// The second name is that of no input, output or register of the second netlist.
    UnknownSecond { line: u32 },
    /// One of the names is in its column on an earlier line, too.
    Repeated { line: u32 },
    /// The second netlist has another signal of the first name.
    Taken { line: u32 },
    /// A growth was refused.
    OutOfMemory,
}

impl From<AllocError> for PairsFault {
    ghost from_gives = { λ _ fault. fault ≡ OutOfMemory };

    fn from(_: AllocError) -> PairsFault {
        PairsFault::OutOfMemory
    }
}
