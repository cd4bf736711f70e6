//! Why a wave or a worker has failed.
ghost use Rattle.std.specs.Prelude.{◌≡◌};
ghost use Rattle.expand_work.specs.declared.fault.WaveFault.TheVariants.{OutOfMemory};
ghost use Rattle.expand_work.specs.declared.fault.WorkFault.TheVariants as work_faults;

use dd_store::StoreFault;
use std::alloc::AllocError;

/// Why a wave has failed.
#[derive(Clone, Copy, Drop, Debug, PartialEq, Eq)]
pub enum WaveFault {
    /// Memory was refused.
    OutOfMemory,
    /// A thread could not be started, or the workers have stopped because there are more requests than they may expand.
    NoWorker,
    /// The store has, or would have, more nodes than its limit.
    Full,
    /// The wave has more requests than its monitor allows.
    TooManyRequests,
    /// The run has stopped, as the monitor says. Nothing of the wave was reduced.
    Stopped,
}

/// Why a worker has ended before the last level.
#[derive(Clone, Copy, Drop, Debug, PartialEq, Eq)]
pub enum WorkFault {
    /// Memory was refused. The worker has set the flag that stops the others.
    OutOfMemory,
    /// The flag was set, or the run has stopped.
    Stopped,
}

impl From<AllocError> for WorkFault {
    ghost from_gives = { λ _ fault. fault ≡ work_faults.OutOfMemory };

    fn from(_fault: AllocError) -> WorkFault {
        WorkFault::OutOfMemory
    }
}

impl From<StoreFault> for WaveFault {
    ghost use Rattle.std.specs.Prelude.{◌≡◌};
    ghost use Rattle.expand_work.specs.Fault.{wave_fault};

    ghost from_gives = { λ refused fault. fault ≡ wave_fault refused };

    fn from(refused: StoreFault) -> WaveFault {
        match refused {
            StoreFault::Full => WaveFault::Full,
            StoreFault::OutOfMemory => WaveFault::OutOfMemory,
        }
    }
}

impl From<AllocError> for WaveFault {
    ghost from_gives = { λ _ fault. fault ≡ OutOfMemory };

    fn from(_fault: AllocError) -> WaveFault {
        WaveFault::OutOfMemory
    }
}
