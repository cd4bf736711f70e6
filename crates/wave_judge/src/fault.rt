//! Why a window has no diagrams.
use dd_store::StoreFault;
use expand_work::WaveFault;
use std::alloc::AllocError;

/// Why a window has no diagrams.
#[derive(Clone, Copy, Debug, PartialEq, Eq)]
pub(crate) enum WindowFault {
    /// A node has an operand that is not in the window, or is a variable, or there are more leaves than a store can
    /// have levels.
    Incomplete,
    /// More nodes or requests are needed than the budget has.
    OverBudget,
    /// Memory was refused.
    OutOfMemory,
    /// The run has stopped.
    Stopped,
}

impl From<WaveFault> for WindowFault {
    fn from(fault: WaveFault) -> WindowFault {
        match fault {
            WaveFault::OutOfMemory => WindowFault::OutOfMemory,
            WaveFault::Full | WaveFault::TooManyRequests | WaveFault::NoWorker => {
                WindowFault::OverBudget
            }
            WaveFault::Stopped => WindowFault::Stopped,
        }
    }
}

impl From<AllocError> for WindowFault {
    fn from(_fault: AllocError) -> WindowFault {
        WindowFault::OutOfMemory
    }
}

impl From<StoreFault> for WindowFault {
    fn from(fault: StoreFault) -> WindowFault {
        match fault {
            StoreFault::Full => WindowFault::OverBudget,
            StoreFault::OutOfMemory => WindowFault::OutOfMemory,
        }
    }
}
