//! Why a process's memory can't be read.
use std::alloc::{AllocError, AllocFailed};
use std::io;
use thiserror::Error;

/// Why a process's memory can't be read.
#[derive(Clone, Copy, Debug, Error)]
pub enum LiveFault {
    /// Memory was refused.
    #[error("out of memory")]
    OutOfMemory,
    /// The system refused, for this reason.
    #[error("{0}")]
    System(io::Error),
    /// This line of the list of mappings, counted from 1, isn't of its form.
    #[error("line {0} of the process's list of mappings isn't of its form")]
    Line(u64),
    /// There are more than 4,294,967,295 pages.
    #[error("more than 4,294,967,295 pages")]
    TooManyPages,
}

impl From<AllocError> for LiveFault {
    ghost use Rattle.std.specs.Prelude.{◌≡◌};
    ghost use Rattle.live_memory.specs.declared.fault.LiveFault.{LiveFault};

    ghost from_gives = { λ _ fault. fault ≡ LiveFault.OutOfMemory };

    fn from(_refused: AllocError) -> LiveFault {
        LiveFault::OutOfMemory
    }
}

impl<T: Drop> From<AllocFailed<T>> for LiveFault {
    ghost use Rattle.std.specs.Prelude.{◌≡◌};
    ghost use Rattle.live_memory.specs.declared.fault.LiveFault.{LiveFault};

    ghost from_gives = { λ _ fault. fault ≡ LiveFault.OutOfMemory };

    fn from(_refused: AllocFailed<T>) -> LiveFault {
        LiveFault::OutOfMemory
    }
}

impl From<io::Error> for LiveFault {
    fn from(error: io::Error) -> LiveFault {
        if error.kind() == io::ErrorKind::OutOfMemory {
            LiveFault::OutOfMemory
        } else {
            LiveFault::System(error)
        }
    }
}
