//! Why a run fails.
ghost use Rattle.std.specs.Prelude.{◌≡◌};

use merge_machine::{Fault, JournalFull};
use std::alloc::AllocError;
use thiserror::Error;

/// Why a machine was not run to its end. The causes of a machine are checked in this order, and `Stopped` before memory.
#[derive(Clone, Copy, Debug, PartialEq, Eq, Error)]
pub enum RunFault {
    /// 0 frames, or more than `MAX_FRAMES`.
    #[error("give the machine 1 to 1,048,576 frames")]
    Frames,
    /// No guest, more than `MAX_GUESTS`, or not one salt for each guest.
    #[error("give the machine 1 to 64 guests, with a salt each")]
    Guests,
    /// A guest with no page, or more than `MAX_PAGES` in total.
    #[error("give each guest a page at least, and all together at most 1,048,576")]
    Pages,
    /// A ring of 0 items, or of more than `MAX_RING_CAPACITY`.
    #[error("a ring holds 1 to 65,536 items")]
    Ring,
    /// A journal of 0 entries, or of more than `MAX_ENTRIES`.
    #[error("a journal holds 1 to 16,777,216 entries")]
    Journal,
    /// The memory for the run was refused, before any thread was started.
    #[error("out of memory")]
    OutOfMemory,
    /// The guests send more requests, closes included, than the journal has room for. This is checked before memory is asked
    /// for.
    #[error("the guests send more than the journal holds")]
    Stopped(JournalFull),
    /// The start of a guest's thread was refused.
    #[error("no thread could be started")]
    NoThread,
}

impl From<Fault> for RunFault {
    ghost use Rattle.merge_run.specs.Runs.{run_fault_of};

    ghost from_gives = { λ refused fault. fault ≡ run_fault_of refused };

    fn from(refused: Fault) -> RunFault {
        match refused {
            Fault::Frames => RunFault::Frames,
            Fault::Guests => RunFault::Guests,
            Fault::Pages => RunFault::Pages,
            Fault::Ring => RunFault::Ring,
            Fault::Journal => RunFault::Journal,
            Fault::OutOfMemory => RunFault::OutOfMemory,
        }
    }
}

impl From<AllocError> for RunFault {
    ghost use Rattle.merge_run.specs.declared.run_fault.RunFault.TheVariants.{OutOfMemory};

    ghost from_gives = { λ _ fault. fault ≡ OutOfMemory };

    fn from(_refused: AllocError) -> RunFault {
        RunFault::OutOfMemory
    }
}
