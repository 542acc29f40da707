//! Why no core was made.
ghost use Rattle.std.specs.Prelude.{◌≡◌};

use page_model::ShapeFault;
use std::alloc::AllocError;
use thiserror::Error;

/// Why no core was made, in the order in which the causes are checked.
#[derive(Clone, Copy, Debug, PartialEq, Eq, Error)]
pub enum CoreFault {
    /// 0 frames, or more than `MAX_FRAMES`.
    #[error("give the machine 1 to 1,048,576 frames")]
    Frames,
    /// No guest, more than `MAX_GUESTS`, or not one salt for each guest.
    #[error("give the machine 1 to 64 guests, with a salt each")]
    Guests,
    /// A guest with no page, or more than `MAX_PAGES` in total.
    #[error("give each guest a page at least, and all together at most 1,048,576")]
    Pages,
    /// The memory for the machine was refused.
    #[error("there is no memory for the machine: give it fewer frames or pages, or free some memory")]
    OutOfMemory,
}

impl From<ShapeFault> for CoreFault {
    ghost use Rattle.merge_core.specs.Refusals.{fault_of};

    ghost from_gives = { λ refused fault. fault ≡ fault_of refused };

    fn from(refused: ShapeFault) -> CoreFault {
        match refused {
            ShapeFault::Frames => CoreFault::Frames,
            ShapeFault::Guests => CoreFault::Guests,
            ShapeFault::Pages => CoreFault::Pages,
        }
    }
}

impl From<AllocError> for CoreFault {
    ghost use Rattle.merge_core.specs.declared.fault.CoreFault.TheVariants.{OutOfMemory};

    ghost from_gives = { λ _ fault. fault ≡ OutOfMemory };

    fn from(_refused: AllocError) -> CoreFault {
        CoreFault::OutOfMemory
    }
}
