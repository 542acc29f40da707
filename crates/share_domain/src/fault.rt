//! Why a call did nothing.
ghost use Rattle.std.specs.Prelude.{◌≡◌};

use std::alloc::AllocError;
use thiserror::Error;

/// Why no domain was made, in the order in which the causes are checked.
#[derive(Clone, Copy, Debug, PartialEq, Eq, Error)]
pub enum DomainFault {
    /// No machine, or more than `MAX_MACHINES`.
    #[error("give the domain 1 to 64 machines")]
    Machines,
    /// No slot, or more than `MAX_PAGES`.
    #[error("give each machine 1 to 1,048,576 slots")]
    Slots,
    /// Fewer than 2 frames, or more than `MAX_FRAMES`.
    #[error("give each machine 2 to 1,048,576 frames")]
    Frames,
    /// No client, or more than `MAX_CLIENTS`.
    #[error("give the domain room for 1 to 65,536 clients")]
    Clients,
    /// The memory for the domain was refused.
    #[error("there is no memory for the domain: give it fewer machines, slots or frames, or free some memory")]
    OutOfMemory,
}

impl From<AllocError> for DomainFault {
    ghost use Rattle.share_domain.specs.declared.fault.DomainFault.TheVariants.{OutOfMemory};

    ghost from_gives = { λ _ fault. fault ≡ OutOfMemory };

    fn from(_refused: AllocError) -> DomainFault {
        DomainFault::OutOfMemory
    }
}

/// Why a page wasn't lent.
#[derive(Clone, Copy, Debug, PartialEq, Eq, Error)]
pub enum LendFault {
    /// No client with this number is in, or it has begun to leave.
    #[error("no such client is in")]
    NoClient,
    /// The page's machine has no free slot.
    #[error("no slot is free")]
    NoSlot,
    /// The page joins no other, and all frames of its machine but the spare one are in use.
    #[error("no frame is free")]
    NoFrame,
}

/// The slot isn't the client's.
#[derive(Clone, Copy, Debug, PartialEq, Eq, Error)]
#[error("the slot isn't the client's")]
pub struct NoSuchSlot;
