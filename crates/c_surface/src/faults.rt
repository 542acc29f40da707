//! The statuses of a domain's faults.
ghost use Rattle.std.specs.Prelude.{◌≡◌, ◌≢◌};
ghost use Rattle.c_surface.specs.Statuses.{domain_status, lend_status};
ghost use Rattle.c_surface.specs.declared.status.TheConstants as status;

use crate::status;
use share_domain::{DomainFault, LendFault};

/// Returns the status for a page that wasn't lent.
pub fn lend_status(fault: LendFault) -> u32
    ensures { result ≡ lend_status fault }
{
    match fault {
        LendFault::NoClient => status::NO_CLIENT,
        LendFault::NoSlot => status::NO_SLOT,
        LendFault::NoFrame => status::NO_FRAME,
    }
}

/// Returns the status for a domain that wasn't made.
pub fn domain_status(fault: DomainFault) -> u32
    ensures status { result ≡ domain_status fault }
    ensures refused { result ≢ status.OK }
{
    match fault {
        DomainFault::Machines => status::MACHINES,
        DomainFault::Slots => status::SLOTS,
        DomainFault::Frames => status::FRAMES,
        DomainFault::Clients => status::CLIENTS,
        DomainFault::OutOfMemory => status::MEMORY,
    }
}
