//! The sizes of a domain.
ghost use Rattle.std.specs.Prelude.{◌≡◌, MatchOption};
ghost use Rattle.share_domain.specs.Made.{AreLimits, NoDomainFor, limit_fault};

use crate::fault::DomainFault;
use page_model::{MAX_FRAMES, MAX_PAGES};

/// The most machines that a domain has.
pub const MAX_MACHINES: u32 = 64;

/// The most clients that are in at a time.
pub const MAX_CLIENTS: u32 = 65_536;

/// The sizes of a domain, and the salt of its pages.
#[derive(Clone, Copy, Debug, PartialEq, Eq)]
pub struct DomainConfig {
    /// How many machines there are: 1 to `MAX_MACHINES`.
    pub machines: u32,
    /// How many slots each machine has: 1 to `MAX_PAGES`.
    pub slots: u32,
    /// How many frames each machine has: 2 to `MAX_FRAMES`. One of them is spare: it is in use only within a call.
    pub frames: u32,
    /// How many clients may be in at a time: 1 to `MAX_CLIENTS`.
    pub clients: u32,
    /// The salt under which pages are hashed. Draw it at random and keep it secret, so that no client can choose pages whose
    /// hashes are equal.
    pub salt: u32,
}

/// Returns the fault of the first number that no domain has, `None` if there may be a domain with these numbers.
pub fn limit_fault(config: &DomainConfig) -> Option<DomainFault>
    ensures fault { result ≡ limit_fault config.now }
    ensures limits { MatchOption result (AreLimits config.now) (λ fault. NoDomainFor config.now fault) }
{
    if config.machines == 0 || config.machines > MAX_MACHINES {
        return Some(DomainFault::Machines);
    }
    if config.slots == 0 || config.slots > MAX_PAGES {
        return Some(DomainFault::Slots);
    }
    if config.frames < 2 || config.frames > MAX_FRAMES {
        return Some(DomainFault::Frames);
    }
    if config.clients == 0 || config.clients > MAX_CLIENTS {
        return Some(DomainFault::Clients);
    }
    None
}
