//! What a domain counts.
ghost use Rattle.std.specs.Prelude.{◌≡◌, ◌*◌, ◌≤◌, length, count_by};
ghost use Rattle.page_model.specs.declared.limits.TheConstants.{MAX_PAGES};
ghost use Rattle.share_domain.specs.Totals.{is_present, slots_of, totals_of};
ghost use Rattle.share_domain.specs.declared.config.TheConstants.{MAX_CLIENTS, MAX_MACHINES};

use crate::client::Presence;
use lent_slots::LentSlots;
use page_digest::PageHash;
use std::alloc::Allocator;

/// How many clients, slots and frames there are.
#[derive(Clone, Copy, Debug, PartialEq, Eq)]
pub struct DomainReport {
    /// The machines.
    pub machines: u32,
    /// The clients that have entered and aren't out.
    pub clients: u32,
    /// The slots that clients have.
    pub slots: u32,
    /// The frames in use.
    pub frames: u32,
    /// The slots whose frame another slot has, too.
    pub shared: u32,
    /// The frames that sharing saves: the slots that clients have, minus the frames in use.
    pub reclaimed: u32,
}

/// Counts a domain's machines, clients, slots and frames.
pub(crate) fn report<H: PageHash, A: Allocator>(
    machines: &Vec<LentSlots<H, A>, A>,
    clients: &[Presence],
) -> DomainReport
    requires machines { length machines.now.items ≤ MAX_MACHINES }
    requires clients { length clients.now ≤ MAX_CLIENTS }
    ensures { result ≡ totals_of machines.now.items clients.now }
{
    let mut slots = 0;
    let mut frames = 0;
    let mut shared = 0;
    for machine in machines {
        slots += machine.held();
        frames += machine.frames_in_use();
        shared += machine.shared();
    }
    DomainReport {
        machines: machines.len() as u32,
        clients: count_present(clients),
        slots,
        frames,
        shared,
        reclaimed: slots.saturating_sub(frames),
    }
}

/// Counts the slots that are a client's.
pub(crate) fn count_slots<H: PageHash, A: Allocator>(
    machines: &Vec<LentSlots<H, A>, A>,
    client: u32,
) -> u32
    requires machines { length machines.now.items ≤ MAX_MACHINES }
    ensures count { result ≡ slots_of client machines.now.items }
    ensures few { result ≤ MAX_PAGES * MAX_MACHINES }
{
    let mut slots = 0;
    for machine in machines {
        slots += machine.held_by(client);
    }
    slots
}

/// Counts the clients that have entered and aren't out.
fn count_present(clients: &[Presence]) -> u32
    requires { length clients.now ≤ MAX_CLIENTS }
    ensures { result ≡ count_by is_present clients.now }
{
    let mut count = 0;
    for presence in clients {
        match presence {
            Presence::Out => {}
            Presence::In => count += 1,
            Presence::Leaving => count += 1,
        }
    }
    count
}
