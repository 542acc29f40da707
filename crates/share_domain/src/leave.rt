//! The slots of a client that leaves.
ghost use Rattle.std.specs.Prelude.{◌≡◌, ◌<◌, ◌≤◌, drop, length, position, IfSome};
ghost use Rattle.lent_slots.specs.Slots.{is_of};
ghost use Rattle.share_domain.specs.Domains.{machine_at};
ghost use Rattle.share_domain.specs.Leaving.{slot_from};
ghost use Rattle.share_domain.specs.declared.config.TheConstants.{MAX_MACHINES};

use crate::holding::Slot;
use lent_slots::LentSlots;
use page_digest::PageHash;
use std::alloc::Allocator;

/// Returns the client's first slot of a machine.
fn first_at<H: PageHash, A: Allocator>(
    machines: &mut Vec<LentSlots<H, A>, A>,
    m: usize,
    client: u32,
) -> Option<u32>
    requires { m < length machines.old.items }
    ensures slot { result ≡ position (is_of client) (machine_at machines.old.items m).slots }
    ensures same { machines.new.items ≡ machines.old.items }
{
    machines[m].first_of(client)
}

/// Returns the client's first slot, from machine `first` on.
pub(crate) fn find_slot<H: PageHash, A: Allocator>(
    machines: &mut Vec<LentSlots<H, A>, A>,
    client: u32,
    first: usize,
) -> Option<Slot>
    requires machines { length machines.old.items ≤ MAX_MACHINES }
    requires first { first ≤ length machines.old.items }
    ensures slot { result ≡ slot_from client first (drop first machines.old.items) }
    ensures within { IfSome result (λ slot. slot.machine < length machines.old.items) }
    ensures same { machines.new.items ≡ machines.old.items }
{
    for m in first..machines.len() {
        if let Some(ppn) = first_at(machines, m, client) {
            return Some(Slot {
                machine: m as u32,
                ppn,
            });
        }
    }
    None
}
