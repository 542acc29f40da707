//! Lending and releasing at one of a domain's machines.
ghost use Rattle.std.specs.Prelude.{◌≡◌, ◌<◌, length, IfOk, IfSome, MatchResult, slice_set};
ghost use Rattle.share_domain.specs.Domains.{machine_at, machine_of, held_in, with_released};
ghost use Rattle.share_domain.specs.Open.{is_open, first_open};
ghost use Rattle.lent_slots.specs.Bytes.{BytesStayIn};
ghost use Rattle.lent_slots.specs.Slots.{LendsPage, RefusesPage, freed};

use crate::holding::Slot;
use lent_slots::{Holding, LentSlots, PageLoan, SlotFault};
use merge_core::SaltedHash;
use page_digest::PageHash;
use page_model::Page;
use std::alloc::Allocator;

/// Returns which of `machines` machines a page with this hash goes to.
pub(crate) fn machine_of(machines: usize, hash: u64) -> usize
    requires { 0 < machines }
    ensures machine { result ≡ machine_of machines hash }
    ensures within { result < machines }
{
    ((hash >> 32) % machines as u64) as usize
}

/// Whether a machine has a free slot, and a free frame besides the spare one.
fn is_open<H: PageHash, A: Allocator>(machine: &LentSlots<H, A>) -> bool
    ensures { result ≡ is_open machine.now }
{
    let frames = machine.frames().total();
    machine.held() < machine.slot_count() && machine.frames_in_use() + 1 < frames
}

/// Returns the first machine that is open, and machine 0 if none is.
pub(crate) fn first_open<H: PageHash, A: Allocator>(machines: &Vec<LentSlots<H, A>, A>) -> usize
    requires some { 0 < length machines.now.items }
    ensures machine { result ≡ first_open machines.now.items }
    ensures within { result < length machines.now.items }
{
    for m in 0..machines.len() {
        if is_open(&machines[m]) {
            return m;
        }
    }
    0
}

/// Lends a client's page at a machine.
pub(crate) fn lend_to<H: PageHash, A: Allocator>(
    machines: &mut Vec<LentSlots<H, A>, A>,
    m: usize,
    client: u32,
    page: &Page,
    known: SaltedHash,
) -> Result<PageLoan, SlotFault>
    requires within { m < length machines.old.items }
    requires hash { known.hash ≡ H.hash_of known.salt page.now }
    ensures lends { MatchResult result
        (λ loan. LendsPage client page.now loan (machine_at machines.old.items m) (machine_at machines.new.items m))
        (λ fault. RefusesPage fault (machine_at machines.old.items m) × (machines.new.items ≡ machines.old.items)) }
    ensures others { machines.new.items ≡ slice_set machines.old.items m (machine_at machines.new.items m) }
    ensures bytes { IfOk result (λ _. BytesStayIn (machine_at machines.old.items m) (machine_at machines.new.items m)) }
{
    machines[m].lend(client, page, known)
}

/// Returns what a slot holds, `None` if it is free or there is no such slot.
pub(crate) fn holding_at<H: PageHash, A: Allocator>(
    machines: &Vec<LentSlots<H, A>, A>,
    slot: Slot,
) -> Option<Holding>
    ensures { result ≡ held_in machines.now.items slot }
{
    if slot.machine as usize >= machines.len() {
        return None;
    }
    machines[slot.machine as usize].holding(slot.ppn)
}

/// Releases a slot, and returns the frame that is free since, by its number in its machine.
pub(crate) fn release_at<H: PageHash, A: Allocator>(
    machines: &mut Vec<LentSlots<H, A>, A>,
    slot: Slot,
) -> Option<u32>
    requires { slot.machine < length machines.old.items }
    ensures freed { result ≡ freed slot.ppn (machine_at machines.old.items slot.machine) }
    ensures machines { machines.new.items ≡ with_released slot machines.old.items }
    ensures within { IfSome result (λ mpn. mpn < length (machine_at machines.old.items slot.machine).frames) }
{
    machines[slot.machine as usize].frames();
    machines[slot.machine as usize].release(slot.ppn)
}
