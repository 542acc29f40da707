//! A core whose one guest's pages are slots.
ghost use Rattle.std.specs.Prelude.{◌≡◌, ◌<◌, ◌⊎◌, ℕ, length, true, false, None, Some, IfNone, IfSome, slice_get, slice_set};
ghost use Rattle.machine_frames.specs.FrameMap.{frame, used};
ghost use Rattle.lent_slots.specs.Fits.{Fits};
ghost use Rattle.lent_slots.specs.Slots.{holding, lent_slots, slots_after, frames_after, left_free, with_free, IsSpent, sharers};
ghost use Rattle.lent_slots.specs.Tags.{slots_of, tags_after};

use crate::holding::Holding;
use frame_laws::{lend_keeps_bytes_law, request_keeps_bytes_law};
use lazy_list::LazyList;
use merge_core::{Core, SaltedHash};
use page_digest::PageHash;
use page_model::{Page, Request};
use std::alloc::Allocator;

/// Returns what a slot holds.
pub fn holding_in<H: PageHash, A: Allocator>(
    core: &Core<H, A>,
    tags: &LazyList<u32, A>,
    ppn: u32,
) -> Option<Holding>
    requires fits { Fits (slots_of core.now.pmap tags.now) core.now }
    requires within { ppn < length tags.now }
    ensures { result ≡ holding (slots_of core.now.pmap tags.now) ppn }
{
    match core.frame(0, ppn) {
        None => None,
        Some(frame) => Some(Holding {
            client: tags.get(ppn),
            frame,
        }),
    }
}

/// Lends a page to a core as the page of a free slot, and returns its frame. The slot may be any client's then.
fn put<H: PageHash, A: Allocator>(
    core: &mut Core<H, A>,
    tags: &LazyList<u32, A>,
    ppn: u32,
    page: &Page,
    known: SaltedHash,
) -> u32
    requires fits { Fits (slots_of core.old.pmap tags.now) core.old }
    requires free { slice_get (slots_of core.old.pmap tags.now) ppn ≡ Some None }
    requires room { used core.old.frames < length core.old.frames }
    requires hash { known.hash ≡ H.hash_of known.salt page.now }
    ensures fits { (client : ℕ) → Fits (lent_slots client ppn result (slots_of core.old.pmap tags.now)) core.new }
    ensures within { result < length core.old.frames }
    ensures held { (frame core.old.frames result ≡ None) ⊎ (frame core.old.frames result ≡ Some page.now) }
    ensures frames { core.new.frames ≡ slice_set core.old.frames result (Some page.now) }
    ensures alone { frame core.old.frames result ≡ None → sharers result (slots_of core.old.pmap tags.now) ≡ 0 }
{
    lend_keeps_bytes_law();
    core.restart_count();
    core.frames();
    core.lend(0, ppn, page, Some(known));
    core.frames();
    match core.frame(0, ppn) {
        Some(mpn) => mpn,
        None => unreachable!(),
    }
}

/// Releases the page of a slot that holds this. Whatever the slot's tag is then, the slot is free.
pub fn take<H: PageHash, A: Allocator>(
    core: &mut Core<H, A>,
    tags: &LazyList<u32, A>,
    ppn: u32,
    held: Holding,
)
    requires fits { Fits (slots_of core.old.pmap tags.now) core.old }
    requires held { holding (slots_of core.old.pmap tags.now) ppn ≡ Some held }
    ensures fits { Fits (slice_set (slots_of core.old.pmap tags.now) ppn None) core.new }
    ensures slots { (tag : ℕ) → slots_of core.new.pmap (slice_set tags.now ppn tag) ≡ slice_set (slots_of core.old.pmap tags.now) ppn None }
    ensures frames { core.new.frames ≡ with_free core.old.frames (left_free (slice_set (slots_of core.old.pmap tags.now) ppn None) held.frame) }
{
    request_keeps_bytes_law();
    core.restart_count();
    core.frames();
    core.apply(0, &Request::Release(ppn));
    core.frames();
}

/// Whether all frames of a core are in use.
fn is_used_up<H: PageHash, A: Allocator>(core: &Core<H, A>) -> bool
    ensures up { result ≡ true → used core.now.frames ≡ length core.now.frames }
    ensures room { result ≡ false → used core.now.frames < length core.now.frames }
{
    let frames = core.frames();
    frames.used() >= frames.total()
}

/// Lends a page as the page of a free slot, and returns its frame; `None` if the page would take the last free frame. The slot is
/// the client's whose number the caller then makes its tag.
pub fn hold<H: PageHash, A: Allocator>(
    core: &mut Core<H, A>,
    tags: &LazyList<u32, A>,
    ppn: u32,
    page: &Page,
    known: SaltedHash,
) -> Option<u32>
    requires fits { Fits (slots_of core.old.pmap tags.now) core.old }
    requires free { slice_get (slots_of core.old.pmap tags.now) ppn ≡ Some None }
    requires room { used core.old.frames < length core.old.frames }
    requires hash { known.hash ≡ H.hash_of known.salt page.now }
    ensures slots { (client : ℕ) → slots_of core.new.pmap (tags_after client ppn result tags.now) ≡ slots_after client ppn result (slots_of core.old.pmap tags.now) }
    ensures frames { core.new.frames ≡ frames_after page.now result core.old.frames }
    ensures fits { (client : ℕ) → Fits (slots_after client ppn result (slots_of core.old.pmap tags.now)) core.new }
    ensures spent { IfNone result (IsSpent core.old.frames) }
    ensures within { IfSome result (λ mpn. mpn < length core.old.frames) }
    ensures held { IfSome result (λ mpn. (frame core.old.frames mpn ≡ None) ⊎ (frame core.old.frames mpn ≡ Some page.now)) }
    ensures spare { used core.new.frames < length core.new.frames }
{
    let frame = put(core, tags, ppn, page, known);
    if is_used_up(core) {
        // The page joined no other, and took the spare frame.
        let client = tags.get(ppn);
        take(core, tags, ppn, Holding { client, frame });
        return None;
    }
    Some(frame)
}
