//! What a page holds.
ghost use Rattle.std.specs.Prelude.{◌≡◌, ◌+◌, ◌-◌, ◌<◌, ◌≤◌, length, take, drop, option_map, IfSome};
ghost use Rattle.page_model.specs.Pages.{page_at, blank};
ghost use Rattle.page_model.specs.declared.limits.TheConstants.{MAX_ACCESS_BYTES, PAGE_BYTES};
ghost use Rattle.machine_frames.specs.FrameMap as fm;
ghost use Rattle.merge_core.specs.Hashing.{IsPaged, page_hash};
ghost use Rattle.merge_core.specs.Pmap.{bytes_in, slot_in};
ghost use Rattle.merge_core.specs.View.{slot_of, pmap_in, pmap_of, guests_of, Whole};

use crate::held::{GuestPages, Held, PageEntry};
use arrayvec::ArrayVec;
use machine_frames::Frames;
use page_digest::PageHash;
use page_model::{MAX_ACCESS_BYTES, PAGE_BYTES, Page};
use std::alloc::Allocator;

/// Returns the salt of a page's guest, and the page's entry.
fn find_entry<A: Allocator>(
    guests: &[GuestPages<A>],
    guest: usize,
    ppn: usize,
) -> Option<(u32, PageEntry)>
    ensures within { IfSome result (λ _. guest < length guests.now) }
    ensures entry { option_map (λ x. (x.0, slot_of x.1)) result ≡ page_at (pmap_in guests.now) guest ppn }
{
    if guest >= guests.len() {
        return None;
    }
    let g = &guests[guest];
    if ppn >= g.pages.len() as usize {
        return None;
    }
    Some((g.salt, g.pages.get(ppn)))
}

/// Returns the salt of a page's guest, and the page.
pub fn find<H, A: Allocator>(
    held: &Held<H, A>,
    guest: usize,
    ppn: usize,
) -> Option<(u32, PageEntry)>
    ensures within { IfSome result (λ _. guest < length (pmap_of held.now)) }
    ensures entry { option_map (λ x. (x.0, slot_of x.1)) result ≡ page_at (pmap_of held.now) guest ppn }
    ensures page { option_map (λ x. (x.0, slot_in held.now.frames (slot_of x.1))) result ≡ page_at (guests_of held.now) guest ppn }
{
    find_entry(held.guests.as_slice(), guest, ppn)
}

/// Returns the salt and frame of a page, if it is mapped.
pub fn frame_of<H: PageHash, A: Allocator>(
    held: &Held<H, A>,
    guest: usize,
    ppn: usize,
) -> Option<(u32, u32)>
    requires whole { Whole H.hash_of held.now }
    ensures paged { IfSome result (λ pair. IsPaged (pmap_of held.now) pair.0 pair.1) }
    ensures hash { option_map (λ pair. H.hash_of pair.0 (bytes_in held.now.frames pair.1)) result
        ≡ page_hash H.hash_of (guests_of held.now) guest ppn }
{
    match find(held, guest, ppn) {
        None => None,
        Some((_, PageEntry::Unmapped)) => None,
        Some((salt, PageEntry::Private(mpn, _))) => Some((salt, mpn)),
        Some((salt, PageEntry::Shared(mpn))) => Some((salt, mpn)),
    }
}

/// Returns the bytes of a taken frame.
pub fn bytes_at<A: Allocator>(frames: &Frames<A>, mpn: u32) -> &Page
    requires taken { fm.IsTaken frames.now mpn }
    ensures bytes { result.now ≡ bytes_in frames.now mpn }
{
    frames.bytes(mpn)
}

/// Returns the bytes of a page from one place to another.
pub fn part(page: &Page, start: usize, end: usize) -> ArrayVec<u8, MAX_ACCESS_BYTES>
    requires order { start ≤ end }
    requires within { end ≤ PAGE_BYTES }
    requires few { end ≤ start + MAX_ACCESS_BYTES }
    ensures { result.items ≡ take (end - start) (drop start page.now) }
{
    match ArrayVec::try_from(&page[start..end]) {
        Ok(bytes) => bytes,
        Err(_) => unreachable!(),
    }
}

/// Returns the bytes of an unmapped page from one place to another.
#[tactic(auto, unfolding(page_model::specs::Pages::blank))]
pub fn zeros(start: usize, end: usize) -> ArrayVec<u8, MAX_ACCESS_BYTES>
    requires order { start ≤ end }
    requires within { end ≤ PAGE_BYTES }
    requires few { end ≤ start + MAX_ACCESS_BYTES }
    ensures { result.items ≡ take (end - start) (drop start blank) }
{
    let page: Page = [0; PAGE_BYTES];
    match ArrayVec::try_from(&page[start..end]) {
        Ok(bytes) => bytes,
        Err(_) => unreachable!(),
    }
}
