//! How each request is served on the pages of all guests.
ghost use Rattle.std.specs.Prelude.{◌≡◌, ◌+◌, ◌<◌, ◌≤◌, ◌-◌, ⊤, true, length, Some, None, MatchBool};
ghost use Rattle.page_model.specs.Steps.{stored, released, loaded, at_page};
ghost use Rattle.page_model.specs.Pages.{page_at, with_slot};
ghost use Rattle.page_model.specs.Pages as s;
ghost use Rattle.page_model.specs.declared.limits.TheConstants.{PAGE_BYTES};
ghost use Rattle.page_model.specs.declared.verdict.Verdict.TheVariants.{Released};
ghost use Rattle.merge_core.specs.Kept.{Served};
ghost use Rattle.merge_core.specs.Pmap.{bytes_in};
ghost use Rattle.merge_core.specs.Stays.{AllKeep};
ghost use Rattle.machine_frames.specs.FrameMap as fm;
ghost use Rattle.merge_core.specs.View.{pmap_of, guests_of, Whole};

use crate::hashing::hash_frame;
use crate::held::{Held, PageEntry, Place};
use crate::look::{bytes_at, find, part, zeros};
use crate::moves::{drop_hint, is_full, keep, leave, map_copy, map_zeroed, peers_of, unmap, write};
use page_digest::PageHash;
use page_model::{LoadReq, StoreReq, Verdict};
use std::alloc::Allocator;

/// Serves a store.
pub fn store<H: PageHash, A: Allocator>(
    held: &mut Held<H, A>,
    guest: usize,
    request: &StoreReq,
) -> Verdict
    requires whole { Whole H.hash_of held.old }
    ensures served { Served H.hash_of guest request.now.ppn result held.old held.new }
    ensures step { record { guests = guests_of held.new; verdict = result }
        ≡ at_page (guests_of held.old) guest request.now.ppn
        (λ salt slot. stored (length held.old.frames) (guests_of held.old) guest request.now.ppn request.now.at
        request.now.bytes salt slot) }
{
    let ppn = request.ppn() as usize;
    store_bytes(held, guest, ppn, request.at(), request.bytes())
}

/// Serves a store of bytes to a place of a page, however many they are.
#[tactic(auto, using(page_model::proofs::Places::again), unfolding(page_model::specs::Steps::stored))]
pub fn store_bytes<H: PageHash, A: Allocator>(
    held: &mut Held<H, A>,
    guest: usize,
    ppn: usize,
    at: u32,
    bytes: &[u8],
) -> Verdict
    requires whole { Whole H.hash_of held.old }
    requires fits { at + length bytes.now ≤ PAGE_BYTES }
    ensures served { Served H.hash_of guest ppn result held.old held.new }
    ensures step { record { guests = guests_of held.new; verdict = result }
        ≡ at_page (guests_of held.old) guest ppn
        (λ salt slot. stored (length held.old.frames) (guests_of held.old) guest ppn at bytes.now salt slot) }
{
    let Some((salt, entry)) = find(held, guest, ppn) else {
        return Verdict::NoPage;
    };
    let page = Place { guest, ppn, salt };
    match entry {
        PageEntry::Unmapped => {
            if is_full(held) {
                return Verdict::NoFrame;
            }
            let mpn = map_zeroed(held, page);
            write(held, page, mpn, None, at, bytes);
            Verdict::Mapped
        }
        PageEntry::Private(mpn, hint) => {
            write(held, page, mpn, hint, at, bytes);
            Verdict::Stored
        }
        PageEntry::Shared(mpn) => store_shared(held, page, mpn, at, bytes),
    }
}

/// Serves a store to a shared page.
#[tactic(auto, using(page_model::proofs::Places::again), unfolding(page_model::specs::Steps::stored))]
fn store_shared<H: PageHash, A: Allocator>(
    held: &mut Held<H, A>,
    page: Place,
    mpn: u32,
    at: u32,
    bytes: &[u8],
) -> Verdict
    requires whole { Whole H.hash_of held.old }
    requires page { page_at (pmap_of held.old) page.guest page.ppn ≡ Some (page.salt, s.Shared mpn) }
    requires fits { at + length bytes.now ≤ PAGE_BYTES }
    ensures served { Served H.hash_of page.guest page.ppn result held.old held.new }
    ensures step { record { guests = guests_of held.new; verdict = result }
        ≡ stored (length held.old.frames) (guests_of held.old) page.guest page.ppn at bytes.now page.salt
        (s.Shared (bytes_in held.old.frames mpn)) }
{
    let code = hash_frame(held, mpn, page.salt);
    let count = peers_of(held, page, mpn, code);
    if count == 1 {
        keep(held, page, mpn, code);
        write(held, page, mpn, None, at, bytes);
        return Verdict::Taken;
    }
    if is_full(held) {
        return Verdict::NoFrame;
    }
    leave(held, page, mpn, code, count);
    let copy = map_copy(held, page, mpn);
    write(held, page, copy, None, at, bytes);
    Verdict::Copied
}

/// Drops a private page's hint, if it has one.
#[tactic(auto, using(page_model::proofs::Places::unchanged))]
pub fn clear_hint<H: PageHash, A: Allocator>(
    held: &mut Held<H, A>,
    page: Place,
    mpn: u32,
    hint: Option<u32>,
)
    requires whole { Whole H.hash_of held.old }
    requires page { page_at (pmap_of held.old) page.guest page.ppn ≡ Some (page.salt, s.Private mpn hint) }
    ensures whole { Whole H.hash_of held.new }
    ensures frames { held.new.frames ≡ held.old.frames }
    ensures stay { AllKeep (pmap_of held.old) (pmap_of held.new) }
    ensures page { page_at (pmap_of held.new) page.guest page.ppn ≡ Some (page.salt, s.Private mpn None) }
    ensures guests { guests_of held.new
        ≡ with_slot (guests_of held.old) page.guest page.ppn (s.Private (bytes_in held.old.frames mpn) None) }
    ensures shared { held.new.table.shared ≡ held.old.table.shared }
    ensures notes { held.new.notes ≡ held.old.notes }
{
    match hint {
        None => {}
        Some(key) => drop_hint(held, page, mpn, key),
    }
}

/// Unmaps a private page, whose frame is free then.
pub fn release_private<H: PageHash, A: Allocator>(
    held: &mut Held<H, A>,
    page: Place,
    mpn: u32,
    hint: Option<u32>,
)
    requires whole { Whole H.hash_of held.old }
    requires page { page_at (pmap_of held.old) page.guest page.ppn ≡ Some (page.salt, s.Private mpn hint) }
    ensures served { Served H.hash_of page.guest page.ppn (Released true) held.old held.new }
    ensures guests { guests_of held.new ≡ with_slot (guests_of held.old) page.guest page.ppn s.Unmapped }
    ensures freed { fm.frame held.new.frames mpn ≡ None }
{
    clear_hint(held, page, mpn, hint);
    unmap(held, page, mpn);
}

/// Serves a release of a shared page. Returns whether its frame is free then.
#[tactic(auto, using(page_model::proofs::Places::again), unfolding(page_model::specs::Steps::released))]
pub fn release_shared<H: PageHash, A: Allocator>(
    held: &mut Held<H, A>,
    page: Place,
    mpn: u32,
) -> bool
    requires whole { Whole H.hash_of held.old }
    requires page { page_at (pmap_of held.old) page.guest page.ppn ≡ Some (page.salt, s.Shared mpn) }
    ensures served { Served H.hash_of page.guest page.ppn (Released result) held.old held.new }
    ensures step { record { guests = guests_of held.new; verdict = Released result }
        ≡ released (guests_of held.old) page.guest page.ppn page.salt (s.Shared (bytes_in held.old.frames mpn)) }
    ensures freed { MatchBool result (fm.frame held.new.frames mpn ≡ None) ⊤ }
{
    let code = hash_frame(held, mpn, page.salt);
    let count = peers_of(held, page, mpn, code);
    if count == 1 {
        keep(held, page, mpn, code);
        unmap(held, page, mpn);
        return true;
    }
    leave(held, page, mpn, code, count);
    false
}

/// Serves a release.
#[tactic(auto, using(page_model::proofs::Places::again), unfolding(page_model::specs::Steps::released))]
pub fn release<H: PageHash, A: Allocator>(held: &mut Held<H, A>, guest: usize, ppn: u32) -> Verdict
    requires whole { Whole H.hash_of held.old }
    ensures served { Served H.hash_of guest ppn result held.old held.new }
    ensures step { record { guests = guests_of held.new; verdict = result }
        ≡ at_page (guests_of held.old) guest ppn (λ salt slot. released (guests_of held.old) guest ppn salt slot) }
{
    let ppn = ppn as usize;
    let Some((salt, entry)) = find(held, guest, ppn) else {
        return Verdict::NoPage;
    };
    let page = Place { guest, ppn, salt };
    match entry {
        PageEntry::Unmapped => Verdict::Unmapped,
        PageEntry::Private(mpn, hint) => {
            release_private(held, page, mpn, hint);
            Verdict::Released(true)
        }
        PageEntry::Shared(mpn) => Verdict::Released(release_shared(held, page, mpn)),
    }
}

/// Serves a load.
pub fn load<H: PageHash, A: Allocator>(
    held: &Held<H, A>,
    guest: usize,
    request: &LoadReq,
) -> Verdict
    requires whole { Whole H.hash_of held.now }
    ensures { record { guests = guests_of held.now; verdict = result }
        ≡ at_page (guests_of held.now) guest request.now.ppn (λ _ slot. loaded (guests_of held.now) request.now.at request.now.len slot) }
{
    let start = request.at() as usize;
    let end = start + request.len() as usize;
    let Some((_, page)) = find(held, guest, request.ppn() as usize) else {
        return Verdict::NoPage;
    };
    match page {
        PageEntry::Unmapped => Verdict::Bytes(zeros(start, end)),
        PageEntry::Private(mpn, _) => Verdict::Bytes(part(bytes_at(&held.frames, mpn), start, end)),
        PageEntry::Shared(mpn) => Verdict::Bytes(part(bytes_at(&held.frames, mpn), start, end)),
    }
}
