//! The single changes to a page.
ghost use Rattle.std.specs.Prelude.{◌≡◌, ◌+◌, ◌^◌, ◌<◌, ◌≤◌, ◌==◌, length, false, None, Some, slice_set, IsSome};
ghost use Rattle.page_model.specs.Pages.{blank, written, with_slot, page_at, used, peers};
ghost use Rattle.page_model.specs.Pages as s;
ghost use Rattle.page_model.specs.declared.limits.TheConstants.{PAGE_BYTES};
ghost use Rattle.merge_core.specs.PackedPages.{mpn_in};
ghost use Rattle.merge_core.specs.Pmap.{bytes_in, known_at};
ghost use Rattle.merge_core.specs.View.{slot_of, pmap_in, pmap_of, guests_of, notes_of, Whole};
ghost use Rattle.machine_frames.specs.FrameMap as fm;
ghost use Rattle.share_table.specs.TableMaps.{shared_at, hint_at, count_at, without_hint};

use crate::held::{GuestPages, Held, PageEntry, Place};
use machine_frames::Frames;
use page_digest::PageHash;
use std::alloc::Allocator;

/// Whether no frame is free.
pub fn is_full<H: PageHash, A: Allocator>(held: &Held<H, A>) -> bool
    requires { Whole H.hash_of held.now }
    ensures full { result ≡ (used (guests_of held.now) == length held.now.frames) }
    ensures room { result ≡ (fm.used held.now.frames == length held.now.frames) }
{
    held.frames.used() == held.frames.total()
}

/// Takes a free frame.
#[tactic(auto, unfolding(page_model::specs::Pages::blank))]
fn new_frame<A: Allocator>(frames: &mut Frames<A>) -> u32
    requires room { (fm.used frames.old == length frames.old) ≡ false }
    ensures within { result < length frames.old }
    ensures free { fm.frame frames.old result ≡ None }
    ensures taken { frames.new ≡ slice_set frames.old result (Some blank) }
{
    match frames.take_zeroed() {
        Some(mpn) => mpn,
        None => unreachable!(),
    }
}

/// Maps a page to a frame of zeros.
pub fn map_zeroed<H: PageHash, A: Allocator>(held: &mut Held<H, A>, page: Place) -> u32
    requires whole { Whole H.hash_of held.old }
    requires page { page_at (pmap_of held.old) page.guest page.ppn ≡ Some (page.salt, s.Unmapped) }
    requires room { (fm.used held.old.frames == length held.old.frames) ≡ false }
    ensures whole { Whole H.hash_of held.new }
    ensures total { length held.new.frames ≡ length held.old.frames }
    ensures free { fm.frame held.old.frames result ≡ None }
    ensures pmap { pmap_of held.new ≡ with_slot (pmap_of held.old) page.guest page.ppn (s.Private result None) }
    ensures bytes { bytes_in held.new.frames result ≡ blank }
    ensures page { page_at (pmap_of held.new) page.guest page.ppn ≡ Some (page.salt, s.Private result None) }
    ensures guests { guests_of held.new ≡ with_slot (guests_of held.old) page.guest page.ppn (s.Private blank None) }
{
    let mpn = new_frame(&mut held.frames);
    held.notes.forget(mpn, page.salt);
    set_page(&mut held.guests, page, PageEntry::Private(mpn, None));
    mpn
}

/// Changes one page's entry.
fn set_page<A: Allocator>(guests: &mut Vec<GuestPages<A>, A>, page: Place, entry: PageEntry)
    requires there { IsSome (page_at (pmap_in guests.old.items) page.guest page.ppn) }
    requires fits { mpn_in entry < 2 ^ 30 }
    ensures pmap { pmap_in guests.new.items ≡ with_slot (pmap_in guests.old.items) page.guest page.ppn (slot_of entry) }
{
    let g = &mut guests[page.guest];
    g.pages.set(page.ppn, entry);
}

/// Writes bytes to a private page.
pub fn write<H: PageHash, A: Allocator>(
    held: &mut Held<H, A>,
    page: Place,
    mpn: u32,
    hint: Option<u32>,
    at: u32,
    bytes: &[u8],
)
    requires whole { Whole H.hash_of held.old }
    requires page { page_at (pmap_of held.old) page.guest page.ppn ≡ Some (page.salt, s.Private mpn hint) }
    requires fits { at + length bytes.now ≤ PAGE_BYTES }
    ensures whole { Whole H.hash_of held.new }
    ensures total { length held.new.frames ≡ length held.old.frames }
    ensures pmap { pmap_of held.new ≡ pmap_of held.old }
    ensures bytes { bytes_in held.new.frames mpn ≡ written (bytes_in held.old.frames mpn) at bytes.now }
    ensures guests { guests_of held.new
        ≡ with_slot (guests_of held.old) page.guest page.ppn (s.Private (written (bytes_in held.old.frames mpn) at bytes.now) hint) }
{
    held.frames.write(mpn, at, bytes);
    held.notes.forget(mpn, page.salt);
}

/// Takes a free frame with the bytes of another.
fn new_copy<A: Allocator>(frames: &mut Frames<A>, from: u32) -> u32
    requires from { fm.IsTaken frames.old from }
    requires room { (fm.used frames.old == length frames.old) ≡ false }
    ensures within { result < length frames.old }
    ensures free { fm.frame frames.old result ≡ None }
    ensures taken { frames.new ≡ slice_set frames.old result (fm.frame frames.old from) }
{
    match frames.take_copy(from) {
        Some(mpn) => mpn,
        None => unreachable!(),
    }
}

/// Maps a page to a copy of a frame.
pub fn map_copy<H: PageHash, A: Allocator>(held: &mut Held<H, A>, page: Place, from: u32) -> u32
    requires whole { Whole H.hash_of held.old }
    requires page { page_at (pmap_of held.old) page.guest page.ppn ≡ Some (page.salt, s.Unmapped) }
    requires from { fm.IsTaken held.old.frames from }
    requires room { (fm.used held.old.frames == length held.old.frames) ≡ false }
    ensures whole { Whole H.hash_of held.new }
    ensures total { length held.new.frames ≡ length held.old.frames }
    ensures free { fm.frame held.old.frames result ≡ None }
    ensures pmap { pmap_of held.new ≡ with_slot (pmap_of held.old) page.guest page.ppn (s.Private result None) }
    ensures bytes { bytes_in held.new.frames result ≡ bytes_in held.old.frames from }
    ensures page { page_at (pmap_of held.new) page.guest page.ppn ≡ Some (page.salt, s.Private result None) }
    ensures guests { guests_of held.new
        ≡ with_slot (guests_of held.old) page.guest page.ppn (s.Private (bytes_in held.old.frames from) None) }
{
    let mpn = new_copy(&mut held.frames, from);
    held.notes.forget(mpn, page.salt);
    set_page(&mut held.guests, page, PageEntry::Private(mpn, None));
    mpn
}

/// Unmaps a private page that has no hint.
pub fn unmap<H: PageHash, A: Allocator>(held: &mut Held<H, A>, page: Place, mpn: u32)
    requires whole { Whole H.hash_of held.old }
    requires page { page_at (pmap_of held.old) page.guest page.ppn ≡ Some (page.salt, s.Private mpn None) }
    ensures whole { Whole H.hash_of held.new }
    ensures total { length held.new.frames ≡ length held.old.frames }
    ensures frames { held.new.frames ≡ slice_set held.old.frames mpn None }
    ensures table { held.new.table ≡ held.old.table }
    ensures notes { held.new.notes ≡ held.old.notes }
    ensures pmap { pmap_of held.new ≡ with_slot (pmap_of held.old) page.guest page.ppn s.Unmapped }
    ensures page { page_at (pmap_of held.new) page.guest page.ppn ≡ Some (page.salt, s.Unmapped) }
    ensures guests { guests_of held.new ≡ with_slot (guests_of held.old) page.guest page.ppn s.Unmapped }
{
    held.frames.give_back(mpn);
    set_page(&mut held.guests, page, PageEntry::Unmapped);
}

/// Drops a private page's hint.
pub fn drop_hint<H: PageHash, A: Allocator>(held: &mut Held<H, A>, page: Place, mpn: u32, key: u32)
    requires whole { Whole H.hash_of held.old }
    requires page { page_at (pmap_of held.old) page.guest page.ppn ≡ Some (page.salt, s.Private mpn (Some key)) }
    ensures whole { Whole H.hash_of held.new }
    ensures frames { held.new.frames ≡ held.old.frames }
    ensures table { held.new.table ≡ without_hint held.old.table key }
    ensures notes { held.new.notes ≡ held.old.notes }
    ensures pmap { pmap_of held.new ≡ with_slot (pmap_of held.old) page.guest page.ppn (s.Private mpn None) }
    ensures page { page_at (pmap_of held.new) page.guest page.ppn ≡ Some (page.salt, s.Private mpn None) }
    ensures guests { guests_of held.new
        ≡ with_slot (guests_of held.old) page.guest page.ppn (s.Private (bytes_in held.old.frames mpn) None) }
{
    held.table.drop_hint(key);
    held.hints -= 1;
    set_page(&mut held.guests, page, PageEntry::Private(mpn, None));
}

/// Returns how many pages share a page's frame.
pub fn peers_of<H: PageHash, A: Allocator>(
    held: &Held<H, A>,
    page: Place,
    mpn: u32,
    code: u64,
) -> u32
    requires whole { Whole H.hash_of held.now }
    requires page { page_at (pmap_of held.now) page.guest page.ppn ≡ Some (page.salt, s.Shared mpn) }
    requires code { code ≡ H.hash_of page.salt (bytes_in held.now.frames mpn) }
    ensures found { shared_at held.now.table code ≡ Some (record { mpn = mpn; count = result }) }
    ensures peers { result ≡ peers page.salt (bytes_in held.now.frames mpn) (guests_of held.now) }
    ensures some { 1 ≤ result }
{
    held.table.count(code)
}

/// Makes the last page of a shared frame private: it keeps the frame.
pub fn keep<H: PageHash, A: Allocator>(held: &mut Held<H, A>, page: Place, mpn: u32, code: u64)
    requires whole { Whole H.hash_of held.old }
    requires page { page_at (pmap_of held.old) page.guest page.ppn ≡ Some (page.salt, s.Shared mpn) }
    requires found { shared_at held.old.table code ≡ Some (record { mpn = mpn; count = 1 }) }
    ensures whole { Whole H.hash_of held.new }
    ensures frames { held.new.frames ≡ held.old.frames }
    ensures pmap { pmap_of held.new ≡ with_slot (pmap_of held.old) page.guest page.ppn (s.Private mpn None) }
    ensures page { page_at (pmap_of held.new) page.guest page.ppn ≡ Some (page.salt, s.Private mpn None) }
    ensures guests { guests_of held.new
        ≡ with_slot (guests_of held.old) page.guest page.ppn (s.Private (bytes_in held.old.frames mpn) None) }
{
    held.table.leave(code);
    set_page(&mut held.guests, page, PageEntry::Private(mpn, None));
}

/// Unmaps a page from a shared frame that others keep.
pub fn leave<H: PageHash, A: Allocator>(
    held: &mut Held<H, A>,
    page: Place,
    mpn: u32,
    code: u64,
    count: u32,
)
    requires whole { Whole H.hash_of held.old }
    requires page { page_at (pmap_of held.old) page.guest page.ppn ≡ Some (page.salt, s.Shared mpn) }
    requires found { shared_at held.old.table code ≡ Some (record { mpn = mpn; count = count }) }
    requires several { 2 ≤ count }
    ensures whole { Whole H.hash_of held.new }
    ensures frames { held.new.frames ≡ held.old.frames }
    ensures pmap { pmap_of held.new ≡ with_slot (pmap_of held.old) page.guest page.ppn s.Unmapped }
    ensures page { page_at (pmap_of held.new) page.guest page.ppn ≡ Some (page.salt, s.Unmapped) }
    ensures guests { guests_of held.new ≡ with_slot (guests_of held.old) page.guest page.ppn s.Unmapped }
{
    held.table.leave(code);
    set_page(&mut held.guests, page, PageEntry::Unmapped);
}

/// Puts a hint on a private page that has none.
pub fn put_hint<H: PageHash, A: Allocator>(held: &mut Held<H, A>, page: Place, mpn: u32, key: u32)
    requires whole { Whole H.hash_of held.old }
    requires page { page_at (pmap_of held.old) page.guest page.ppn ≡ Some (page.salt, s.Private mpn None) }
    requires absent { hint_at held.old.table key ≡ None }
    ensures whole { Whole H.hash_of held.new }
    ensures frames { held.new.frames ≡ held.old.frames }
    ensures pmap { pmap_of held.new ≡ with_slot (pmap_of held.old) page.guest page.ppn (s.Private mpn (Some key)) }
    ensures page { page_at (pmap_of held.new) page.guest page.ppn ≡ Some (page.salt, s.Private mpn (Some key)) }
    ensures guests { guests_of held.new
        ≡ with_slot (guests_of held.old) page.guest page.ppn (s.Private (bytes_in held.old.frames mpn) (Some key)) }
{
    held.table
        .put_hint(key, page.guest as u8, page.ppn as u32, mpn);
    held.hints += 1;
    set_page(&mut held.guests, page, PageEntry::Private(mpn, Some(key)));
}

/// Maps a page without a frame to the shared frame under a hash. Returns how many pages then share it.
pub fn join<H: PageHash, A: Allocator>(
    held: &mut Held<H, A>,
    page: Place,
    mpn: u32,
    code: u64,
) -> u32
    requires whole { Whole H.hash_of held.old }
    requires page { page_at (pmap_of held.old) page.guest page.ppn ≡ Some (page.salt, s.Unmapped) }
    requires found { shared_at held.old.table code ≡ Some (record { mpn = mpn; count = count_at held.old.table code }) }
    requires salt { (known_at (notes_of held.old) mpn).salt ≡ page.salt }
    ensures whole { Whole H.hash_of held.new }
    ensures frames { held.new.frames ≡ held.old.frames }
    ensures pmap { pmap_of held.new ≡ with_slot (pmap_of held.old) page.guest page.ppn (s.Shared mpn) }
    ensures count { result ≡ peers page.salt (bytes_in held.old.frames mpn) (guests_of held.new) }
    ensures guests { guests_of held.new ≡ with_slot (guests_of held.old) page.guest page.ppn (s.Shared (bytes_in held.old.frames mpn)) }
{
    let count = held.table.join(code);
    set_page(&mut held.guests, page, PageEntry::Shared(mpn));
    count
}

/// Makes a private page and a page without a frame the first two pages of a shared frame, the private page's.
pub fn share<H: PageHash, A: Allocator>(
    held: &mut Held<H, A>,
    first: Place,
    mpn: u32,
    second: Place,
    code: u64,
)
    requires whole { Whole H.hash_of held.old }
    requires first { page_at (pmap_of held.old) first.guest first.ppn ≡ Some (first.salt, s.Private mpn None) }
    requires second { page_at (pmap_of held.old) second.guest second.ppn ≡ Some (first.salt, s.Unmapped) }
    requires absent { shared_at held.old.table code ≡ None }
    requires code { H.hash_of first.salt (bytes_in held.old.frames mpn) ≡ code }
    ensures whole { Whole H.hash_of held.new }
    ensures frames { held.new.frames ≡ held.old.frames }
    ensures pmap { pmap_of held.new
        ≡ with_slot (with_slot (pmap_of held.old) first.guest first.ppn (s.Shared mpn)) second.guest second.ppn (s.Shared mpn) }
    ensures guests { guests_of held.new
        ≡ with_slot (with_slot (guests_of held.old) first.guest first.ppn (s.Shared (bytes_in held.old.frames mpn)))
        second.guest second.ppn (s.Shared (bytes_in held.old.frames mpn)) }
{
    held.table.add_shared(code, mpn);
    set_page(&mut held.guests, first, PageEntry::Shared(mpn));
    set_page(&mut held.guests, second, PageEntry::Shared(mpn));
}
