//! Whole pages: how they are lent and taken back.
ghost use Rattle.std.specs.Prelude.{◌≡◌, ◌==◌, if◌then◌else◌, false, length, None, Some, Ok, IfSome};
ghost use Rattle.page_model.specs.Pages.{page_at, with_slot, written};
ghost use Rattle.page_model.specs.Pages as s;
ghost use Rattle.page_model.specs.Steps.{proposed, released, at_page};
ghost use Rattle.page_model.specs.Stored.{text_at};
ghost use Rattle.page_model.specs.declared.verdict.Verdict.TheVariants.{Mapped};
ghost use Rattle.machine_frames.specs.FrameMap as fm;
ghost use Rattle.share_table.specs.TableMaps.{shared_at, count_at};
ghost use Rattle.merge_core.specs.Lending.{has_joined, LendKeeps, LendsPage, release_verdict, room_after, FreesOwn};
ghost use Rattle.merge_core.specs.Kept.{Served};
ghost use Rattle.merge_core.specs.Pmap.{bytes_in, known_at};
ghost use Rattle.merge_core.specs.Stays.{frame_at};
ghost use Rattle.merge_core.specs.View.{pmap_of, guests_of, notes_of, Whole};

use crate::hashing::{hash_frame, learn};
use crate::held::{Held, PageEntry, Place};
use crate::lent::{Lent, Returned, SaltedHash};
use crate::look::{bytes_at, find};
use crate::moves::{is_full, join, keep, leave, map_copy, map_zeroed, peers_of, write};
use crate::offer::{has_content, propose_private};
use crate::serve::{release_private, release_shared};
use page_digest::PageHash;
use page_model::{Page, Verdict};
use std::alloc::Allocator;

/// Lends a page: stores it whole, and proposes it. Returns the verdict of its stores if they were refused. Its hash is computed
/// unless the caller knows it under the guest's salt.
pub fn lend<H: PageHash, A: Allocator>(
    held: &mut Held<H, A>,
    guest: usize,
    ppn: u32,
    bytes: &Page,
    known: Option<SaltedHash>,
) -> Result<Lent, Verdict>
    requires whole { Whole H.hash_of held.old }
    requires known { IfSome known (λ k. k.hash ≡ H.hash_of k.salt bytes.now) }
    ensures whole { Whole H.hash_of held.new }
    ensures lends { LendsPage H.hash_of guest ppn bytes.now result held.old held.new }
{
    let ppn = ppn as usize;
    let Some((salt, entry)) = find(held, guest, ppn) else {
        return Err(Verdict::NoPage);
    };
    let page = Place { guest, ppn, salt };
    let known = under_salt(known, salt);
    match entry {
        PageEntry::Unmapped => lend_unmapped(held, page, bytes, known),
        PageEntry::Private(mpn, hint) => Ok(lend_private(held, page, mpn, hint, bytes, known)),
        PageEntry::Shared(mpn) => lend_shared(held, page, mpn, bytes, known),
    }
}

/// Returns the hash if it was computed under this salt.
fn under_salt(known: Option<SaltedHash>, salt: u32) -> Option<u64>
    ensures { IfSome result (λ code. known ≡ Some (record { salt = salt; hash = code })) }
{
    match known {
        None => None,
        Some(known) => {
            if known.salt == salt {
                return Some(known.hash);
            }
            None
        }
    }
}

/// Lends a page that has no frame.
fn lend_unmapped<H: PageHash, A: Allocator>(
    held: &mut Held<H, A>,
    page: Place,
    bytes: &Page,
    known: Option<u64>,
) -> Result<Lent, Verdict>
    requires whole { Whole H.hash_of held.old }
    requires page { page_at (pmap_of held.old) page.guest page.ppn ≡ Some (page.salt, s.Unmapped) }
    requires known { IfSome known (λ code. code ≡ H.hash_of page.salt bytes.now) }
    ensures whole { Whole H.hash_of held.new }
    ensures lends { LendsPage H.hash_of page.guest page.ppn bytes.now result held.old held.new }
{
    if is_full(held) {
        return Err(Verdict::NoFrame);
    }
    Ok(lend_new(held, page, bytes, known))
}

/// Lends a private page, which keeps its frame until it is proposed.
fn lend_private<H: PageHash, A: Allocator>(
    held: &mut Held<H, A>,
    page: Place,
    mpn: u32,
    hint: Option<u32>,
    bytes: &Page,
    known: Option<u64>,
) -> Lent
    requires whole { Whole H.hash_of held.old }
    requires page { page_at (pmap_of held.old) page.guest page.ppn ≡ Some (page.salt, s.Private mpn hint) }
    requires known { IfSome known (λ code. code ≡ H.hash_of page.salt bytes.now) }
    ensures whole { Whole H.hash_of held.new }
    ensures lends { LendsPage H.hash_of page.guest page.ppn bytes.now (Ok result) held.old held.new }
{
    write_whole(held, page, mpn, hint, bytes, known);
    propose_own(held, page, mpn, hint)
}

/// Lends a shared page.
fn lend_shared<H: PageHash, A: Allocator>(
    held: &mut Held<H, A>,
    page: Place,
    mpn: u32,
    bytes: &Page,
    known: Option<u64>,
) -> Result<Lent, Verdict>
    requires whole { Whole H.hash_of held.old }
    requires page { page_at (pmap_of held.old) page.guest page.ppn ≡ Some (page.salt, s.Shared mpn) }
    requires known { IfSome known (λ code. code ≡ H.hash_of page.salt bytes.now) }
    ensures whole { Whole H.hash_of held.new }
    ensures lends { LendsPage H.hash_of page.guest page.ppn bytes.now result held.old held.new }
{
    let code = hash_frame(held, mpn, page.salt);
    let count = peers_of(held, page, mpn, code);
    if count == 1 {
        keep(held, page, mpn, code);
        write_whole(held, page, mpn, None, bytes, known);
        return Ok(propose_own(held, page, mpn, None));
    }
    if is_full(held) {
        return Err(Verdict::NoFrame);
    }
    leave(held, page, mpn, code, count);
    let copy = map_copy(held, page, mpn);
    write_whole(held, page, copy, None, bytes, known);
    let verdict = propose_private(held, page, copy, None);
    Ok(Lent {
        verdict,
        freed: None,
    })
}

/// Writes a whole page to a private page's frame, and notes its hash if that is known.
fn write_whole<H: PageHash, A: Allocator>(
    held: &mut Held<H, A>,
    page: Place,
    mpn: u32,
    hint: Option<u32>,
    bytes: &Page,
    known: Option<u64>,
)
    requires whole { Whole H.hash_of held.old }
    requires page { page_at (pmap_of held.old) page.guest page.ppn ≡ Some (page.salt, s.Private mpn hint) }
    requires known { IfSome known (λ code. code ≡ H.hash_of page.salt bytes.now) }
    ensures whole { Whole H.hash_of held.new }
    ensures total { length held.new.frames ≡ length held.old.frames }
    ensures pmap { pmap_of held.new ≡ pmap_of held.old }
    ensures bytes { bytes_in held.new.frames mpn ≡ written (bytes_in held.old.frames mpn) 0 bytes.now }
    ensures guests { guests_of held.new
        ≡ with_slot (guests_of held.old) page.guest page.ppn (s.Private (written (bytes_in held.old.frames mpn) 0 bytes.now) hint) }
{
    let _own = held.frames.bytes(mpn); // it has a page's length, so nothing of it is left
    write(held, page, mpn, hint, 0, bytes);
    if let Some(code) = known {
        learn(held, mpn, page.salt, code);
    }
}

/// Proposes a page that was written to its own frame.
fn propose_own<H: PageHash, A: Allocator>(
    held: &mut Held<H, A>,
    page: Place,
    mpn: u32,
    hint: Option<u32>,
) -> Lent
    requires whole { Whole H.hash_of held.old }
    requires page { page_at (pmap_of held.old) page.guest page.ppn ≡ Some (page.salt, s.Private mpn hint) }
    ensures served { Served H.hash_of page.guest page.ppn result.verdict held.old held.new }
    ensures step { record { guests = guests_of held.new; verdict = result.verdict }
        ≡ proposed H.hash_of (guests_of held.old) page.guest page.ppn page.salt (s.Private (bytes_in held.old.frames mpn) hint) }
    ensures freed { result.freed ≡ (if has_joined result.verdict then Some mpn else None) }
    ensures free { IfSome result.freed (λ own. fm.frame held.new.frames own ≡ None) }
{
    let verdict = propose_private(held, page, mpn, hint);
    let freed = if has_joined(&verdict) {
        Some(mpn)
    } else {
        None
    };
    Lent { verdict, freed }
}

/// Whether a proposal with this verdict gave the page the frame of another.
fn has_joined(verdict: &Verdict) -> bool
    ensures { result ≡ has_joined verdict.now }
{
    matches!(verdict, Verdict::Joined(_) | Verdict::Paired)
}

/// Lends a page that has no frame. If it joins others, no frame is written for it.
fn lend_new<H: PageHash, A: Allocator>(
    held: &mut Held<H, A>,
    page: Place,
    bytes: &Page,
    known: Option<u64>,
) -> Lent
    requires whole { Whole H.hash_of held.old }
    requires page { page_at (pmap_of held.old) page.guest page.ppn ≡ Some (page.salt, s.Unmapped) }
    requires room { (fm.used held.old.frames == length held.old.frames) ≡ false }
    requires known { IfSome known (λ code. code ≡ H.hash_of page.salt bytes.now) }
    ensures whole { Whole H.hash_of held.new }
    ensures total { length held.new.frames ≡ length held.old.frames }
    ensures stay { LendKeeps held.old.frames page.guest page.ppn Mapped result.verdict (pmap_of held.old) (pmap_of held.new) }
    ensures step { record { guests = guests_of held.new; verdict = result.verdict }
        ≡ proposed H.hash_of (with_slot (guests_of held.old) page.guest page.ppn (s.Private bytes.now None))
        page.guest page.ppn page.salt (s.Private bytes.now None) }
    ensures freed { result.freed ≡ None }
{
    let code = hash_bytes(held, page.salt, bytes, known);
    if let Some(theirs) = shared_as(held, page.salt, bytes, code) {
        let peers = join(held, page, theirs, code);
        return Lent {
            verdict: Verdict::Joined(peers),
            freed: None,
        };
    }
    let verdict = lend_written(held, page, bytes, code);
    Lent {
        verdict,
        freed: None,
    }
}

/// Returns the hash of a page's bytes, computed unless it is known.
fn hash_bytes<H: PageHash, A: Allocator>(
    held: &Held<H, A>,
    salt: u32,
    bytes: &Page,
    known: Option<u64>,
) -> u64
    requires known { IfSome known (λ code. code ≡ H.hash_of salt bytes.now) }
    ensures { result ≡ H.hash_of salt bytes.now }
{
    match known {
        Some(code) => code,
        None => held.hash.hash(salt, bytes),
    }
}

/// Returns the shared frame with this salt and these bytes, if there is one.
fn shared_as<H: PageHash, A: Allocator>(
    held: &Held<H, A>,
    salt: u32,
    bytes: &Page,
    code: u64,
) -> Option<u32>
    requires whole { Whole H.hash_of held.now }
    ensures found { IfSome result
        (λ mpn. shared_at held.now.table code ≡ Some (record { mpn = mpn; count = count_at held.now.table code })) }
    ensures salt { IfSome result (λ mpn. (known_at (notes_of held.now) mpn).salt ≡ salt) }
    ensures bytes { IfSome result (λ mpn. bytes_in held.now.frames mpn ≡ bytes.now) }
{
    let (theirs, _) = held.table.find_shared(code)?;
    if has_content(held, theirs, salt, bytes) {
        return Some(theirs);
    }
    None
}

/// Writes a page to a new frame, and proposes it. Its hash is known.
fn lend_written<H: PageHash, A: Allocator>(
    held: &mut Held<H, A>,
    page: Place,
    bytes: &Page,
    code: u64,
) -> Verdict
    requires whole { Whole H.hash_of held.old }
    requires page { page_at (pmap_of held.old) page.guest page.ppn ≡ Some (page.salt, s.Unmapped) }
    requires room { (fm.used held.old.frames == length held.old.frames) ≡ false }
    requires code { code ≡ H.hash_of page.salt bytes.now }
    ensures whole { Whole H.hash_of held.new }
    ensures total { length held.new.frames ≡ length held.old.frames }
    ensures stay { LendKeeps held.old.frames page.guest page.ppn Mapped result (pmap_of held.old) (pmap_of held.new) }
    ensures step { record { guests = guests_of held.new; verdict = result }
        ≡ proposed H.hash_of (with_slot (guests_of held.old) page.guest page.ppn (s.Private bytes.now None))
        page.guest page.ppn page.salt (s.Private bytes.now None) }
{
    let mpn = map_zeroed(held, page);
    write(held, page, mpn, None, 0, bytes);
    learn(held, mpn, page.salt, code);
    propose_private(held, page, mpn, None)
}

/// Copies a mapped page's bytes into the caller's room, and releases the page.
#[tactic(auto, unfolding(page_model::specs::Steps::released))]
pub fn take_back<H: PageHash, A: Allocator>(
    held: &mut Held<H, A>,
    guest: usize,
    ppn: u32,
    room: &mut Page,
) -> Returned
    requires whole { Whole H.hash_of held.old }
    ensures served { Served H.hash_of guest ppn (release_verdict result) held.old held.new }
    ensures step { record { guests = guests_of held.new; verdict = release_verdict result }
        ≡ at_page (guests_of held.old) guest ppn (λ salt slot. released (guests_of held.old) guest ppn salt slot) }
    ensures room { Some room.new ≡ room_after result room.old (text_at (guests_of held.old) guest ppn) }
    ensures freed { FreesOwn result (frame_at (pmap_of held.old) guest ppn) held.new.frames }
{
    let ppn = ppn as usize;
    let Some((salt, entry)) = find(held, guest, ppn) else {
        return Returned::NoPage;
    };
    let page = Place { guest, ppn, salt };
    match entry {
        PageEntry::Unmapped => Returned::Unmapped,
        PageEntry::Private(mpn, hint) => {
            *room = *bytes_at(&held.frames, mpn);
            release_private(held, page, mpn, hint);
            Returned::Released(Some(mpn))
        }
        PageEntry::Shared(mpn) => {
            *room = *bytes_at(&held.frames, mpn);
            let is_last = release_shared(held, page, mpn);
            Returned::Released(if is_last { Some(mpn) } else { None })
        }
    }
}
