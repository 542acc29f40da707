//! Proposals.
ghost use Rattle.std.specs.Prelude.{◌≡◌, ◌<◌, ◌==◌, ◌&&◌, ⊤, Some, None, MatchBool};
ghost use Rattle.page_model.specs.Steps.{proposed, matched, offered, at_page, key_of, kept_hint};
ghost use Rattle.page_model.specs.Pages.{page_at, with_slot};
ghost use Rattle.page_model.specs.Pages as s;
ghost use Rattle.page_model.specs.declared.verdict.Verdict.TheVariants.{Paired};
ghost use Rattle.merge_core.specs.Lending.{has_joined};
ghost use Rattle.merge_core.specs.Kept.{Served};
ghost use Rattle.merge_core.specs.Pmap.{bytes_in, known_at};
ghost use Rattle.merge_core.specs.Stays.{AllKeep};
ghost use Rattle.share_table.specs.TableMaps.{hint_at, shared_at, count_at};
ghost use Rattle.merge_core.specs.View.{pmap_of, guests_of, notes_of, Whole};
ghost use Rattle.machine_frames.specs.FrameMap as fm;
ghost use Rattle.std.specs.Str.{bytes_eq};

use crate::hashing::{has_key, hash_frame, key_of, learn};
use crate::held::{Held, PageEntry, Place};
use crate::look::{bytes_at, find};
use crate::moves::{drop_hint, join, put_hint, share, unmap};
use crate::serve::clear_hint;
use page_digest::PageHash;
use page_model::{Page, Verdict};
use share_table::HintFrame;
use std::alloc::Allocator;

/// Serves a proposal.
#[tactic(auto, unfolding(page_model::specs::Steps::proposed))]
pub fn propose<H: PageHash, A: Allocator>(held: &mut Held<H, A>, guest: usize, ppn: u32) -> Verdict
    requires whole { Whole H.hash_of held.old }
    ensures served { Served H.hash_of guest ppn result held.old held.new }
    ensures step { record { guests = guests_of held.new; verdict = result }
        ≡ at_page (guests_of held.old) guest ppn (λ salt slot. proposed H.hash_of (guests_of held.old) guest ppn salt slot) }
{
    let ppn = ppn as usize;
    let Some((salt, entry)) = find(held, guest, ppn) else {
        return Verdict::NoPage;
    };
    let page = Place { guest, ppn, salt };
    match entry {
        PageEntry::Unmapped => Verdict::Unmapped,
        PageEntry::Shared(_) => Verdict::Already,
        PageEntry::Private(mpn, hint) => { propose_private(held, page, mpn, hint) },
    }
}

/// Serves a proposal of a private page.
pub fn propose_private<H: PageHash, A: Allocator>(
    held: &mut Held<H, A>,
    page: Place,
    mpn: u32,
    hint: Option<u32>,
) -> Verdict
    requires whole { Whole H.hash_of held.old }
    requires page { page_at (pmap_of held.old) page.guest page.ppn ≡ Some (page.salt, s.Private mpn hint) }
    ensures served { Served H.hash_of page.guest page.ppn result held.old held.new }
    ensures step { record { guests = guests_of held.new; verdict = result }
        ≡ proposed H.hash_of (guests_of held.old) page.guest page.ppn page.salt (s.Private (bytes_in held.old.frames mpn) hint) }
    ensures freed { MatchBool (has_joined result) (fm.frame held.new.frames mpn ≡ None) ⊤ }
{
    let code = hash_frame(held, mpn, page.salt);
    let kept = settle_hint(held, page, mpn, hint, key_of(code));
    find_match(held, page, mpn, kept, code)
}

/// Drops the page's own hint unless it is under the key of the present bytes. Returns the hint that it still has.
#[tactic(auto, using(page_model::proofs::Places::unchanged))]
fn settle_hint<H: PageHash, A: Allocator>(
    held: &mut Held<H, A>,
    page: Place,
    mpn: u32,
    hint: Option<u32>,
    key: u32,
) -> Option<u32>
    requires whole { Whole H.hash_of held.old }
    requires page { page_at (pmap_of held.old) page.guest page.ppn ≡ Some (page.salt, s.Private mpn hint) }
    ensures whole { Whole H.hash_of held.new }
    ensures frames { held.new.frames ≡ held.old.frames }
    ensures stay { AllKeep (pmap_of held.old) (pmap_of held.new) }
    ensures kept { result ≡ kept_hint key hint }
    ensures page { page_at (pmap_of held.new) page.guest page.ppn ≡ Some (page.salt, s.Private mpn result) }
    ensures guests { guests_of held.new
        ≡ with_slot (guests_of held.old) page.guest page.ppn (s.Private (bytes_in held.old.frames mpn) result) }
{
    match hint {
        None => None,
        Some(own) => {
            if own == key {
                return Some(own);
            }
            drop_hint(held, page, mpn, own);
            None
        }
    }
}

/// Looks for a shared frame with the page's hash.
fn find_match<H: PageHash, A: Allocator>(
    held: &mut Held<H, A>,
    page: Place,
    mpn: u32,
    kept: Option<u32>,
    code: u64,
) -> Verdict
    requires whole { Whole H.hash_of held.old }
    requires page { page_at (pmap_of held.old) page.guest page.ppn ≡ Some (page.salt, s.Private mpn kept) }
    requires fits { kept_hint (key_of code) kept ≡ kept }
    requires code { code ≡ H.hash_of page.salt (bytes_in held.old.frames mpn) }
    ensures served { Served H.hash_of page.guest page.ppn result held.old held.new }
    ensures step { record { guests = guests_of held.new; verdict = result }
        ≡ matched H.hash_of (guests_of held.old) page.guest page.ppn page.salt (bytes_in held.old.frames mpn) code }
    ensures freed { MatchBool (has_joined result) (fm.frame held.new.frames mpn ≡ None) ⊤ }
{
    match held.table.find_shared(code) {
        None => offer(held, page, mpn, kept, code),
        Some((theirs, _)) => {
            if same_content(held, page.salt, mpn, theirs) {
                return join_match(held, page, mpn, kept, theirs, code);
            }
            Verdict::Ineligible
        }
    }
}

/// Whether a frame has this salt and the bytes of another frame.
fn same_content<H: PageHash, A: Allocator>(
    held: &Held<H, A>,
    salt: u32,
    mpn: u32,
    theirs: u32,
) -> bool
    requires whole { Whole H.hash_of held.now }
    requires mine { fm.IsTaken held.now.frames mpn }
    requires theirs { fm.IsTaken held.now.frames theirs }
    ensures { result
        ≡ ((known_at (notes_of held.now) theirs).salt == salt
        && bytes_eq (bytes_in held.now.frames theirs) (bytes_in held.now.frames mpn)) }
{
    has_content(held, theirs, salt, bytes_at(&held.frames, mpn))
}

/// Whether a frame has this salt and these bytes.
pub fn has_content<H: PageHash, A: Allocator>(
    held: &Held<H, A>,
    mpn: u32,
    salt: u32,
    bytes: &Page,
) -> bool
    requires whole { Whole H.hash_of held.now }
    requires taken { fm.IsTaken held.now.frames mpn }
    ensures { result ≡ ((known_at (notes_of held.now) mpn).salt == salt && bytes_eq (bytes_in held.now.frames mpn) bytes.now) }
{
    held.notes.salt(mpn) == salt && bytes_at(&held.frames, mpn) == bytes
}

/// Moves a private page from its frame to a shared one with the same content.
fn join_match<H: PageHash, A: Allocator>(
    held: &mut Held<H, A>,
    page: Place,
    mpn: u32,
    kept: Option<u32>,
    theirs: u32,
    code: u64,
) -> Verdict
    requires whole { Whole H.hash_of held.old }
    requires page { page_at (pmap_of held.old) page.guest page.ppn ≡ Some (page.salt, s.Private mpn kept) }
    requires found { shared_at held.old.table code ≡ Some (record { mpn = theirs; count = count_at held.old.table code }) }
    requires salt { (known_at (notes_of held.old) theirs).salt ≡ page.salt }
    requires bytes { bytes_in held.old.frames theirs ≡ bytes_in held.old.frames mpn }
    ensures served { Served H.hash_of page.guest page.ppn result held.old held.new }
    ensures step { record { guests = guests_of held.new; verdict = result }
        ≡ matched H.hash_of (guests_of held.old) page.guest page.ppn page.salt (bytes_in held.old.frames mpn) code }
    ensures freed { MatchBool (has_joined result) (fm.frame held.new.frames mpn ≡ None) ⊤ }
{
    clear_hint(held, page, mpn, kept);
    unmap(held, page, mpn);
    Verdict::Joined(join(held, page, theirs, code))
}

/// Makes the page a hint unless there is one under its key. No shared page has the page's hash.
fn offer<H: PageHash, A: Allocator>(
    held: &mut Held<H, A>,
    page: Place,
    mpn: u32,
    kept: Option<u32>,
    code: u64,
) -> Verdict
    requires whole { Whole H.hash_of held.old }
    requires page { page_at (pmap_of held.old) page.guest page.ppn ≡ Some (page.salt, s.Private mpn kept) }
    requires fits { kept_hint (key_of code) kept ≡ kept }
    requires code { code ≡ H.hash_of page.salt (bytes_in held.old.frames mpn) }
    requires absent { shared_at held.old.table code ≡ None }
    ensures served { Served H.hash_of page.guest page.ppn result held.old held.new }
    ensures step { record { guests = guests_of held.new; verdict = result }
        ≡ offered H.hash_of (guests_of held.old) page.guest page.ppn page.salt (bytes_in held.old.frames mpn) (key_of code) }
    ensures freed { MatchBool (has_joined result) (fm.frame held.new.frames mpn ≡ None) ⊤ }
{
    let key = key_of(code);
    match kept {
        Some(_) => Verdict::Kept,
        None => match held.table.find_hint(key) {
            None => {
                put_hint(held, page, mpn, key);
                Verdict::Hinted
            }
            Some(hint) => weigh(held, page, mpn, code, hint),
        },
    }
}

/// Compares the page with the one that holds the hint under its key: contents first, since equal ones need no hash.
fn weigh<H: PageHash, A: Allocator>(
    held: &mut Held<H, A>,
    page: Place,
    mpn: u32,
    code: u64,
    hint: HintFrame,
) -> Verdict
    requires whole { Whole H.hash_of held.old }
    requires page { page_at (pmap_of held.old) page.guest page.ppn ≡ Some (page.salt, s.Private mpn None) }
    requires hint { hint_at held.old.table (key_of code) ≡ Some hint }
    requires code { code ≡ H.hash_of page.salt (bytes_in held.old.frames mpn) }
    requires absent { shared_at held.old.table code ≡ None }
    ensures served { Served H.hash_of page.guest page.ppn result held.old held.new }
    ensures step { record { guests = guests_of held.new; verdict = result }
        ≡ offered H.hash_of (guests_of held.old) page.guest page.ppn page.salt (bytes_in held.old.frames mpn) (key_of code) }
    ensures freed { MatchBool (has_joined result) (fm.frame held.new.frames mpn ≡ None) ⊤ }
{
    let theirs = hint.mpn;
    let salt = held.notes.salt(theirs);
    let other = Place {
        guest: hint.guest as usize,
        ppn: hint.ppn as usize,
        salt,
    };
    if same_content(held, page.salt, mpn, theirs) {
        pair(held, other, theirs, page, mpn, code);
        return Verdict::Paired;
    }
    let key = key_of(code);
    if has_key(held, theirs, salt, key) {
        return Verdict::Ineligible;
    }
    drop_hint(held, other, theirs, key);
    put_hint(held, page, mpn, key);
    Verdict::Replaced
}

/// Moves a private page from its frame to that of the hint page under its key, which has the same content.
fn pair<H: PageHash, A: Allocator>(
    held: &mut Held<H, A>,
    first: Place,
    theirs: u32,
    page: Place,
    mpn: u32,
    code: u64,
)
    requires whole { Whole H.hash_of held.old }
    requires page { page_at (pmap_of held.old) page.guest page.ppn ≡ Some (page.salt, s.Private mpn None) }
    requires first { page_at (pmap_of held.old) first.guest first.ppn ≡ Some (first.salt, s.Private theirs (Some (key_of code))) }
    requires salt { first.salt ≡ page.salt }
    requires bytes { bytes_in held.old.frames theirs ≡ bytes_in held.old.frames mpn }
    requires code { code ≡ H.hash_of page.salt (bytes_in held.old.frames mpn) }
    requires absent { shared_at held.old.table code ≡ None }
    ensures served { Served H.hash_of page.guest page.ppn Paired held.old held.new }
    ensures guests { guests_of held.new
        ≡ with_slot (with_slot (guests_of held.old) first.guest first.ppn (s.Shared (bytes_in held.old.frames theirs)))
        page.guest page.ppn (s.Shared (bytes_in held.old.frames mpn)) }
    ensures freed { fm.frame held.new.frames mpn ≡ None }
{
    drop_hint(held, first, theirs, key_of(code));
    unmap(held, page, mpn);
    learn(held, theirs, page.salt, code);
    share(held, first, theirs, page, code);
}
