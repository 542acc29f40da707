//! The hash of a proposed page, computed together with those of pages that the next requests propose: eight or four
//! pages at once.
ghost use Rattle.std.specs.Prelude.{◌≡◌, ◌<◌, All, IfSome};
ghost use Rattle.merge_core.specs.Hashing.{IsPaged};
ghost use Rattle.merge_core.specs.Kept.{OnlyNotes};
ghost use Rattle.merge_core.specs.Pmap.{bytes_in};
ghost use Rattle.merge_core.specs.View.{pmap_of, Whole};
ghost use Rattle.page_forecasts.specs.declared.forecasts.TheConstants.{FORECASTS};

use crate::ahead::{LANES, note_at_once, unhashed};
use crate::by_workers::note_frame;
use crate::held::Held;
use crate::look::{bytes_at, find, frame_of};
use arrayvec::ArrayVec;
use page_digest::PageHash;
use page_forecasts::{FORECASTS, Forecasts, REACH, Upcoming, is_proposed, upcoming};
use page_model::{Entry, Page};
use std::alloc::Allocator;

/// The fewest foreseen pages for which hashing by eights pays: five beside the proposed one would else take two fours.
const WORTH_EIGHT_LANES: usize = 5;

/// A private page that is proposed, and its frame.
#[derive(Clone, Copy)]
struct Proposal {
    guest: u8,
    ppn: u32,
    salt: u32,
    mpn: u32,
}

/// Notes the hash of a proposed private page if it isn't known: the one that was foreseen, or one computed together with
/// those of other pages that the next requests propose. If they propose none that needs a hash, it notes nothing.
pub fn foresee<H: PageHash, A: Allocator>(
    held: &mut Held<H, A>,
    forecasts: &mut Forecasts<H>,
    guest: u8,
    ppn: u32,
    next: &[Entry],
)
    requires whole { Whole H.hash_of held.old }
    ensures kept { OnlyNotes H.hash_of held.old held.new }
{
    let Some((salt, mpn)) = unhashed(held, guest as usize, ppn as usize) else {
        return;
    };
    if let Some(code) = hash_foreseen(held, forecasts, salt, mpn) {
        note_frame(held, salt, mpn, code);
        return;
    }
    let first = Proposal {
        guest,
        ppn,
        salt,
        mpn,
    };
    hash_together(held, forecasts, first, &next[..next.len().min(REACH)]);
}

/// Computes and notes the hash of a proposed page together with those of pages that these requests propose: of seven or
/// three whose bytes they leave as they are, if there are as many, or else of pages as these requests will leave them.
fn hash_together<H: PageHash, A: Allocator>(
    held: &mut Held<H, A>,
    forecasts: &mut Forecasts<H>,
    first: Proposal,
    next: &[Entry],
)
    requires whole { Whole H.hash_of held.old }
    requires paged { IsPaged (pmap_of held.old) first.salt first.mpn }
    ensures kept { OnlyNotes H.hash_of held.old held.new }
{
    let pairs = at_rest(held, first, next);
    if note_at_once(held, pairs.as_slice()) > 0 {
        return;
    }
    let count = gather(held, forecasts, first, next);
    if count > 0 {
        let code = hash_beside(held, forecasts, first, count);
        note_frame(held, first.salt, first.mpn, code);
    }
}

/// Returns the hash of a page's frame, if what it holds was foreseen.
fn hash_foreseen<H: PageHash, A: Allocator>(
    held: &Held<H, A>,
    forecasts: &Forecasts<H>,
    salt: u32,
    mpn: u32,
) -> Option<u64>
    requires whole { Whole H.hash_of held.now }
    requires paged { IsPaged (pmap_of held.now) salt mpn }
    ensures { IfSome result (λ code. code ≡ H.hash_of salt (bytes_in held.now.frames mpn)) }
{
    forecasts.hash_of(salt, paged_bytes(held, salt, mpn))
}

/// Returns the hash of a proposed page, computed together with those of the foreseen pages: of all of them if they are
/// worth eight lanes, and otherwise of the first three.
fn hash_beside<H: PageHash, A: Allocator>(
    held: &Held<H, A>,
    forecasts: &mut Forecasts<H>,
    first: Proposal,
    count: usize,
) -> u64
    requires whole { Whole H.hash_of held.now }
    requires paged { IsPaged (pmap_of held.now) first.salt first.mpn }
    ensures { result ≡ H.hash_of first.salt (bytes_in held.now.frames first.mpn) }
{
    let bytes = paged_bytes(held, first.salt, first.mpn);
    if count < WORTH_EIGHT_LANES {
        forecasts.hash_beside_three(&held.hash, first.salt, bytes)
    } else {
        forecasts.hash_beside_seven(&held.hash, first.salt, bytes)
    }
}

/// Returns the salts and frames of a proposed page and of others that these requests propose, at most eight in all. Each of
/// the others needs a hash, and when it is proposed it will still hold what it holds now. None is looked for past the
/// seventh that won't.
fn at_rest<H: PageHash, A: Allocator>(
    held: &Held<H, A>,
    first: Proposal,
    next: &[Entry],
) -> ArrayVec<(u32, u32), LANES>
    requires whole { Whole H.hash_of held.now }
    requires paged { IsPaged (pmap_of held.now) first.salt first.mpn }
    ensures { All (λ pair. IsPaged (pmap_of held.now) pair.0 pair.1) result.items }
{
    let mut pairs = ArrayVec::new();
    pairs.push((first.salt, first.mpn));
    let mut changing = 0usize;
    for i in 0..next.len() {
        if pairs.is_full() || changing >= FORECASTS {
            return pairs;
        }
        match upcoming_anew(first, &next[..i], &next[i]) {
            None => {}
            Some(Upcoming::Changing(_)) => changing += 1,
            Some(Upcoming::AtRest(ppn)) => {
                if let Some(pair) = unhashed(held, next[i].guest as usize, ppn as usize) {
                    pairs.push(pair);
                }
            }
        }
    }
    pairs
}

/// Foresees pages that these requests propose, at most as many as are hashed with this one. Returns how many.
fn gather<H: PageHash, A: Allocator>(
    held: &Held<H, A>,
    forecasts: &mut Forecasts<H>,
    first: Proposal,
    next: &[Entry],
) -> usize
    requires whole { Whole H.hash_of held.now }
{
    let mut count = 0usize;
    for i in 0..next.len() {
        if count >= FORECASTS {
            return count;
        }
        if let Some(page) = upcoming_anew(first, &next[..i], &next[i]) {
            if foresee_page(held, forecasts, count, &next[..i], next[i].guest, page) {
                count += 1;
            }
        }
    }
    count
}

/// Foresees a page, at this place, from what it holds and what these requests do to it. Returns whether its proposal will
/// need a hash.
fn foresee_page<H: PageHash, A: Allocator>(
    held: &Held<H, A>,
    forecasts: &mut Forecasts<H>,
    place: usize,
    before: &[Entry],
    guest: u8,
    page: Upcoming,
) -> bool
    requires whole { Whole H.hash_of held.now }
    requires place { place < FORECASTS }
{
    let ppn = number_of(page);
    if let Upcoming::AtRest(_) = page {
        if unhashed(held, guest as usize, ppn as usize).is_none() {
            return false;
        }
    }
    let Some((salt, _)) = find(held, guest as usize, ppn as usize) else {
        return false;
    };
    match frame_of(held, guest as usize, ppn as usize) {
        None => forecasts.foresee(place, salt, None, before, guest, ppn),
        Some((salt, mpn)) => {
            let bytes = paged_bytes(held, salt, mpn);
            forecasts.foresee(place, salt, Some(bytes), before, guest, ppn)
        }
    }
}

/// Returns the bytes of a page's frame.
fn paged_bytes<H: PageHash, A: Allocator>(held: &Held<H, A>, _salt: u32, mpn: u32) -> &Page
    requires whole { Whole H.hash_of held.now }
    requires paged { IsPaged (pmap_of held.now) _salt mpn }
    ensures { result.now ≡ bytes_in held.now.frames mpn }
{
    bytes_at(&held.frames, mpn)
}

/// Returns the page that a request proposes after others, if it isn't the first page and they don't propose it.
fn upcoming_anew(first: Proposal, before: &[Entry], entry: &Entry) -> Option<Upcoming> {
    let page = upcoming(before, entry)?;
    let ppn = number_of(page);
    if first.guest == entry.guest && first.ppn == ppn {
        return None;
    }
    if is_proposed(before, entry.guest, ppn) {
        return None;
    }
    Some(page)
}

/// Returns the number of a page that is proposed.
fn number_of(page: Upcoming) -> u32 {
    match page {
        Upcoming::AtRest(ppn) => ppn,
        Upcoming::Changing(ppn) => ppn,
    }
}
