//! Hashes that are computed and noted before a proposal asks for them, eight or four pages at once.
ghost use Rattle.std.specs.Prelude.{◌≡◌, ◌≤◌, All, IfSome, length};
ghost use Rattle.page_digest.specs.Many.{frame_hashes};
ghost use Rattle.merge_core.specs.Hashing.{IsPaged};
ghost use Rattle.merge_core.specs.Kept.{OnlyNotes};
ghost use Rattle.merge_core.specs.View.{pmap_of, Whole};

use crate::by_workers::{hash_paged, is_known, note_frames};
use crate::held::{Held, PageEntry};
use crate::look::find;
use arrayvec::ArrayVec;
use page_digest::PageHash;
use std::alloc::Allocator;

/// The most pages that are hashed at once.
pub const LANES: usize = 8;

/// Notes the hashes of those of these pages that are private and whose hashes aren't known.
pub fn note_hashes<H: PageHash, A: Allocator>(held: &mut Held<H, A>, pages: &[(u8, u32)])
    requires whole { Whole H.hash_of held.old }
    ensures kept { OnlyNotes H.hash_of held.old held.new }
{
    let mut waiting: ArrayVec<(u32, u32), LANES> = ArrayVec::new();
    for (guest, ppn) in pages {
        if let Some(pair) = unhashed(held, *guest as usize, *ppn as usize) {
            waiting = with_pair(held, waiting, pair);
        }
    }
    note_waiting(held, waiting.as_slice());
}

/// Adds a page's salt and frame to those that wait to be hashed, and returns them. If eight already wait, they are hashed
/// first.
fn with_pair<H: PageHash, A: Allocator>(
    held: &mut Held<H, A>,
    waiting: ArrayVec<(u32, u32), LANES>,
    pair: (u32, u32),
) -> ArrayVec<(u32, u32), LANES>
    requires whole { Whole H.hash_of held.old }
    requires waiting { All (λ pair. IsPaged (pmap_of held.old) pair.0 pair.1) waiting.items }
    requires pair { IsPaged (pmap_of held.old) pair.0 pair.1 }
    ensures kept { OnlyNotes H.hash_of held.old held.new }
    ensures waiting { All (λ pair. IsPaged (pmap_of held.old) pair.0 pair.1) result.items }
{
    let mut waiting = match waiting.into_inner() {
        Ok(eight) => {
            note_eight(held, &eight);
            ArrayVec::new()
        }
        Err(fewer) => fewer,
    };
    waiting.push(pair);
    waiting
}

/// Returns the salt and frame of a page if it is private and its hash isn't known.
pub fn unhashed<H: PageHash, A: Allocator>(
    held: &Held<H, A>,
    guest: usize,
    ppn: usize,
) -> Option<(u32, u32)>
    requires whole { Whole H.hash_of held.now }
    ensures { IfSome result (λ pair. IsPaged (pmap_of held.now) pair.0 pair.1) }
{
    let (salt, mpn) = private_frame(held, guest, ppn)?;
    if is_known(held, salt, mpn) {
        return None;
    }
    Some((salt, mpn))
}

/// Returns the salt and frame of a page if it is private.
fn private_frame<H: PageHash, A: Allocator>(
    held: &Held<H, A>,
    guest: usize,
    ppn: usize,
) -> Option<(u32, u32)>
    requires whole { Whole H.hash_of held.now }
    ensures { IfSome result (λ pair. IsPaged (pmap_of held.now) pair.0 pair.1) }
{
    match find(held, guest, ppn) {
        None => None,
        Some((_, PageEntry::Unmapped)) => None,
        Some((_, PageEntry::Shared(_))) => None,
        Some((salt, PageEntry::Private(mpn, _))) => Some((salt, mpn)),
    }
}

/// Computes the hashes of these frames and notes them: eight or four at once if there are as many, and the others one by
/// one.
fn note_waiting<H: PageHash, A: Allocator>(held: &mut Held<H, A>, pairs: &[(u32, u32)])
    requires whole { Whole H.hash_of held.old }
    requires paged { All (λ pair. IsPaged (pmap_of held.old) pair.0 pair.1) pairs.now }
    ensures kept { OnlyNotes H.hash_of held.old held.new }
{
    let noted = note_at_once(held, pairs);
    note_each(held, &pairs[noted..]);
}

/// Computes at once the hashes of the first eight of these frames, or of the first four if there are fewer than eight, and
/// notes them. Returns how many. Fewer than four are left as they are.
pub fn note_at_once<H: PageHash, A: Allocator>(held: &mut Held<H, A>, pairs: &[(u32, u32)]) -> usize
    requires whole { Whole H.hash_of held.old }
    requires paged { All (λ pair. IsPaged (pmap_of held.old) pair.0 pair.1) pairs.now }
    ensures kept { OnlyNotes H.hash_of held.old held.new }
    ensures most { result ≤ length pairs.now }
{
    match pairs.len() {
        0..=3 => 0,
        4..=7 => {
            note_four(held, &pairs[..4]);
            4
        }
        _ => {
            note_eight(held, &pairs[..8]);
            8
        }
    }
}

fn note_four<H: PageHash, A: Allocator>(held: &mut Held<H, A>, pairs: &[(u32, u32)])
    requires whole { Whole H.hash_of held.old }
    requires four { length pairs.now ≡ 4 }
    requires paged { All (λ pair. IsPaged (pmap_of held.old) pair.0 pair.1) pairs.now }
    ensures kept { OnlyNotes H.hash_of held.old held.new }
{
    let codes = hash_four(held, pairs);
    note_frames(held, pairs, &codes);
}

fn note_eight<H: PageHash, A: Allocator>(held: &mut Held<H, A>, pairs: &[(u32, u32)])
    requires whole { Whole H.hash_of held.old }
    requires eight { length pairs.now ≡ 8 }
    requires paged { All (λ pair. IsPaged (pmap_of held.old) pair.0 pair.1) pairs.now }
    ensures kept { OnlyNotes H.hash_of held.old held.new }
{
    let codes = hash_eight(held, pairs);
    note_frames(held, pairs, &codes);
}

fn hash_four<H: PageHash, A: Allocator>(held: &Held<H, A>, pairs: &[(u32, u32)]) -> [u64; 4]
    requires whole { Whole H.hash_of held.now }
    requires four { length pairs.now ≡ 4 }
    requires paged { All (λ pair. IsPaged (pmap_of held.now) pair.0 pair.1) pairs.now }
    ensures { result ≡ frame_hashes H.hash_of held.now.frames pairs.now }
{
    held.hash.hash_four(
        [pairs[0].0, pairs[1].0, pairs[2].0, pairs[3].0],
        held.frames.bytes(pairs[0].1),
        held.frames.bytes(pairs[1].1),
        held.frames.bytes(pairs[2].1),
        held.frames.bytes(pairs[3].1),
    )
}

fn hash_eight<H: PageHash, A: Allocator>(held: &Held<H, A>, pairs: &[(u32, u32)]) -> [u64; 8]
    requires whole { Whole H.hash_of held.now }
    requires eight { length pairs.now ≡ 8 }
    requires paged { All (λ pair. IsPaged (pmap_of held.now) pair.0 pair.1) pairs.now }
    ensures { result ≡ frame_hashes H.hash_of held.now.frames pairs.now }
{
    held.hash.hash_eight(
        [
            pairs[0].0, pairs[1].0, pairs[2].0, pairs[3].0, pairs[4].0, pairs[5].0, pairs[6].0,
            pairs[7].0,
        ],
        [
            held.frames.bytes(pairs[0].1),
            held.frames.bytes(pairs[1].1),
            held.frames.bytes(pairs[2].1),
            held.frames.bytes(pairs[3].1),
            held.frames.bytes(pairs[4].1),
            held.frames.bytes(pairs[5].1),
            held.frames.bytes(pairs[6].1),
            held.frames.bytes(pairs[7].1),
        ],
    )
}

/// Computes the hashes of these frames one by one and notes them.
fn note_each<H: PageHash, A: Allocator>(held: &mut Held<H, A>, pairs: &[(u32, u32)])
    requires whole { Whole H.hash_of held.old }
    requires paged { All (λ pair. IsPaged (pmap_of held.old) pair.0 pair.1) pairs.now }
    ensures kept { OnlyNotes H.hash_of held.old held.new }
{
    for (salt, mpn) in pairs {
        hash_paged(held, *salt, *mpn);
    }
}
