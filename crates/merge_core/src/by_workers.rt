//! Hashes that several workers compute and that are then noted.
ghost use Rattle.std.specs.Prelude.{◌≡◌, ◌≤◌, [], All, IfOk, IfSome, length, vec_capacity};
ghost use Rattle.page_digest.specs.Many.{frame_hashes};
ghost use Rattle.merge_core.specs.Hashing.{AreWorkers, IsPaged, page_hash, page_hashes};
ghost use Rattle.merge_core.specs.Kept.{OnlyNotes};
ghost use Rattle.merge_core.specs.Pmap.{bytes_in};
ghost use Rattle.merge_core.specs.View.{pmap_of, guests_of, Whole};

use crate::hashing::{hash_frame, is_noted, learn};
use crate::held::Held;
use crate::look::frame_of;
use page_digest::{HashFault, PageHash, hash_many};
use std::alloc::{AllocError, Allocator};
use std::sync::Wait;
use std::thread::Threads;

/// Notes the hashes of those of these pages that are mapped and whose hashes aren't known. At most `workers` workers
/// compute them, and more than one only if there are at least `least` pages for each.
pub fn note_by_workers<
    R: Threads + Wait + Sync,
    H: PageHash,
    A: Allocator + Sync,
    B: Allocator + Clone + Send,
>(
    held: &mut Held<H, A>,
    rt: &R,
    alloc: B,
    workers: u32,
    least: usize,
    pages: &[(u8, u32)],
) -> Result<(), HashFault>
    requires workers { AreWorkers workers }
    requires least { 1 ≤ least }
    requires whole { Whole H.hash_of held.old }
    ensures kept { OnlyNotes H.hash_of held.old held.new }
{
    let pairs = unknown_frames(held, alloc.clone()?, pages)?;
    let paying = (pairs.len() / least).clamp(1, workers as usize) as u32;
    let hashes = hash_many(rt, alloc, paying, &held.hash, &held.frames, &pairs)?;
    note_frames(held, &pairs, &hashes);
    Ok(())
}

/// Returns the frames of those of these pages whose hashes aren't known, as pairs of a salt and an MPN.
fn unknown_frames<H: PageHash, A: Allocator, B: Allocator>(
    held: &Held<H, A>,
    alloc: B,
    pages: &[(u8, u32)],
) -> Result<Vec<(u32, u32), B>, AllocError>
    requires whole { Whole H.hash_of held.now }
    ensures { IfOk result (λ pairs. All (λ pair. IsPaged (pmap_of held.now) pair.0 pair.1) pairs.items) }
{
    let mut pairs = Vec::with_capacity(alloc, pages.len())?;
    for (guest, ppn) in pages {
        if let Some(pair) = unknown_frame(held, *guest as usize, *ppn as usize) {
            pairs.push(pair)?;
        }
    }
    Ok(pairs)
}

/// Returns the salt and frame of a page, if it is mapped and its hash isn't known.
fn unknown_frame<H: PageHash, A: Allocator>(
    held: &Held<H, A>,
    guest: usize,
    ppn: usize,
) -> Option<(u32, u32)>
    requires whole { Whole H.hash_of held.now }
    ensures { IfSome result (λ pair. IsPaged (pmap_of held.now) pair.0 pair.1) }
{
    let (salt, mpn) = frame_of(held, guest, ppn)?;
    if is_known(held, salt, mpn) {
        return None;
    }
    Some((salt, mpn))
}

/// Whether the hash of a page's frame is known.
pub fn is_known<H: PageHash, A: Allocator>(held: &Held<H, A>, _salt: u32, mpn: u32) -> bool
    requires whole { Whole H.hash_of held.now }
    requires paged { IsPaged (pmap_of held.now) _salt mpn }
{
    is_noted(held, mpn)
}

/// Notes the hashes of these frames.
pub fn note_frames<H: PageHash, A: Allocator>(
    held: &mut Held<H, A>,
    pairs: &[(u32, u32)],
    hashes: &[u64],
)
    requires whole { Whole H.hash_of held.old }
    requires paged { All (λ pair. IsPaged (pmap_of held.old) pair.0 pair.1) pairs.now }
    requires hashes { hashes.now ≡ frame_hashes H.hash_of held.old.frames pairs.now }
    ensures kept { OnlyNotes H.hash_of held.old held.new }
{
    for n in 0..pairs.len() {
        let (salt, mpn) = pairs[n];
        note_frame(held, salt, mpn, hashes[n]);
    }
}

/// Notes the hash of a page's frame.
pub fn note_frame<H: PageHash, A: Allocator>(held: &mut Held<H, A>, salt: u32, mpn: u32, code: u64)
    requires whole { Whole H.hash_of held.old }
    requires paged { IsPaged (pmap_of held.old) salt mpn }
    requires code { code ≡ H.hash_of salt (bytes_in held.old.frames mpn) }
    ensures kept { OnlyNotes H.hash_of held.old held.new }
{
    learn(held, mpn, salt, code);
}

/// Notes a page's hash, if the page is mapped.
pub fn note_page<H: PageHash, A: Allocator>(
    held: &mut Held<H, A>,
    guest: usize,
    ppn: usize,
    code: u64,
)
    requires whole { Whole H.hash_of held.old }
    requires code { IfSome (page_hash H.hash_of (guests_of held.old) guest ppn) (λ h. code ≡ h) }
    ensures kept { OnlyNotes H.hash_of held.old held.new }
{
    if let Some((salt, mpn)) = frame_of(held, guest, ppn) {
        note_frame(held, salt, mpn, code);
    }
}

/// Pushes the hashes of these pages, in order, to an empty list with room for them. Those that aren't known are computed
/// here.
pub fn push_hashes<H: PageHash, A: Allocator, B: Allocator>(
    held: &mut Held<H, A>,
    pages: &[(u8, u32)],
    hashes: &mut Vec<Option<u64>, B>,
)
    requires whole { Whole H.hash_of held.old }
    requires room { (hashes.old.items ≡ []) × (length pages.now ≤ vec_capacity hashes.old) }
    ensures kept { OnlyNotes H.hash_of held.old held.new }
    ensures hashes { hashes.new.items ≡ page_hashes H.hash_of (guests_of held.old) pages.now }
{
    for n in 0..pages.len() {
        let (guest, ppn) = pages[n];
        hashes.push_reserved(hash_page(held, guest as usize, ppn as usize));
    }
}

/// Returns the hash of a page, if it is mapped.
fn hash_page<H: PageHash, A: Allocator>(
    held: &mut Held<H, A>,
    guest: usize,
    ppn: usize,
) -> Option<u64>
    requires whole { Whole H.hash_of held.old }
    ensures kept { OnlyNotes H.hash_of held.old held.new }
    ensures hash { result ≡ page_hash H.hash_of (guests_of held.old) guest ppn }
{
    match frame_of(held, guest, ppn) {
        None => None,
        Some((salt, mpn)) => Some(hash_paged(held, salt, mpn)),
    }
}

/// Returns the hash of a page's frame.
pub fn hash_paged<H: PageHash, A: Allocator>(held: &mut Held<H, A>, salt: u32, mpn: u32) -> u64
    requires whole { Whole H.hash_of held.old }
    requires paged { IsPaged (pmap_of held.old) salt mpn }
    ensures kept { OnlyNotes H.hash_of held.old held.new }
    ensures hash { result ≡ H.hash_of salt (bytes_in held.old.frames mpn) }
{
    hash_frame(held, mpn, salt)
}
