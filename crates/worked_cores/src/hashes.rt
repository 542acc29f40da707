//! How often pages are hashed.
ghost use Rattle.std.specs.Prelude.{◌≡◌, [], ◌∷◌, slice_index};

use crate::asks::{Ask, Line, core_of, first_pages, serve, share_three, store_each};
use crate::checks::{equal, equal_at};
use merge_core::Core;
use page_digest::PageHash;
use page_model::{HashFunction, Page};
use std::alloc::Global;
use std::process::Abort;
use std::sync::atomic::{AtomicU32, Ordering};
use worked_answers::Answer;

/// Hashes to the first byte, and counts its calls.
#[derive(Drop)]
pub struct Counted<'a>(pub &'a AtomicU32);

impl HashFunction for Counted<'_> {
    ghost hash_of = { λ _ bytes. slice_index bytes 0 };
}

impl PageHash for Counted<'_> {
    fn hash(&self, _salt: u32, page: &Page) -> u64 {
        self.0.fetch_add(1, Ordering::SeqCst);
        u64::from(page[0])
    }
}

/// Lets three pages of a new machine share a frame, and serves two parts. Returns how often pages were hashed after each.
fn share_and_serve(
    rt: &impl Abort,
    core: &mut Core<Counted<'_>>,
    calls: &AtomicU32,
    first: &[Line],
    second: &[Line],
) -> [u32; 3] {
    share_three(rt, core);
    let shared = calls.load(Ordering::SeqCst);
    serve(rt, core, first);
    let served = calls.load(Ordering::SeqCst);
    serve(rt, core, second);
    [shared, served, calls.load(Ordering::SeqCst)]
}

/// Returns how often pages were hashed when three pages had come to share a frame, and after each of two parts, served in
/// turn.
fn calls_after(rt: &impl Abort, alloc: Global, first: &[Line], second: &[Line]) -> [u32; 3] {
    let calls = AtomicU32::new(0);
    let mut core = core_of(rt, alloc, 3, &[2, 1], Counted(&calls));
    share_and_serve(rt, &mut core, &calls, first, second)
}

/// Each page is hashed once as long as its bytes stay the same. A proposal of an unchanged page, a match, and leaving a shared
/// frame don't hash it again. An equal hint page is never hashed.
#[test]
fn known_hashes(rt: HostRuntime) {
    let unchanged = [
        (0, Ask::Propose(0), Answer::Already),
        (1, Ask::Release(0), Answer::Released(false)),
        (0, Ask::Release(1), Answer::Released(false)),
        (0, Ask::Store(0, b'B'), Answer::Taken),
    ];
    let changed = [
        (0, Ask::Propose(0), Answer::Hinted),
        (0, Ask::Propose(0), Answer::Kept),
        (0, Ask::Store(1, b'B'), Answer::Mapped),
        (0, Ask::Store(0, b'C'), Answer::Stored),
        (0, Ask::Store(0, b'B'), Answer::Stored),
        (0, Ask::Propose(1), Answer::Paired),
    ];
    let counts = calls_after(&rt, rt.alloc(), &unchanged, &changed);
    equal(&rt, counts, [3, 3, 5]);
}

/// How many pages were hashed alone, how many as one of four at once, and how many as one of eight.
#[derive(Drop)]
pub struct Calls {
    alone: AtomicU32,
    by_fours: AtomicU32,
    by_eights: AtomicU32,
}

impl Calls {
    pub fn new() -> Calls {
        Calls {
            alone: AtomicU32::new(0),
            by_fours: AtomicU32::new(0),
            by_eights: AtomicU32::new(0),
        }
    }

    pub fn counts(&self) -> (u32, u32, u32) {
        (
            self.alone.load(Ordering::SeqCst),
            self.by_fours.load(Ordering::SeqCst),
            self.by_eights.load(Ordering::SeqCst),
        )
    }
}

/// The same hash, counting the pages that it hashes alone, four at once and eight at once.
#[derive(Drop)]
pub struct Lanes<'a>(pub &'a Calls);

impl HashFunction for Lanes<'_> {
    ghost hash_of = { λ _ bytes. slice_index bytes 0 };
}

impl PageHash for Lanes<'_> {
    fn hash(&self, _salt: u32, page: &Page) -> u64 {
        self.0.alone.fetch_add(1, Ordering::SeqCst);
        u64::from(page[0])
    }

    fn hash_four(&self, _salts: [u32; 4], a: &Page, b: &Page, c: &Page, d: &Page) -> [u64; 4] {
        self.0.by_fours.fetch_add(4, Ordering::SeqCst);
        first_bytes(a, b, c, d)
    }

    fn hash_eight(&self, _salts: [u32; 8], pages: [&Page; 8]) -> [u64; 8] {
        self.0.by_eights.fetch_add(8, Ordering::SeqCst);
        let [a, b, c, d] = first_bytes(pages[0], pages[1], pages[2], pages[3]);
        let [e, f, g, h] = first_bytes(pages[4], pages[5], pages[6], pages[7]);
        [a, b, c, d, e, f, g, h]
    }
}

fn first_bytes(a: &Page, b: &Page, c: &Page, d: &Page) -> [u64; 4]
    ensures { result ≡ slice_index a.now 0 ∷ slice_index b.now 0 ∷ slice_index c.now 0 ∷ slice_index d.now 0 ∷ [] }
{
    [
        u64::from(a[0]),
        u64::from(b[0]),
        u64::from(c[0]),
        u64::from(d[0]),
    ]
}

/// Returns how many of `count` pages are hashed alone, by fours and by eights when their hashes are noted.
fn noted(rt: &impl Abort, alloc: Global, count: u32) -> (u32, u32, u32) {
    let calls = Calls::new();
    let mut core = core_of(rt, alloc, 17, &[17], Lanes(&calls));
    store_each(rt, &mut core, count);
    core.note_hashes(&first_pages(rt, alloc, count));
    calls.counts()
}

// Pages that are noted ahead are hashed eight at once, the last eight too. Of those left over, four are hashed at once if there
// are as many, and the others alone.
#[test]
fn noted_at_once(rt: HostRuntime) {
    for (pages, alone, by_fours, by_eights) in [
        (3, 3, 0, 0),
        (4, 0, 4, 0),
        (7, 3, 4, 0),
        (8, 0, 0, 8),
        (9, 1, 0, 8),
        (13, 1, 4, 8),
        (17, 1, 0, 16),
    ] {
        let counts = noted(&rt, rt.alloc(), pages);
        equal_at(&rt, pages, counts, (alone, by_fours, by_eights));
    }
}
