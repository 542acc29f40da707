//! Guests whose pages are in memory, and hashes and progress for tests.
ghost use Rattle.std.specs.Prelude.{◌<◌, ◌^◌, vec_len};

use crate::checks::{equal, holds};
use memory_pages::{PageSource, Progress};
use page_census::{CensusFault, CensusNumbers, Guest, census};
use page_digest::PageHash;
use page_model::{HashFunction, Page};
use std::alloc::{Allocator, Global};
use std::process::Abort;
use std::sync::atomic::{AtomicU64, Ordering};
use std::thread::Threads;

/// Fewer than 2^32 pages in memory, of which only the first can be read.
#[derive(Drop)]
pub struct Memory {
    pub pages: Vec<Page>,
    pub readable: u32,
    ghost few: { vec_len pages < 2 ^ 32 },
}

/// A page isn't one of those that can be read.
#[derive(Debug, Drop)]
pub struct Unreadable;

impl PageSource for Memory {
    type Fault = Unreadable;

    ghost pages = { λ s. s.pages.items };

    ghost is_steady = { λ _. Unit {0} };

    fn count(&self) -> u32 {
        self.pages.len() as u32
    }

    fn read(&self, first: u32, into: &mut [Page]) -> Result<(), Unreadable> {
        let from = first as usize;
        let end = from + into.len();
        if end > self.readable as usize {
            return Err(Unreadable);
        }
        into.copy_from_slice(&self.pages[from..end]);
        Ok(())
    }
}

/// Hashes every page to 0.
pub struct ZeroHash;

impl HashFunction for ZeroHash {
    ghost hash_of = { λ _ _. 0 };
}

impl PageHash for ZeroHash {
    fn hash(&self, _salt: u32, _page: &Page) -> u64 {
        0
    }
}

/// How many pages were reported as read.
#[derive(Drop)]
pub struct ReadSoFar {
    pub pages: AtomicU64,
}

impl Progress for ReadSoFar {
    fn advance(&self, pages: usize) {
        self.pages.fetch_add(pages as u64, Ordering::SeqCst);
    }
}

/// Makes a page that begins with 0x41 and ends with this byte, or one of zeros.
fn page_of(last: Option<u8>) -> Page {
    let mut page = [0; 4096];
    if let Some(last) = last {
        page[0] = 0x41;
        page[4095] = last;
    }
    page
}

/// Makes a guest with a page for each of these last bytes. Only the first `readable` of them can be read.
pub fn guest_of(
    rt: &impl Abort,
    alloc: Global,
    salt: u32,
    lasts: &[Option<u8>],
    readable: u32,
) -> Guest<Memory> {
    holds(rt, lasts.len() < 1 << 32);
    let mut pages = Vec::with_capacity(alloc, lasts.len()).expect(rt, "memory");
    for last in lasts {
        pages.push_reserved(page_of(*last));
    }
    Guest {
        salt,
        source: Memory { pages, readable },
    }
}

/// Makes a census of these guests, by this many workers. Each page is reported as read once.
pub fn census_of<
    R: Threads + Abort + Sync,
    H: PageHash,
    S: PageSource,
    A: Allocator + Clone + Send + Sync,
>(
    rt: &R,
    alloc: A,
    workers: u32,
    hash: &H,
    guests: &[Guest<S>],
) -> Result<CensusNumbers<A>, CensusFault<S::Fault>> {
    holds(rt, workers >= 1);
    let pages = AtomicU64::new(0);
    let progress = ReadSoFar { pages };
    let found = census(rt, alloc, workers, hash, guests, &progress);
    if let Ok(found) = &found {
        equal(
            rt,
            progress.pages.load(Ordering::SeqCst),
            u64::from(found.total.pages),
        );
    }
    found
}
