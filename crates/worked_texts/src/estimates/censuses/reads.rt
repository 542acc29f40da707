//! How often pages are read, and which guest is named when a read fails, be it the first of a page or a later one.
use crate::checks::{equal, equal_at};
use crate::estimates::censuses::pages::{ZeroHash, census_of, guest_of};
use crate::estimates::censuses::watched::{Watch, Watched};
use page_census::{CensusFault, Guest};
use page_digest::{FoldHash, PageHash};
use std::alloc::{AllocError, Global};
use std::process::Abort;
use std::sync::atomic::{AtomicU64, Ordering};
use std::thread::Threads;

// Every page is read once for its mark. For its class to be confirmed, page a of guest 1 is read once more, with that of
// guest 0, and page b of guest 2 with that of guest 1. Pages of zeros are only read for their marks.
const READ: [u64; 3] = [3, 5, 2];

// If all pages but those of zeros have one mark, page b of guest 1 is taken for page a of guest 0, which isn't confirmed.
// Then classes are found anew, by comparing pages.
const READ_WITHOUT_HASH: [u64; 3] = [6, 8, 2];

/// Lets `most` pages be read, and counts how many were asked for.
#[derive(Drop)]
struct Allowance {
    most: u64,
    asked: AtomicU64,
}

impl Watch for Allowance {
    fn allows(&self, pages: usize) -> bool {
        let before = self.asked.fetch_add(pages as u64, Ordering::SeqCst);
        before.saturating_add(pages as u64) <= self.most
    }
}

fn allowed(
    rt: &impl Abort,
    alloc: Global,
    lasts: &[Option<u8>],
    most: u64,
) -> Guest<Watched<Allowance>> {
    let guest = guest_of(rt, alloc, 7, lasts, u32::MAX);
    let asked = AtomicU64::new(0);
    let watch = Allowance { most, asked };
    let memory = guest.source;
    Guest {
        salt: guest.salt,
        source: Watched { memory, watch },
    }
}

/// How many pages were asked for of each guest, and the guest whose pages couldn't be read.
#[derive(Clone, Copy, Debug, PartialEq, Eq)]
struct Reads {
    asked: [u64; 3],
    failed: Option<usize>,
}

/// Makes a census of three guests with one salt. Of each guest, only so many pages can be read.
fn read_up_to<R: Threads + Abort + Sync, H: PageHash>(
    rt: &R,
    alloc: Global,
    hash: &H,
    most: [u64; 3],
) -> Result<Reads, AllocError> {
    let (a, b) = (Some(1), Some(2));
    let mut guests = Vec::with_capacity(alloc, 3)?;
    guests.push_reserved(allowed(rt, alloc, &[a, None], most[0]));
    guests.push_reserved(allowed(rt, alloc, &[a, b, None], most[1]));
    guests.push_reserved(allowed(rt, alloc, &[b], most[2]));
    let failed = match census_of(rt, alloc, 2, hash, &guests) {
        Ok(_) => None,
        Err(CensusFault::Read(guest, _)) => Some(guest),
        Err(_) => panic!(rt; "another fault"),
    };
    let mut asked = [0; 3];
    for guest in 0..3usize {
        asked[guest] = guests[guest].source.watch.asked.load(Ordering::SeqCst);
    }
    Ok(Reads { asked, failed })
}

// Each read of each guest fails in turn.
fn fail_in_turn<R: Threads + Abort + Sync, H: PageHash>(
    rt: &R,
    alloc: Global,
    hash: &H,
    all: [u64; 3],
) {
    let whole = read_up_to(rt, alloc, hash, [u64::MAX; 3]).expect(rt, "memory");
    equal(
        rt,
        whole,
        Reads {
            asked: all,
            failed: None,
        },
    );
    for guest in 0..3usize {
        for most in 0..all[guest] {
            let mut each = [u64::MAX; 3];
            each[guest] = most;
            let found = read_up_to(rt, alloc, hash, each).expect(rt, "memory");
            equal_at(rt, most, found.failed, Some(guest));
        }
    }
}

#[test]
fn by_folding(rt: HostRuntime) {
    fail_in_turn(&rt, rt.alloc(), &FoldHash, READ)
}

#[test]
fn by_no_hash(rt: HostRuntime) {
    fail_in_turn(&rt, rt.alloc(), &ZeroHash, READ_WITHOUT_HASH)
}
