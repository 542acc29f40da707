//! Memory that is refused.
use crate::checks::{equal, holds, holds_at};
use crate::estimates::censuses::pages::{Memory, ReadSoFar, guest_of};
use guest_digests::{GuestDigests, Sample, Sampling, digest_pages};
use memory_pages::{PageSource, ReadFault};
use refusing::Refusing;
use std::alloc::{Allocator, Global};
use std::process::Abort;
use std::sync::atomic::{AtomicU64, Ordering};
use std::thread::Threads;

// More requests than are made.
const MOST_REQUESTS: u64 = 100;

// Nine pages: twice four, and one.
fn nine_pages(rt: &impl Abort, alloc: Global) -> Memory {
    let (one, two, three, five) = (Some(1), Some(2), Some(3), Some(5));
    let lasts = [None, one, two, one, three, None, one, five, None];
    guest_of(rt, alloc, 0, &lasts, 9).source
}

// Returns the sampling of a salt and a sample that there is.
fn sampling_of(rt: &impl Abort, salt: u32, every: u32) -> Sampling {
    Sampling::new(salt, Sample::new(every).expect(rt, "a sample"))
}

// Digests pages by this many workers. As many pages are reported as read as there are.
fn digests_of<R: Threads + Abort + Sync, S: PageSource, A: Allocator + Clone + Send + Sync>(
    rt: &R,
    alloc: A,
    workers: u32,
    sampling: Sampling,
    source: &S,
) -> Result<GuestDigests<A>, ReadFault<S::Fault>> {
    holds(rt, workers >= 1);
    let pages = AtomicU64::new(0);
    let progress = ReadSoFar { pages };
    let found = digest_pages(rt, alloc, workers, sampling, source, &progress);
    if let Ok(found) = &found {
        equal(rt, progress.pages.load(Ordering::SeqCst), found.pages);
    }
    found
}

// Returns how many lines there are, or none if memory is refused.
fn count_by<R: Threads + Abort + Sync>(
    rt: &R,
    heap: &Refusing<Global>,
    memory: &Memory,
) -> Option<usize> {
    match digests_of(rt, heap, 2, sampling_of(rt, 0, 1), memory) {
        Ok(found) => Some(found.lines.len()),
        Err(fault) => {
            holds(rt, matches!(fault, ReadFault::OutOfMemory));
            None
        }
    }
}

// Request number n is refused, with n counting up until none is.
#[test]
fn refused_in_turn(rt: HostRuntime) {
    let memory = nine_pages(&rt, rt.alloc());
    for n in 0..MOST_REQUESTS {
        let heap = Refusing::new(rt.alloc(), n, 0);
        let count = count_by(&rt, &heap, &memory);
        holds_at(&rt, n, heap.has_refused() == count.is_none());
        holds_at(&rt, n, heap.holds_nothing());
        if count.is_some() {
            equal(&rt, count, Some(5));
            return;
        }
    }
    panic!(rt; "no request is the last")
}
