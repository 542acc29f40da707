//! Many frames, hashed by several workers.
use crate::checks::{equal, holds, holds_at};
use crate::stores::hashes::makes::{pairs_of, two_frames};
use page_digest::{HashFault, PageHash, Sha256Hash, hash_many};
use refusing::Refusing;
use std::alloc::{Allocator, Global};
use std::process::Abort;
use std::sync::Wait;
use std::thread::Threads;

// From sha256sum: of 4,096 zeros.
const BLANK: u64 = 0xad7f_acb2_586f_c6e9;

// More requests than a call makes.
const MOST_REQUESTS: u64 = 100;

/// Returns the hashes of `count` frames.
pub(crate) fn hashes_of<R: Threads + Wait + Abort + Sync, A: Allocator + Clone + Send, H: PageHash>(
    rt: &R,
    lists: Global,
    alloc: A,
    workers: u32,
    hash: &H,
    count: u8,
) -> Result<Vec<u64, A>, HashFault> {
    holds(rt, workers >= 1);
    holds(rt, workers <= 64);
    let two = two_frames(rt, lists);
    let pairs = pairs_of(lists, &two, count).expect(rt, "memory");
    hash_many(rt, alloc, workers, hash, &two.frames, &pairs)
}

/// Returns how many hashes there are of six frames by four workers, and the first. Returns none if memory is refused.
fn six_hashes<R: Threads + Wait + Abort + Sync>(
    rt: &R,
    lists: Global,
    heap: &Refusing,
) -> Option<(usize, u64)> {
    match hashes_of(rt, lists, heap, 4, &Sha256Hash, 6) {
        Ok(hashes) => Some((hashes.len(), hashes.first().copied().unwrap_or(0))),
        Err(fault) => {
            holds(rt, matches!(fault, HashFault::OutOfMemory));
            None
        }
    }
}

// Request number n is refused, with n counting up until a run has no refusal. `NoThread` doesn't occur, since starting
// a thread asks the system for memory, and no allocator of a caller.
#[test]
fn refused_in_turn(rt: HostRuntime) {
    let mut whole_at = None;
    for n in 0..MOST_REQUESTS {
        let heap = Refusing::new(rt.alloc(), n, 0);
        let hashes = six_hashes(&rt, rt.alloc(), &heap);
        holds_at(&rt, n, heap.has_refused() == hashes.is_none());
        holds_at(&rt, n, heap.holds_nothing());
        if hashes.is_some() {
            equal(&rt, hashes, Some((6, BLANK)));
            whole_at = Some(n);
            break;
        }
    }
    // The hashes, the tasks, a list for each of two threads, and the handles.
    equal(&rt, whole_at, Some(5));
}
