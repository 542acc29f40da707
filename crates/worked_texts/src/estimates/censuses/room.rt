//! How much memory a census asks for.
use crate::checks::{holds, holds_at};
use crate::estimates::censuses::pages::{Memory, census_of, guest_of};
use page_census::Guest;
use page_digest::FoldHash;
use refusing::Refusing;
use std::alloc::Global;
use std::process::Abort;
use std::thread::Threads;

// What a census of one guest asks for at most. For each page: 16 bytes for its mark, 10 for its class and 8 for copies. For each
// worker and in all: pages to read into. Then a little more for the numbers and the workers' answers.
const PAGE: u64 = 34;

const WORKER: u64 = 66 * 4096 + 256;

const MORE: u64 = 2 * 4096 + 640;

/// Whether a census with memory of this allocator has numbers.
fn is_counted<R: Threads + Abort + Sync>(
    rt: &R,
    heap: &Refusing,
    workers: u32,
    guests: &[Guest<Memory>],
) -> bool {
    census_of(rt, heap, workers, &FoldHash, guests).is_ok()
}

/// Returns how many bytes a census of 200 pages of zeros, by this many workers, asks for.
fn asked<R: Threads + Abort + Sync>(rt: &R, alloc: Global, workers: u32) -> u64 {
    let guests = [guest_of(rt, alloc, 0, &[None; 200], u32::MAX)];
    let heap = Refusing::new(alloc, u64::MAX, 0);
    holds(rt, is_counted(rt, &heap, workers, &guests));
    heap.bytes_asked()
}

#[test]
fn bytes_asked(rt: HostRuntime) {
    for workers in 1..4 {
        let asked = asked(&rt, rt.alloc(), workers);
        let most = PAGE * 200 + WORKER * u64::from(workers) + MORE;
        holds_at(&rt, (asked, workers), asked <= most);
    }
}
