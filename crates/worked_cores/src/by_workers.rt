//! Hashes computed ahead by several workers.
use crate::asks::{Ask, Line, core_of, first_pages, numbers, serve, store_each};
use crate::checks::holds;
use merge_core::Core;
use page_digest::Sha256Hash;
use refusing::Refusing;
use std::alloc::{Allocator, Global};
use std::process::Abort;
use std::sync::Wait;
use std::thread::Threads;
use worked_answers::Answer;

/// Lets two workers note the hashes of these pages, with memory from `alloc`.
fn note_by_two<R: Threads + Wait + Sync, B: Allocator + Clone + Send>(
    rt: &R,
    alloc: B,
    core: &mut Core<Sha256Hash>,
    pages: &[(u8, u32)],
) {
    core.note_hashes_by(rt, alloc, 2, pages);
}

const PROPOSALS: [Line; 2] = [
    (0, Ask::Propose(7), Answer::Hinted),
    (0, Ask::Propose(39), Answer::Paired),
];

/// Stores forty equal pages to a new machine, lets two workers note their hashes, and then proposes two of the pages. Returns the
/// report before the proposals.
fn note_forty<R: Threads + Wait + Sync + Abort, B: Allocator + Clone + Send>(
    rt: &R,
    memory: Global,
    alloc: B,
    core: &mut Core<Sha256Hash>,
) -> [u32; 6] {
    store_each(rt, core, 40);
    note_by_two(rt, alloc, core, &first_pages(rt, memory, 40));
    let report = numbers(core);
    serve(rt, core, &PROPOSALS);
    report
}

/// Returns the report of a machine of forty equal pages whose hashes two workers note with memory from `alloc`. Two of
/// the pages are then proposed.
fn noted_report<R: Threads + Wait + Sync + Abort, B: Allocator + Clone + Send>(
    rt: &R,
    memory: Global,
    alloc: B,
) -> [u32; 6] {
    let mut core = core_of(rt, memory, 40, &[40], Sha256Hash);
    note_forty(rt, memory, alloc, &mut core)
}

/// Two workers note the hashes of forty pages, while one growth is refused, or none.
#[test]
fn many_noted(rt: HostRuntime) {
    for refused_from in [0u64, 3, 100] {
        let heap = Refusing::new(rt.alloc(), refused_from, 0);
        holds(
            &rt,
            noted_report(&rt, rt.alloc(), &heap) == [40, 40, 0, 40, 0, 0],
        );
        holds(&rt, heap.holds_nothing());
    }
}
