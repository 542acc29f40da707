//! Each growth of memory refused in turn.
use crate::asks::{Ask, Line, serve, share_three};
use crate::checks::{holds, holds_at};
use merge_core::{Core, CoreFault};
use page_digest::Sha256Hash;
use refusing::Refusing;
use std::alloc::Allocator;
use std::process::Abort;
use worked_answers::Answer;

const MOST_GROWTHS: u64 = 100;

/// What follows three pages that share a frame, on a machine of three frames.
const LATER: [Line; 10] = [
    (1, Ask::Store(0, b'B'), Answer::Copied),
    (1, Ask::Propose(0), Answer::Hinted),
    (1, Ask::Propose(0), Answer::Kept),
    (1, Ask::Store(0, b'C'), Answer::Stored),
    (1, Ask::Release(0), Answer::Released(true)),
    (0, Ask::Propose(0), Answer::Already),
    (0, Ask::Release(1), Answer::Released(false)),
    (0, Ask::Store(0, b'D'), Answer::Taken),
    (0, Ask::Propose(1), Answer::Unmapped),
    (0, Ask::Count, Answer::Totals([16, 1, 0, 1, 0, 0])),
];

/// Makes a machine, of which no more is known.
fn new_core<A: Allocator + Clone>(alloc: A) -> Result<Core<Sha256Hash, A>, CoreFault> {
    Core::new(alloc, 3, &[2, 1], &[0, 0], Sha256Hash)
}

/// Serves a machine while every growth is refused. Returns whether a growth was refused before that.
fn serve_refused<A: Allocator, B: Allocator>(
    rt: &impl Abort,
    heap: &Refusing<B>,
    core: &mut Core<Sha256Hash, A>,
) -> bool {
    let has_refused = heap.has_refused();
    heap.refuse_all();
    share_three(rt, core);
    serve(rt, core, &LATER);
    has_refused
}

/// Makes a machine with memory from this allocator, and serves it once every later growth is refused. Returns its fault
/// if there is no machine, and whether a growth was refused before that.
fn served<B: Allocator>(rt: &impl Abort, heap: &Refusing<B>) -> (Option<CoreFault>, bool) {
    match new_core(heap) {
        Ok(mut core) => (None, serve_refused(rt, heap, &mut core)),
        Err(fault) => (Some(fault), heap.has_refused()),
    }
}

/// Growth number n is refused, with n counting up until a run has no refusal; afterwards every growth is, and none is asked
/// for.
#[test]
fn refused_growth(rt: HostRuntime) {
    for n in 0..MOST_GROWTHS {
        let heap = Refusing::new(rt.alloc(), n, 0);
        let (fault, has_refused) = served(&rt, &heap);
        holds_at(&rt, n, heap.holds_nothing());
        if !has_refused {
            holds(&rt, fault.is_none());
            holds_at(&rt, "a request took memory", !heap.has_refused());
            return;
        }
        holds_at(&rt, n, fault == Some(CoreFault::OutOfMemory));
    }
    panic!(rt; "no growth is the last");
}
