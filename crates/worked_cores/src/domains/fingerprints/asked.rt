use crate::checks::{equal, holds, holds_at};
use recent_fingerprints::{PageName, RecentFingerprints};
use refusing::Refusing;
use std::alloc::Allocator;
use std::process::Abort;

/// What is asked: the client, the page's number, the fingerprint, and whether another page was noted with it.
const ASKED: [(u32, u64, u64, bool); 9] = [
    (1, 10, 5, false),
    // the same page is no other one
    (1, 10, 5, false),
    (1, 11, 5, true),
    // another client's page may have the same number
    (2, 10, 5, true),
    (2, 10, 6, false),
    (3, 10, 7, false),
    // the oldest note that is left is of client 2, page 10, fingerprint 5
    (3, 10, 5, true),
    // the oldest note that is left is the one with fingerprint 6
    (2, 10, 6, false),
    (4, 0, 6, true),
];

// Asks about each, in a list of three places.
fn ask_all<A: Allocator>(rt: &impl Abort, recent: &mut RecentFingerprints<A>) {
    for (client, number, fingerprint, expected) in ASKED {
        let page = PageName { client, number };
        equal(rt, recent.ask(page, fingerprint), expected);
    }
}

// As many places and clients as there may be.
#[test]
fn as_many_places_as_there_may_be(rt: HostRuntime) {
    let mut recent = RecentFingerprints::new(rt.alloc(), 16_777_216, 65_536, 7).expect(
        &rt, "memory",
    );
    ask_all(&rt, &mut recent);
}

/// Asks about each, with no more memory once the list is made. Returns whether there was memory for the list.
fn asks(rt: &impl Abort, heap: &Refusing) -> bool {
    let Ok(mut recent) = RecentFingerprints::new(heap, 3, 4, 7) else {
        return false;
    };
    holds(rt, !heap.has_refused());
    heap.refuse_all();
    ask_all(rt, &mut recent);
    true
}

// Request number n is refused, with n counting up until there is no refusal. Nothing is asked for later.
#[test]
fn new_refused_in_turn(rt: HostRuntime) {
    let mut whole_at = None;
    for n in 0..100 {
        let heap = Refusing::new(rt.alloc(), n, 0);
        let is_whole = asks(&rt, &heap);
        holds_at(&rt, n, heap.has_refused() != is_whole);
        holds_at(&rt, n, heap.holds_nothing());
        if is_whole {
            whole_at = Some(n);
            break;
        }
    }
    equal(&rt, whole_at, Some(3));
}
