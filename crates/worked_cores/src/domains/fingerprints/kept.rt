//! The fingerprints of frames.
use crate::checks::{holds, holds_at};
use frame_fingerprints::FrameFingerprints;
use refusing::Refusing;
use std::alloc::Allocator;
use std::process::Abort;

/// What is kept of a frame, or no more: the frame, its fingerprint if there is one, and then whether a frame has 5, and 6.
const KEPT: [(u32, Option<u64>, bool, bool); 9] = [
    (1, Some(5), true, false),
    (2, Some(5), true, false),
    (1, None, true, false),
    (2, Some(6), false, true),
    (0, Some(6), false, true),
    (2, None, false, true),
    // there is no such frame
    (3, Some(5), false, true),
    (3, None, false, true),
    (0, None, false, false),
];

fn keep_all<A: Allocator>(rt: &impl Abort, fingerprints: &mut FrameFingerprints<A>) {
    for (frame, fingerprint, has_5, has_6) in KEPT {
        match fingerprint {
            None => fingerprints.remove(frame),
            Some(fingerprint) => fingerprints.put(frame, fingerprint),
        }
        holds(
            rt,
            fingerprints.is_kept(frame) == (frame < 3 && fingerprint.is_some()),
        );
        holds(rt, fingerprints.has(5) == has_5);
        holds(rt, fingerprints.has(6) == has_6);
    }
}

// As many frames as two machines may have.
#[test]
fn two_million_frames(rt: HostRuntime) {
    let mut fingerprints = FrameFingerprints::new(rt.alloc(), 2_097_152, 7).expect(&rt, "memory");
    fingerprints.put(2_097_151, 5);
    holds(&rt, fingerprints.is_kept(2_097_151));
    holds(&rt, fingerprints.has(5));
    holds(&rt, !fingerprints.has(0));
}

/// Keeps fingerprints, with no more memory once the list is made. Returns whether there was memory for the list.
fn keeps(rt: &impl Abort, heap: &Refusing) -> bool {
    let Ok(mut fingerprints) = FrameFingerprints::new(heap, 3, 7) else {
        return false;
    };
    heap.refuse_all();
    keep_all(rt, &mut fingerprints);
    holds(rt, !heap.has_refused());
    true
}

// Each of the two requests is refused in turn. Nothing is asked for later.
#[test]
fn refused_in_turn(rt: HostRuntime) {
    for n in 0..3 {
        let heap = Refusing::new(rt.alloc(), n, 0);
        let is_whole = keeps(&rt, &heap);
        holds(&rt, is_whole == (n == 2));
        holds_at(&rt, n, heap.holds_nothing());
    }
}
