//! Memory that is refused.
use crate::checks::{equal, equal_at, holds_at};
use refusing::Refusing;
use share_rings::{RingFault, ring_pair};

const MOST: u64 = 100;

const SLOTS: u32 = 6;

// The nth request for memory is refused, with n counting up until a run has no refusal.
#[test]
fn ring_pair_refused_in_turn(rt: HostRuntime) {
    let mut whole_at = None;
    for n in 0..MOST {
        let heap = Refusing::new(rt.alloc(), n, 0);
        match ring_pair(&heap, SLOTS) {
            Ok(_pair) => {
                holds_at(&rt, n, !heap.has_refused());
                whole_at = Some(n);
            }
            Err(fault) => {
                holds_at(&rt, n, heap.has_refused());
                equal_at(&rt, n, fault, RingFault::OutOfMemory);
            }
        }
        holds_at(&rt, n, heap.holds_nothing());
        if whole_at.is_some() {
            break;
        }
    }
    // Each of the two rings makes two requests.
    equal(&rt, whole_at, Some(4));
}
