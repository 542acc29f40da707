//! The census of a few pages, with memory refused.
use crate::checks::{equal, holds, holds_at};
use crate::estimates::censuses::pages::{Memory, ZeroHash, census_of, guest_of};
use page_census::{CensusFault, Guest, TotalNumbers};
use page_digest::PageHash;
use refusing::Refusing;
use std::alloc::Global;
use std::process::Abort;
use std::thread::Threads;

const TOTAL: TotalNumbers = TotalNumbers {
    pages: 12,
    zero: 4,
    shared: 9,
    frames: 7,
    reclaimed: 5,
    zero_reclaimed: 2,
    between: 2,
};

// More requests than a census makes.
const MOST_REQUESTS: u64 = 100;

// Pages a, b and c begin with the same byte. Guests 0 and 1 have one salt, guest 2 another.
fn three_guests(rt: &impl Abort, alloc: Global) -> Vec<Guest<Memory>> {
    let (a, b, c) = (Some(1), Some(2), Some(3));
    let mut guests = Vec::with_capacity(alloc, 3).expect(rt, "memory");
    guests.push_reserved(guest_of(rt, alloc, 0, &[None, a, b, a], 4));
    guests.push_reserved(guest_of(rt, alloc, 0, &[a, None, c, c], 4));
    guests.push_reserved(guest_of(rt, alloc, 1, &[a, None, None, b], 4));
    guests
}

// Returns the total, or none if memory is refused.
fn total_by<R: Threads + Abort + Sync, H: PageHash>(
    rt: &R,
    heap: &Refusing<Global>,
    hash: &H,
    guests: &[Guest<Memory>],
) -> Option<TotalNumbers> {
    match census_of(rt, heap, 4, hash, guests) {
        Ok(found) => Some(found.total),
        Err(fault) => {
            holds(rt, matches!(fault, CensusFault::OutOfMemory));
            None
        }
    }
}

// Request number n is refused, with n counting up until a census has no refusal.
fn refuses_in_turn<R: Threads + Abort + Sync, H: PageHash>(rt: &R, alloc: Global, hash: &H) {
    let guests = three_guests(rt, alloc);
    for n in 0..MOST_REQUESTS {
        let heap = Refusing::new(alloc, n, 0);
        let total = total_by(rt, &heap, hash, &guests);
        holds_at(rt, n, heap.has_refused() == total.is_none());
        holds_at(rt, n, heap.holds_nothing());
        if total.is_some() {
            equal(rt, total, Some(TOTAL));
            return;
        }
    }
    panic!(rt; "no request is the last")
}

// Classes are found twice if different pages have the same mark.
#[test]
fn refused_in_turn_by_no_hash(rt: HostRuntime) {
    refuses_in_turn(&rt, rt.alloc(), &ZeroHash)
}
