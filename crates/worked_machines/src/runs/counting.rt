//! How often, and in what order, a run calls its gate.
use crate::checks::{equal, holds};
use crate::runs::makes::{Ask, Numbers};
use crate::runs::plain::replayed;
use merge_run::Gate;
use std::alloc::{AllocError, Global};
use std::sync::atomic::{AtomicBool, AtomicU32, AtomicU64, Ordering};

const GUESTS: usize = 3;

/// A guest's calls so far.
#[derive(Drop)]
struct Calls {
    before: AtomicU32,
    after: AtomicU32,
}

impl Calls {
    fn new() -> Calls {
        Calls {
            before: AtomicU32::new(0),
            after: AtomicU32::new(0),
        }
    }

    /// Returns how often each of the two was called.
    fn numbers(&self) -> (u32, u32) {
        (
            self.before.load(Ordering::SeqCst),
            self.after.load(Ordering::SeqCst),
        )
    }
}

/// Counts the calls of each guest, and notes one whose number isn't the next, or a verdict before its send. It keeps
/// how much is to come, and notes if it hears that twice, or after a send.
#[derive(Drop)]
struct Counting {
    guests: [Calls; GUESTS],
    requests: AtomicU64,
    failed: AtomicBool,
}

impl Counting {
    fn new() -> Counting {
        Counting {
            guests: [Calls::new(), Calls::new(), Calls::new()],
            requests: AtomicU64::new(0),
            failed: AtomicBool::new(false),
        }
    }

    fn fail_unless(&self, right: bool) {
        if !right {
            self.failed.store(true, Ordering::SeqCst);
        }
    }

    /// Returns how often each of the two was called for a guest.
    fn calls(&self, guest: usize) -> Option<(u32, u32)> {
        let calls = self.guests.get(guest)?;
        Some(calls.numbers())
    }

    fn has_failed(&self) -> bool {
        self.failed.load(Ordering::SeqCst)
    }
}

impl Gate for Counting {
    fn starting(&self, requests: u64) {
        let before = self.requests.swap(requests, Ordering::SeqCst);
        self.fail_unless(before == 0);
    }

    fn before(&self, guest: u8, nth: u32) {
        self.fail_unless(self.requests.load(Ordering::SeqCst) > 0);
        match self.guests.get(guest as usize) {
            Some(calls) => self.fail_unless(calls.before.fetch_add(1, Ordering::SeqCst) == nth),
            None => self.fail_unless(false),
        }
    }

    fn after(&self, guest: u8, nth: u32) {
        match self.guests.get(guest as usize) {
            Some(calls) => {
                self.fail_unless(calls.before.load(Ordering::SeqCst) > nth);
                self.fail_unless(calls.after.fetch_add(1, Ordering::SeqCst) == nth);
            }
            None => self.fail_unless(false),
        }
    }
}

fn loads(alloc: Global, times: u32) -> Result<Vec<Ask>, AllocError> {
    let mut asks = Vec::new(alloc);
    for _ in 0..times {
        asks.push(Ask::Load(0))?;
    }
    Ok(asks)
}

// The gate is called once before each send and once after each verdict, the close included, though with a ring of one
// item many tries fail.
#[test]
fn gate_is_called_once_for_each_number(rt: HostRuntime) {
    let numbers = Numbers {
        frames: 3,
        pages: &[1, 1, 1],
        salts: &[0, 0, 0],
        ring: 1,
        journal: 24,
    };
    let long = loads(rt.alloc(), 20).expect(&rt, "memory");
    let gate = Counting::new();
    replayed(
        &rt,
        rt.alloc(),
        &numbers,
        &[&[], &[Ask::Count], &long],
        &gate,
    );
    holds(&rt, !gate.has_failed());
    equal(&rt, gate.calls(0), Some((1, 1)));
    equal(&rt, gate.calls(1), Some((2, 2)));
    equal(&rt, gate.calls(2), Some((21, 21)));
    equal(&rt, gate.requests.load(Ordering::SeqCst), 24);
}
