//! Reads each of which waits for another, so that two workers are needed.
use crate::checks::holds;
use crate::estimates::censuses::pages::{census_of, guest_of};
use crate::estimates::censuses::watched::{Watch, Watched};
use page_census::Guest;
use page_digest::FoldHash;
use std::alloc::Global;
use std::process::Abort;
use std::sync::atomic::{AtomicBool, AtomicU64, Ordering};
use std::thread;
use std::thread::Threads;

const TRIES: u64 = 1 << 24;

/// Lets threads go on once two of them have come.
#[derive(Drop)]
struct Gate {
    came: AtomicU64,
    missed: AtomicBool,
}

impl Gate {
    fn new() -> Gate {
        Gate {
            came: AtomicU64::new(0),
            missed: AtomicBool::new(false),
        }
    }

    // Notes if a second thread is never seen.
    fn pass(&self) {
        self.came.fetch_add(1, Ordering::SeqCst);
        for _ in 0..TRIES {
            if self.came.load(Ordering::SeqCst) >= 2 {
                return;
            }
            thread::yield_now();
        }
        self.missed.store(true, Ordering::SeqCst);
    }

    fn was_passed_by_two(&self) -> bool {
        self.came.load(Ordering::SeqCst) >= 2 && !self.missed.load(Ordering::SeqCst)
    }
}

/// A gate for runs of pages, which are read for marks, and one for single pages, which are read to be compared.
#[derive(Drop)]
struct Gates {
    runs: Gate,
    singles: Gate,
}

impl Watch for Gates {
    fn allows(&self, pages: usize) -> bool {
        if pages > 1 {
            self.runs.pass();
        } else {
            self.singles.pass();
        }
        true
    }
}

/// Whether two workers read runs of pages at the same time, and then pages to be compared.
fn are_read_together<R: Threads + Abort + Sync>(rt: &R, alloc: Global) -> (bool, bool) {
    let guest = guest_of(rt, alloc, 0, &[Some(1); 128], u32::MAX);
    let watch = Gates {
        runs: Gate::new(),
        singles: Gate::new(),
    };
    let memory = guest.source;
    let guests = [Guest {
        salt: guest.salt,
        source: Watched { memory, watch },
    }];
    let found = census_of(rt, alloc, 2, &FoldHash, &guests);
    holds(rt, found.is_ok());
    let gates = &guests[0].source.watch;
    (
        gates.runs.was_passed_by_two(),
        gates.singles.was_passed_by_two(),
    )
}

// A worker has 64 pages at least. On one thread, the first 64 would wait in vain for the others.
#[test]
fn by_two_workers(rt: HostRuntime) {
    let (marked, confirmed) = are_read_together(&rt, rt.alloc());
    holds(&rt, marked);
    holds(&rt, confirmed);
}
