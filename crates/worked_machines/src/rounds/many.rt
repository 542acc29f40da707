//! Forty proposals in one round, enough for a second worker.
use crate::answers::Reply::{Got, Number, Sent};
use crate::checks::{equal, holds, holds_at};
use crate::makes::{Merging, new_machine, propose, round, store, verdict};
use refusing::Refusing;
use share_rings::Port;
use std::alloc::Global;
use std::process::Abort;
use std::sync::Wait;
use std::thread::Threads;
use worked_answers::Answer::{Hinted, Mapped};
use worked_answers::numbers;

const MOST_GROWTHS: u64 = 100;

const PAGES: u8 = 40;

/// Stores other bytes to each page.
fn store_all(rt: &impl Abort, port: &mut Port) {
    for page in 0..PAGES {
        holds(rt, store(port, u32::from(page), [0x41, page]) == Sent);
    }
}

/// Takes the verdict of each store, and proposes each page.
fn propose_all(rt: &impl Abort, port: &mut Port) {
    for page in 0..PAGES {
        holds(rt, verdict(port) == Got(Mapped));
        holds(rt, propose(port, u32::from(page)) == Sent);
    }
}

/// Takes the verdict of each proposal.
fn take_all(rt: &impl Abort, port: &mut Port) {
    for _ in 0..PAGES {
        holds(rt, verdict(port) == Got(Hinted));
    }
}

/// Serves the stores in one round, and the proposals in another, whatever memory there is for lists.
fn serve_all<R: Threads + Wait + Sync + Abort>(
    rt: &R,
    lists: &Refusing,
    merger: &mut Merging<Global>,
    port: &mut Port,
) {
    store_all(rt, port);
    holds(rt, round(rt, lists, merger, 2, 64) == Number(40));
    propose_all(rt, port);
    holds(rt, round(rt, lists, merger, 2, 64) == Number(40));
    take_all(rt, port);
    equal(rt, numbers(&merger.report()), [80, 40, 0, 40, 0, 40]);
}

/// Serves all while growth number n of the rounds' lists is refused, and returns whether any was.
fn is_refused<R: Threads + Wait + Sync + Abort>(rt: &R, alloc: Global, n: u64) -> bool {
    let heap = Refusing::new(alloc, n, 0);
    let (mut merger, mut ports) = new_machine(alloc, 40, &[40], 64, 100).expect(rt, "memory");
    let mut port = ports.pop().expect(rt, "no port");
    serve_all(rt, &heap, &mut merger, &mut port);
    holds_at(rt, n, heap.holds_nothing());
    heap.has_refused()
}

// Each growth of the rounds' lists is refused in turn.
#[test]
fn many_proposals(rt: HostRuntime) {
    for n in 0..MOST_GROWTHS {
        if !is_refused(&rt, rt.alloc(), n) {
            return;
        }
    }
    panic!(rt; "each run was refused")
}
