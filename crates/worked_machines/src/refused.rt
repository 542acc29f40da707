//! Memory that is refused to a new machine.
use crate::answers::Reply::{Done, Got, Sent};
use crate::checks::{equal_at, holds, holds_at};
use crate::makes::{Merging, load, new_machine, propose, step, store, verdict};
use merge_run::Fault;
use refusing::Refusing;
use share_rings::Port;
use std::alloc::{Allocator, Global};
use std::process::Abort;
use worked_answers::Answer::{Byte, Hinted, Mapped};

const MOST: u64 = 100;

// The requests before those of the machine: for the two lists of the configuration.
const BEFORE: u64 = 2;

/// Stores to the only page, proposes it, and loads from it.
fn run_page<A: Allocator>(rt: &impl Abort, merger: &mut Merging<A>, port: &mut Port<A>) {
    holds(rt, store(port, 0, [0x41, 0x42]) == Sent);
    holds(rt, step(rt, merger, 0) == Done);
    holds(rt, verdict(port) == Got(Mapped));
    holds(rt, propose(port, 0) == Sent);
    holds(rt, step(rt, merger, 0) == Done);
    holds(rt, verdict(port) == Got(Hinted));
    holds(rt, load(port) == Sent);
    holds(rt, step(rt, merger, 0) == Done);
    holds(rt, verdict(port) == Got(Byte(0x41)));
}

/// Makes a machine while request number n for memory is refused, and returns whether it was made. A machine that was made
/// asks for no more.
fn make_refused(rt: &impl Abort, alloc: Global, n: u64) -> bool {
    let heap = Refusing::new(alloc, n, 0);
    let is_made = match new_machine(&heap, 1, &[1], 1, 4) {
        Ok((mut merger, mut ports)) => {
            holds_at(rt, n, !heap.has_refused());
            heap.refuse_all();
            let mut port = ports.pop().expect(rt, "no port");
            run_page(rt, &mut merger, &mut port);
            holds_at(rt, n, !heap.has_refused());
            true
        }
        Err(fault) => {
            holds_at(rt, n, heap.has_refused());
            equal_at(rt, n, fault, Fault::OutOfMemory);
            false
        }
    };
    holds_at(rt, n, heap.holds_nothing());
    is_made
}

// n counts up until a run has no refusal.
#[test]
fn new_machine_refused_in_turn(rt: HostRuntime) {
    for n in BEFORE..BEFORE + MOST {
        if make_refused(&rt, rt.alloc(), n) {
            return;
        }
    }
    panic!(rt; "each run was refused")
}
