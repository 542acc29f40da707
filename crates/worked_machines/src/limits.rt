//! The longest ring.
use crate::answers::Reply::{Busy, Done, Sent};
use crate::checks::holds;
use crate::makes::{load, new_machine, step};
use page_model::MAX_RING_CAPACITY;
use share_rings::Port;
use std::process::Abort;

fn fill(rt: &impl Abort, port: &mut Port) {
    for _ in 0..MAX_RING_CAPACITY {
        holds(rt, load(port) == Sent);
    }
}

// The longest rings hold as many items as they should.
#[test]
fn longest_ring(rt: HostRuntime) {
    let (mut merger, mut ports) = new_machine(rt.alloc(), 1, &[1], MAX_RING_CAPACITY, 1).expect(
        &rt, "memory",
    );
    let mut port = ports.pop().expect(&rt, "no port");
    fill(&rt, &mut port);
    holds(&rt, load(&mut port) == Busy);
    holds(&rt, step(&rt, &mut merger, 0) == Done);
    holds(&rt, load(&mut port) == Sent);
}
