//! Guests in turn.
use crate::answers::Reply::{Number, Sent};
use crate::checks::{equal, holds};
use crate::makes::{Merging, load, new_machine, round};
use share_rings::Port;
use std::alloc::Global;
use std::process::Abort;

fn send_two(rt: &impl Abort, port: &mut Port) {
    holds(rt, load(port) == Sent);
    holds(rt, load(port) == Sent);
}

/// Returns the guest of an entry of the journal.
fn guest_of(rt: &impl Abort, merger: &Merging<Global>, entry: usize) -> u8 {
    let entry = merger.journal().get(entry).expect(rt, "no such entry");
    entry.guest
}

#[test]
fn round_in_turn(rt: HostRuntime) {
    let (mut merger, mut ports) = new_machine(rt.alloc(), 1, &[1, 1], 2, 4).expect(&rt, "memory");
    let mut second = ports.pop().expect(&rt, "no second port");
    let mut first = ports.pop().expect(&rt, "no first port");
    send_two(&rt, &mut first);
    send_two(&rt, &mut second);
    holds(&rt, round(&rt, rt.alloc(), &mut merger, 1, 3) == Number(3));
    equal(&rt, merger.journal().len(), 3);
    equal(&rt, guest_of(&rt, &merger, 0), 0);
    equal(&rt, guest_of(&rt, &merger, 1), 1);
    equal(&rt, guest_of(&rt, &merger, 2), 0);
}
