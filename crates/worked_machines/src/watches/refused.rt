//! Memory that is refused to a watched machine.
use crate::checks::{equal, equal_at, holds, holds_at};
use crate::watches::config::config_of;
use refusing::Refusing;
use std::alloc::{Allocator, Global};
use std::process::Abort;
use std::sync::Wait;
use std::thread::Threads;
use watched_machine::{Fault, Machine, Merger, Port, Sha256Hash};

const MOST: u64 = 100;

// The requests before those of the machine: for the two lists of the configuration.
const BEFORE: u64 = 2;

/// What a refusal of memory stopped.
#[derive(Clone, Copy)]
enum Refused {
    Machine,
    Publish,
    Nothing,
}

/// Serves a request and publishes, again if the first try was refused. Ends the machine.
fn publish_and_end<R: Threads + Wait + Sync + Abort, A: Allocator + Sync>(
    rt: &R,
    alloc: Global,
    watched: Merger<Sha256Hash, A>,
    port: Port<A>,
) {
    let (mut watched, mut port) = (watched, port);
    let sent = port.count();
    let served = watched.round(rt, alloc, 1, 1);
    let is_published = watched.publish(rt).is_ok() || watched.publish(rt).is_ok();
    watched.end(rt);
    equal(rt, sent, Ok(()));
    equal(rt, served, Ok(1));
    holds(rt, is_published);
}

/// Makes a machine of one guest, publishes, and ends it. Returns why there is none.
fn fault_of<R: Threads + Wait + Sync + Abort>(
    rt: &R,
    alloc: Global,
    heap: &Refusing,
) -> Option<Fault> {
    let config = config_of(heap, 1, &[1], 4, 4).expect(rt, "memory");
    match Machine::new(rt, heap, &config, Sha256Hash) {
        Ok((watched, mut ports)) => {
            let port = ports.pop().expect(rt, "no port");
            publish_and_end(rt, alloc, watched, port);
            None
        }
        Err(fault) => Some(fault),
    }
}

/// Makes a machine and publishes while request number n for memory is refused.
fn refused_at<R: Threads + Wait + Sync + Abort>(rt: &R, alloc: Global, n: u64) -> Refused {
    let heap = Refusing::new(alloc, n, 0);
    let fault = fault_of(rt, alloc, &heap);
    holds_at(rt, n, heap.holds_nothing());
    match fault {
        None if heap.has_refused() => Refused::Publish,
        None => Refused::Nothing,
        Some(fault) => {
            holds_at(rt, n, heap.has_refused());
            equal_at(rt, n, fault, Fault::OutOfMemory);
            Refused::Machine
        }
    }
}

// The nth request for memory is refused, with n counting up until a run has no refusal: first those of the new machine,
// then those of a publish. None of the other calls asks for any.
#[test]
fn each_growth_refused_in_turn(rt: HostRuntime) {
    let mut publish_refused = false;
    for n in BEFORE..BEFORE + MOST {
        match refused_at(&rt, rt.alloc(), n) {
            Refused::Machine => {}
            Refused::Publish => publish_refused = true,
            Refused::Nothing => {
                holds(&rt, publish_refused);
                return;
            }
        }
    }
    panic!(rt; "each run was refused")
}
