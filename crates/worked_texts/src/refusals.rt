//! Each growth of memory refused in turn.
use crate::checks::{holds, holds_at};
use crate::engine::{Engine, served_in};
use crate::journals::ZEROS;
use crate::scripts::{VERDICTS_OF_TWO, scan, two_guests};
use page_digest::Sha256Hash;
use refusing::Refusing;
use share_text::{Output, TextFault};
use std::alloc::Global;
use std::process::Abort;
use std::sync::Wait;
use std::thread::Threads;

/// Whether an engine with this allocator is right: it reports that memory was refused, and writes nothing, exactly if a
/// growth was refused.
///
/// `NoThread` doesn't occur, since starting a thread asks the system for memory, and no allocator of a caller.
fn serves_or_wants<T: Threads + Wait + Sync>(
    rt: &T,
    alloc: Global,
    heap: &Refusing,
    engine: Engine,
    text: &str,
    output: &str,
) -> bool {
    let (ended, out) = served_in(rt, alloc, heap, engine, text, Sha256Hash);
    if heap.has_refused() {
        return ended.is_refused(TextFault::OutOfMemory) && out.is_empty();
    }
    ended.is_well() && out.as_slice() == output.as_bytes()
}

/// Refuses each growth in turn, up to the first serving without a refusal.
fn check_refusals<T: Threads + Wait + Sync + Abort>(
    rt: &T,
    alloc: Global,
    engine: Engine,
    text: &str,
    output: &str,
) {
    for first in 0..1000 {
        let heap = Refusing::new(alloc, first, 0);
        holds_at(
            rt,
            first,
            serves_or_wants(rt, alloc, &heap, engine, text, output),
        );
        holds(rt, heap.holds_nothing());
        if !heap.has_refused() {
            return;
        }
    }
    panic!(rt; "no growth is the last");
}

#[test]
fn refused_replay(rt: HostRuntime) {
    let zeros =
        "0 mapped\n0 bytes 6869\n0 bytes 0000\n0 bytes 00\n0 closed\nreport entries 5 mapped 1 shared 0 frames 1 reclaimed 0 hints 0\n";
    check_refusals(&rt, rt.alloc(), Engine::Replay, ZEROS, zeros);
}

#[test]
fn refused_serial(rt: HostRuntime) {
    for row in [scan(), two_guests()] {
        check_refusals(&rt, rt.alloc(), Engine::Serial, row.text, row.output);
    }
}

#[test]
fn refused_threads(rt: HostRuntime) {
    let (one, two) = (scan(), two_guests());
    let engine = Engine::Threaded(Output::Verdicts);
    check_refusals(&rt, rt.alloc(), engine, one.text, one.output);
    check_refusals(&rt, rt.alloc(), engine, two.text, VERDICTS_OF_TWO);
}
