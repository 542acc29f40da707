//! Readers and writers that fail at one of their calls and would go on: the engine doesn't call them again.
use crate::calls::{Calls, Giver, taker_of};
use crate::checks::holds_at;
use crate::engine::{Case, cases, serve};
use page_digest::Sha256Hash;
use share_text::TextFault;
use std::alloc::Global;
use std::sync::Wait;
use std::thread::Threads;

/// Returns how many calls of 10 bytes each cover these bytes.
fn calls_over(bytes: &str) -> usize {
    bytes.len().saturating_add(9) / 10
}

/// Whether a reader that fails at this call isn't called again, and nothing is written.
fn is_read_no_more<T: Threads + Wait + Sync>(
    rt: &T,
    alloc: Global,
    case: &Case,
    fails_at: usize,
) -> bool {
    let mut giver = Giver {
        text: case.text.as_bytes(),
        step: 10,
        calls: Calls::failing_at(fails_at),
    };
    let mut out = Vec::new(alloc);
    let ended = serve(rt, alloc, case.engine, &mut giver, &mut out, Sha256Hash);
    ended.is_refused(TextFault::Read)
        && ended.read_failed
        && out.is_empty()
        && giver.calls.made == fails_at.saturating_add(1)
}

/// Whether a writer that fails at this call isn't called again, and has taken a front of the output.
fn is_written_no_more<T: Threads + Wait + Sync>(
    rt: &T,
    alloc: Global,
    case: &Case,
    fails_at: usize,
) -> bool {
    let mut taker = taker_of(alloc, 10, fails_at);
    let text = case.text.as_bytes();
    let ended = serve(rt, alloc, case.engine, text, &mut taker, Sha256Hash);
    ended.is_refused(TextFault::Write)
        && ended.write_failed
        && taker.calls.made == fails_at.saturating_add(1)
        && taker.taken.len() == fails_at.saturating_mul(10)
        && case.output.as_bytes().starts_with(&taker.taken)
}

// The text's end is found by one more read than covers the text.
#[test]
fn readers_that_fail_once(rt: HostRuntime) {
    for case in cases() {
        for fails_at in 0..calls_over(case.text).saturating_add(1) {
            holds_at(
                &rt,
                fails_at,
                is_read_no_more(&rt, rt.alloc(), &case, fails_at),
            );
        }
    }
}

#[test]
fn writers_that_fail_once(rt: HostRuntime) {
    for case in cases() {
        for fails_at in 0..calls_over(case.output) {
            holds_at(
                &rt,
                fails_at,
                is_written_no_more(&rt, rt.alloc(), &case, fails_at),
            );
        }
    }
}
