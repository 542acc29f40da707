//! Memory that is refused to a run.
use crate::checks::{equal, equal_at, holds, holds_at};
use crate::runs::makes::{Ask, Numbers};
use crate::runs::plain::{Outcome, got, ran};
use merge_run::{OpenGate, RunFault};
use page_digest::Sha256Hash;
use refusing::Refusing;
use std::alloc::Global;
use std::process::Abort;
use std::sync::Wait;
use std::thread::Threads;
use worked_answers::Answer;

const MOST: u64 = 200;

// The requests before those of the run: the two lists of the configuration, and three for the scripts.
const BEFORE: u64 = 5;

// Only guest 1 proposes, so each order gives these answers.
const FIRST: [Ask; 1] = [Ask::Store(0, 0x41)];

const SECOND: [Ask; 2] = [Ask::Store(0, 0x41), Ask::Propose(0)];

fn check_whole(rt: &impl Abort, ran: &Outcome) {
    assert_eq!(rt; ran.answers.len(), 2);
    holds(rt, got(ran, 0, &[Answer::Mapped, Answer::Closed]));
    holds(
        rt,
        got(ran, 1, &[Answer::Mapped, Answer::Hinted, Answer::Closed]),
    );
    equal(rt, ran.report, [5, 2, 0, 2, 0, 1]);
}

/// Runs the scripts with memory from `heap`. Returns why there is no such run; if there is one, it is whole.
fn fault_of_run<R: Threads + Wait + Sync + Abort>(
    rt: &R,
    alloc: Global,
    heap: &Refusing,
) -> Option<RunFault> {
    let numbers = Numbers {
        frames: 2,
        pages: &[1, 1],
        salts: &[0, 0],
        ring: 1,
        journal: 5,
    };
    match ran(
        rt,
        alloc,
        heap,
        &numbers,
        &[&FIRST, &SECOND],
        Sha256Hash,
        &OpenGate,
    ) {
        Ok(ran) => {
            check_whole(rt, &ran);
            None
        }
        Err(fault) => Some(fault),
    }
}

// The run's nth request for memory is refused, with n counting up until a run has no refusal. `NoThread` doesn't occur,
// since starting a thread asks the system for memory, and no allocator of a caller.
#[test]
fn run_refused_in_turn(rt: HostRuntime) {
    for n in 0..MOST {
        let heap = Refusing::new(rt.alloc(), BEFORE + n, 0);
        let fault = fault_of_run(&rt, rt.alloc(), &heap);
        holds_at(&rt, n, heap.holds_nothing());
        if fault.is_none() {
            holds_at(&rt, n, !heap.has_refused());
            return;
        }
        holds_at(&rt, n, heap.has_refused());
        equal_at(&rt, n, fault, Some(RunFault::OutOfMemory));
    }
    panic!(rt; "no growth is the last");
}
