//! The hashes of a page: one by one, four and eight at once, and as a listed frame by one, two and four workers.
//!
//! It is the same page each time, which stays in the processor's cache, so the times are those of the hash itself.
use crate::pages::{Listed, list_frame, sum_alone, sum_by};
use crate::step::{Refusal, print_refusal, print_step};
use crate::timed_hash::TimedHash;
use std::alloc::Global;
use std::io;
use std::rt::Clock;
use std::sync::Wait;
use std::thread::Threads;
use std::time::Instant;

// How many pages a try hashes.
const FEW: u32 = 8;

// How many times each step is timed.
const TURNS: u32 = 10;

#[derive(Clone, Copy)]
enum Step {
    Alone(usize),
    By(u32),
}

const STEPS: [(&str, Step); 6] = [
    ("one by one", Step::Alone(1)),
    ("four at once", Step::Alone(4)),
    ("eight at once", Step::Alone(8)),
    ("one worker", Step::By(1)),
    ("two workers", Step::By(2)),
    ("four workers", Step::By(4)),
];

/// Times the hashes of as many pages as asked for, in whole eights, or only tries them.
pub fn time_hashes<R: Clock + Print + Threads + Wait + Sync>(
    rt: &R,
    alloc: Global,
    asked: Option<u32>,
    hash: TimedHash,
) -> io::Result<()> {
    let count = asked.unwrap_or(FEW) / 8 * 8;
    match list_frame(alloc, hash, count) {
        Some(listed) => time_turns(rt, alloc, asked.is_some(), hash, &listed),
        None => print_refusal(rt, "hash", "no memory"),
    }
}

fn time_turns<R: Clock + Print + Threads + Wait + Sync>(
    rt: &R,
    alloc: Global,
    is_timed: bool,
    hash: TimedHash,
    listed: &Listed,
) -> io::Result<()> {
    let turns = if is_timed { TURNS } else { 1 };
    for _turn in 0..turns {
        time_turn(rt, alloc, is_timed, hash, listed)?;
    }
    Ok(())
}

fn time_turn<R: Clock + Print + Threads + Wait + Sync>(
    rt: &R,
    alloc: Global,
    is_timed: bool,
    hash: TimedHash,
    listed: &Listed,
) -> io::Result<()> {
    for (name, step) in &STEPS {
        let start = Instant::now(rt)?;
        let calls = do_step(rt, alloc, hash, listed, *step);
        print_step(rt, start, is_timed, name, calls)?;
    }
    Ok(())
}

// Returns how many hashes were made, or 0 if they were wrong.
fn do_step<R: Threads + Wait + Sync>(
    rt: &R,
    alloc: Global,
    hash: TimedHash,
    listed: &Listed,
    step: Step,
) -> Result<u64, Refusal> {
    let sum = match step {
        Step::Alone(at_once) => sum_alone(hash, listed, at_once),
        Step::By(workers) => sum_by(rt, alloc, hash, listed, workers)?,
    };
    Ok(if sum == listed.sum {
        listed.pairs.len() as u64
    } else {
        0
    })
}
