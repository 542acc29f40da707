//! The calls of `Frames`.
use crate::frame_calls::{Held, give_back_others, hold, take_all, write_all};
use crate::step::{print_refusal, print_step};
use std::alloc::Global;
use std::io;
use std::rt::Clock;
use std::time::Instant;

// How many frames a try takes.
const FEW: u32 = 8;

#[derive(Clone, Copy)]
enum Step {
    TakeZeroed,
    Write,
    GiveBack,
    TakeCopy,
}

const STEPS: [(&str, Step); 6] = [
    ("take_zeroed, first", Step::TakeZeroed),
    ("write of 64 bytes", Step::Write),
    ("give_back", Step::GiveBack),
    ("take_zeroed, again", Step::TakeZeroed),
    ("give_back", Step::GiveBack),
    ("take_copy, again", Step::TakeCopy),
];

/// Times them over as many frames as asked for, or only tries them.
pub fn time_frames<R: Clock + Print>(rt: &R, alloc: Global, asked: Option<u32>) -> io::Result<()> {
    let Some(mut held) = hold(alloc, asked.unwrap_or(FEW)) else {
        return print_refusal(rt, "frames", "no memory");
    };
    time_steps(rt, asked.is_some(), &mut held)
}

fn time_steps<R: Clock + Print>(rt: &R, is_timed: bool, held: &mut Held) -> io::Result<()> {
    for (name, step) in &STEPS {
        let start = Instant::now(rt)?;
        let calls = do_step(held, *step);
        print_step(rt, start, is_timed, name, Ok(u64::from(calls)))?;
    }
    Ok(())
}

fn do_step(held: &mut Held, step: Step) -> u32 {
    match step {
        Step::TakeZeroed => take_all(held, false),
        Step::Write => write_all(held, &[0x41; 64]),
        Step::GiveBack => give_back_others(held),
        Step::TakeCopy => take_all(held, true),
    }
}
