//! The calls of `Table`.
use crate::step::{print_refusal, print_step};
use crate::table_calls::{
    AddShared, DropHint, FindHint, FindShared, Join, Leave, PutHint, TimedTable, by_jumps,
    in_order, new_table,
};
use std::alloc::Global;
use std::io;
use std::rt::Clock;
use std::time::Instant;

// How many entries a try has.
const FEW: u32 = 8;

#[derive(Clone, Copy)]
enum Step {
    AddShared,
    PutHint,
    FindShared,
    FindHint,
    Join,
    Leave,
    DropHint,
}

// The table is filled, searched and emptied again.
const STEPS: [(&str, Step); 9] = [
    ("add_shared", Step::AddShared),
    ("put_hint", Step::PutHint),
    ("find_shared", Step::FindShared),
    ("find_hint", Step::FindHint),
    ("join", Step::Join),
    ("leave", Step::Leave),
    ("leave, again", Step::Leave),
    ("leave, the last", Step::Leave),
    ("drop_hint", Step::DropHint),
];

/// Times them over as many entries as asked for, or only tries them.
pub fn time_table<R: Clock + Print>(rt: &R, alloc: Global, asked: Option<u32>) -> io::Result<()> {
    let Some(mut timed) = new_table(alloc, asked.unwrap_or(FEW)) else {
        return print_refusal(rt, "table", "no memory");
    };
    time_steps(rt, asked.is_some(), &mut timed)
}

fn time_steps<R: Clock + Print>(rt: &R, is_timed: bool, timed: &mut TimedTable) -> io::Result<()> {
    for (name, step) in &STEPS {
        let start = Instant::now(rt)?;
        let calls = do_step(timed, *step);
        print_step(rt, start, is_timed, name, Ok(u64::from(calls)))?;
    }
    Ok(())
}

// Returns how many calls were made.
fn do_step(timed: &mut TimedTable, step: Step) -> u32 {
    let shared = timed.capacity / 4;
    let hints = timed.capacity - shared;
    match step {
        Step::AddShared => in_order::<AddShared>(timed, shared),
        Step::PutHint => in_order::<PutHint>(timed, hints),
        Step::FindShared => by_jumps::<FindShared>(timed, shared),
        Step::FindHint => by_jumps::<FindHint>(timed, hints),
        Step::Join => by_jumps::<Join>(timed, shared),
        Step::Leave => by_jumps::<Leave>(timed, shared),
        Step::DropHint => by_jumps::<DropHint>(timed, hints),
    }
}
