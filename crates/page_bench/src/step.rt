//! What is printed of each step.
use std::io;
use std::rt::Clock;
use std::time::Instant;

/// Why a step made no calls, in words.
pub type Refusal = &'static str;

/// Prints how many calls a step made since `start`, and how long they took if it is timed; or why it made none.
pub fn print_step<R: Clock + Print>(
    rt: &R,
    start: Instant,
    is_timed: bool,
    name: &str,
    calls: Result<u64, Refusal>,
) -> io::Result<()> {
    let nanos = start.elapsed(rt)?.as_nanos().min(u128::from(u64::MAX)) as u64;
    match calls {
        Err(refusal) => print_refusal(rt, name, refusal),
        Ok(calls) if is_timed => println!(rt; "{name}: {calls} in {nanos} ns"),
        Ok(calls) => println!(rt; "{name}: {calls}"),
    }
}

/// Prints the same of a step that made something, which is dropped after the time was taken.
pub fn print_made<R: Clock + Print, T: Drop>(
    rt: &R,
    start: Instant,
    is_timed: bool,
    name: &str,
    made: Result<(T, u64), Refusal>,
) -> io::Result<()> {
    let calls = match &made {
        Ok((_made, calls)) => Ok(*calls),
        Err(refusal) => Err(*refusal),
    };
    print_step(rt, start, is_timed, name, calls)
}

/// Prints why a step made no calls.
pub fn print_refusal<R: Print>(rt: &R, name: &str, refusal: Refusal) -> io::Result<()> {
    println!(rt; "{name}: {refusal}")
}
