//! Whole runs, one thread for each guest, compared with the same scripts through a core on one thread.
//!
//! Scripts are made before the clock starts. Both times include making the machine.
ghost use Rattle.std.specs.Prelude.{◌≡◌, false, All};
ghost use Rattle.share_rings.specs.Closing.{has_close};

use crate::machines::{Case, config, new_core, run_scripts, serve_all};
use crate::requests::{Mix, scripts};
use crate::step::print_made;
use crate::timed_hash::TimedHash;
use merge_run::Config;
use page_model::{MAX_FRAMES, MAX_PAGES, Request};
use std::alloc::Global;
use std::io;
use std::rt::Clock;
use std::sync::Wait;
use std::thread::Threads;
use std::time::Instant;

// How many requests each guest makes in a try.
const FEW: u32 = 100;

const MOST: u32 = 100_000;

// How many guests a run has.
const GUESTS: [u8; 5] = [1, 2, 4, 8, 64];

/// Makes the largest machine. Then serves as many requests of each guest as asked for, for 1, 2, 4, 8 and 64 guests over rings of
/// 256 items. The requests are a mix with a proposal in 16, and then stores and loads alone. With no number it serves a few.
pub fn time_runs<R: Clock + Threads + Wait + Print + Sync>(
    rt: &R,
    alloc: Global,
    asked: Option<u32>,
    hash: TimedHash,
) -> io::Result<()> {
    let (requests, is_timed) = (asked.unwrap_or(FEW).min(MOST), asked.is_some());
    time_the_largest(rt, alloc, is_timed, hash)?;
    for guests in &GUESTS {
        time_mixes(rt, alloc, is_timed, hash, *guests, requests)?;
    }
    Ok(())
}

// Times so many requests of each of these guests, of both mixes.
fn time_mixes<R: Clock + Threads + Wait + Print + Sync>(
    rt: &R,
    alloc: Global,
    is_timed: bool,
    hash: TimedHash,
    guests: u8,
    requests: u32,
) -> io::Result<()> {
    for mix in &[Mix::Proposals, Mix::Plain] {
        let case = Case {
            guests,
            mix: *mix,
            requests,
        };
        time_threads(rt, alloc, is_timed, hash, case)?;
        time_one_thread(rt, alloc, is_timed, hash, case)?;
    }
    Ok(())
}

fn time_the_largest<R: Clock + Print>(
    rt: &R,
    alloc: Global,
    is_timed: bool,
    hash: TimedHash,
) -> io::Result<()> {
    let start = Instant::now(rt)?;
    let made = match new_core(alloc, MAX_FRAMES, &[MAX_PAGES], &[0], hash) {
        Ok(core) => Ok((core, 1)),
        Err(refusal) => Err(refusal),
    };
    print_made(rt, start, is_timed, "the largest machine", made)
}

fn time_threads<R: Clock + Threads + Wait + Print + Sync>(
    rt: &R,
    alloc: Global,
    is_timed: bool,
    hash: TimedHash,
    case: Case,
) -> io::Result<()> {
    let config = config(alloc, case)?;
    let scripts = scripts(alloc, case.mix, case.guests, case.requests)?;
    print!(rt; "{} guests, ", case.guests)?;
    let name = match case.mix {
        Mix::Proposals => "a proposal in 16",
        Mix::Plain => "stores and loads",
    };
    time_run(rt, alloc, is_timed, hash, &config, scripts, name)
}

fn time_run<R: Clock + Threads + Wait + Print + Sync>(
    rt: &R,
    alloc: Global,
    is_timed: bool,
    hash: TimedHash,
    config: &Config,
    scripts: Vec<Vec<Request>>,
    name: &str,
) -> io::Result<()>
    requires { All (λ script. has_close script.items ≡ false) scripts.items }
{
    let start = Instant::now(rt)?;
    let finished = run_scripts(rt, alloc, config, hash, scripts);
    print_made(rt, start, is_timed, name, finished)
}

fn time_one_thread<R: Clock + Print>(
    rt: &R,
    alloc: Global,
    is_timed: bool,
    hash: TimedHash,
    case: Case,
) -> io::Result<()> {
    let config = config(alloc, case)?;
    print!(rt; "{} guests, ", case.guests)?;
    let name = match case.mix {
        Mix::Proposals => "a proposal in 16, one thread",
        Mix::Plain => "stores and loads, one thread",
    };
    let start = Instant::now(rt)?;
    let served = serve_all(alloc, &config, hash, case);
    print_made(rt, start, is_timed, name, served)
}
