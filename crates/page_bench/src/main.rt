//! Times the calls that the machine is made of: those of `Frames` and `Table`, the hashes of pages, a request and its verdict
//! through a pair of rings, and whole runs. The first word says which, `frames`, `table`, `hash`, `rings` or `run`, or with the
//! hash type for wider vectors `wide-hash` or `wide-run`. The second says over how many. With no number it only tries them, and
//! with no word it tries each but `wide-run`.
#![tactic(auto)]

mod frame_calls;
mod keys;
mod machines;
mod pages;
mod requests;
mod server;
mod step;
mod table_calls;
mod time_frames;
mod time_hashes;
mod time_rings;
mod time_runs;
mod time_table;
mod timed_hash;

use crate::timed_hash::TimedHash;
use std::alloc::Global;
use std::rt::Clock;
use std::sync::Wait;
use std::thread::Threads;
use std::{env, io};

const TRIED: [&str; 6] = ["frames", "table", "hash", "wide-hash", "rings", "run"];

fn main(rt: HostRuntime) -> io::Result<()> {
    let alloc = rt.alloc();
    let words: Vec<String> = env::args(&rt)?.collect(alloc)?;
    match words.get(1) {
        Some(part) => time_part(&rt, alloc, part, number_in(&words)),
        None => try_each(&rt, alloc),
    }
}

// Returns how many calls the words ask for.
fn number_in(words: &[String]) -> Option<u32> {
    words.get(2)?.parse().ok()
}

fn try_each<R: Clock + Print + Threads + Wait + Sync>(rt: &R, alloc: Global) -> io::Result<()> {
    for part in &TRIED {
        time_part(rt, alloc, part, None)?;
    }
    Ok(())
}

fn time_part<R: Clock + Print + Threads + Wait + Sync>(
    rt: &R,
    alloc: Global,
    part: &str,
    asked: Option<u32>,
) -> io::Result<()> {
    match part {
        "frames" => time_frames::time_frames(rt, alloc, asked),
        "table" => time_table::time_table(rt, alloc, asked),
        "hash" => time_hashes::time_hashes(rt, alloc, asked, TimedHash::Narrow),
        "wide-hash" => time_hashes::time_hashes(rt, alloc, asked, TimedHash::Wide),
        "rings" => time_rings::time_rings(rt, alloc, asked),
        "run" => time_runs::time_runs(rt, alloc, asked, TimedHash::Narrow),
        "wide-run" => time_runs::time_runs(rt, alloc, asked, TimedHash::Wide),
        other => println!(rt; "page_bench: no part is named {other}"),
    }
}
