//! How many threads read.
ghost use Rattle.std.specs.Prelude.{◌≤◌};

use command_terms::{MOST_WORKERS, worker_count};
use std::thread::{self, Threads};

/// Returns how many threads read: as many as asked for, or else one for each processor; one if the system doesn't say.
pub fn workers_of(rt: &impl Threads, asked: Option<u32>) -> u32
    ensures { 1 ≤ result }
{
    worker_count(match asked {
        Some(workers) => workers,
        None => processors(rt),
    })
}

fn processors(rt: &impl Threads) -> u32 {
    match thread::available_parallelism(rt) {
        Ok(count) => u32::try_from(count.get()).unwrap_or(MOST_WORKERS),
        Err(_) => 1,
    }
}
