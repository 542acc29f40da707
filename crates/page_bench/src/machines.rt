//! The machines of runs, and what they serve.
ghost use Rattle.std.specs.Prelude.{◌≡◌, false, All};
ghost use Rattle.share_rings.specs.Closing.{has_close};

use crate::requests::{Mix, PAGES, request};
use crate::step::Refusal;
use crate::timed_hash::TimedHash;
use merge_core::Core;
use merge_run::{Config, Finished, OpenGate, RunFault, run};
use page_model::{MAX_ENTRIES, Request};
use std::alloc::{AllocError, Global};
use std::sync::Wait;
use std::thread::Threads;

// Room for eight proposals of one guest, as many pages as are hashed at once, and for those that come meanwhile.
const RING: u32 = 256;

/// A run: how many guests there are, what they request, and how often.
#[derive(Clone, Copy)]
pub struct Case {
    pub guests: u8,
    pub mix: Mix,
    pub requests: u32,
}

/// Returns what its machine is made of.
pub fn config(alloc: Global, case: Case) -> Result<Config, AllocError> {
    let guests = usize::from(case.guests);
    Ok(Config {
        frames: u32::from(case.guests) * PAGES,
        pages: vec![in alloc; PAGES; guests]?,
        salts: vec![in alloc; 0u32; guests]?,
        ring: RING,
        journal: case
            .requests
            .saturating_add(1)
            .saturating_mul(u32::from(case.guests)),
    })
}

/// Runs these scripts, with a thread for each guest. Returns what is left, and how many requests were served.
pub fn run_scripts<R: Threads + Wait + Sync>(
    rt: &R,
    alloc: Global,
    config: &Config,
    hash: TimedHash,
    scripts: Vec<Vec<Request>>,
) -> Result<(Finished<TimedHash>, u64), Refusal>
    requires { All (λ script. has_close script.items ≡ false) scripts.items }
{
    if scripts.len() != config.pages.len() {
        return Err("not a script for each guest");
    }
    match run(rt, alloc, config, hash, scripts, &OpenGate) {
        Ok(finished) => {
            let served = finished.settled.journal().len() as u64;
            Ok((finished, served))
        }
        Err(RunFault::NoThread) => Err("no thread"),
        Err(_) => Err("no machine"),
    }
}

/// Makes a machine.
pub fn new_core(
    alloc: Global,
    frames: u32,
    pages: &[u32],
    salts: &[u32],
    hash: TimedHash,
) -> Result<Core<TimedHash>, Refusal> {
    match Core::new(alloc, frames, pages, salts, hash) {
        Ok(core) => Ok(core),
        Err(_) => Err("no machine"),
    }
}

/// Makes the machine of a run, and serves all requests of each guest in turn and then the closes, on one thread. Returns the
/// machine and how many it served.
pub fn serve_all(
    alloc: Global,
    config: &Config,
    hash: TimedHash,
    case: Case,
) -> Result<(Core<TimedHash>, u64), Refusal> {
    let mut core = new_core(alloc, config.frames, &config.pages, &config.salts, hash)?;
    serve_turns(&mut core, case);
    let served = u64::from(core.entries());
    Ok((core, served))
}

fn serve_turns(core: &mut Core<TimedHash>, case: Case) {
    for n in 0..case.requests.saturating_add(1) {
        serve_turn(core, case, n);
    }
}

// Serves request number n of each guest, unless the journal of a run would be full.
fn serve_turn(core: &mut Core<TimedHash>, case: Case, n: u32) {
    if core.entries() > MAX_ENTRIES {
        return;
    }
    for guest in 0..core.guests() {
        core.apply(guest, &request_or_close(case, guest, n));
    }
}

fn request_or_close(case: Case, guest: u8, n: u32) -> Request {
    if n < case.requests {
        request(case.mix, guest, n)
    } else {
        Request::Close
    }
}
