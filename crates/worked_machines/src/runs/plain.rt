//! Whole runs whose answers are plain data. No function here that a test calls has a clause, so no test carries those
//! of a run.
ghost use Rattle.std.specs.Prelude.{◌≡◌};
ghost use Rattle.merge_run.specs.Runs.{CanBeRun};

use crate::runs::answers::lists_of;
use crate::runs::makes::{Ask, Numbers, Setting, setting_of};
use crate::runs::replays::check_replay;
use merge_run::{Config, Finished, Gate, RunFault, run};
use page_digest::{PageHash, Sha256Hash};
use page_model::Request;
use std::alloc::{Allocator, Global};
use std::process::Abort;
use std::sync::Wait;
use std::thread::Threads;
use worked_answers::{Answer, numbers};

/// What a test compares of a run.
#[derive(Drop)]
pub struct Outcome {
    /// Each guest's answers, oldest first, and guest 0's list first.
    pub answers: Vec<Vec<Answer>>,
    /// The report's numbers: entries, mapped, shared, frames, reclaimed, hints.
    pub report: [u32; 6],
    /// How many entries the journal has.
    pub journal: usize,
}

/// Whether there is such a guest, and these are its answers, oldest first.
pub fn got(ran: &Outcome, guest: usize, answers: &[Answer]) -> bool {
    match ran.answers.get(guest) {
        Some(list) => list.as_slice() == answers,
        None => false,
    }
}

fn compared<H: PageHash + Drop, A: Allocator>(
    rt: &impl Abort,
    alloc: Global,
    finished: &Finished<H, A>,
) -> Outcome {
    Outcome {
        answers: lists_of(alloc, &finished.verdicts).expect(rt, "memory for the answers"),
        report: numbers(&finished.settled.report()),
        journal: finished.settled.journal().len(),
    }
}

/// Runs the scripts.
fn run_plainly<
    R: Threads + Wait + Sync,
    H: PageHash + Drop,
    A: Allocator + Copy + Send + Sync,
    G: Gate + Sync,
>(
    rt: &R,
    alloc: A,
    config: &Config<A>,
    hash: H,
    scripts: Vec<Vec<Request, A>, A>,
    gate: &G,
) -> Result<Finished<H, A>, RunFault>
    requires { CanBeRun config.now scripts.items }
{
    run(rt, alloc, config, hash, scripts, gate)
}

/// Runs these scripts. All memory of the run is from `heap`, and that of the answers from `alloc`.
pub fn ran<
    R: Threads + Wait + Sync + Abort,
    H: PageHash + Drop,
    A: Allocator + Copy + Send + Sync,
    G: Gate + Sync,
>(
    rt: &R,
    alloc: Global,
    heap: A,
    numbers: &Numbers<'_>,
    asks: &[&[Ask]],
    hash: H,
    gate: &G,
) -> Result<Outcome, RunFault> {
    let Setting { config, scripts } = setting_of(rt, heap, numbers, asks);
    let finished = run_plainly(rt, heap, &config, hash, scripts, gate)?;
    Ok(compared(rt, alloc, &finished))
}

/// Runs these scripts, and checks that one thread replays the journal to the same verdicts and report.
pub fn replayed<R: Threads + Wait + Sync + Abort, G: Gate + Sync>(
    rt: &R,
    alloc: Global,
    numbers: &Numbers<'_>,
    asks: &[&[Ask]],
    gate: &G,
) -> Outcome {
    let Setting { config, scripts } = setting_of(rt, alloc, numbers, asks);
    let finished = run_plainly(rt, alloc, &config, Sha256Hash, scripts, gate).expect(rt, "a run");
    check_replay(rt, alloc, &config, &finished);
    compared(rt, alloc, &finished)
}
