//! Whole runs, whose machines publish their last report.
ghost use Rattle.std.specs.Prelude.{◌≡◌, false, All, length, IfOk};
ghost use Rattle.share_rings.specs.Closing.{has_close, is_close};
ghost use Rattle.merge_run.specs.Runs.{CanBeRun};

use crate::checks::{equal, equal_at, holds, holds_at};
use crate::watches::config::config_of;
use page_digest::Sha256Hash;
use page_model::{Report, Request, Verdict};
use refusing::Refusing;
use std::alloc::{AllocError, Allocator, Global};
use std::process::Abort;
use std::sync::Wait;
use std::thread::Threads;
use watched_machine::{Config, Finished, OpenGate, RunFault, Viewer, run};

const MOST: u64 = 200;

// The requests before those of the run: the two lists of the configuration, and three for the scripts.
const BEFORE: u64 = 5;

fn store() -> Request
    ensures { is_close result ≡ false }
{
    Request::store(0, 0, &[0x41]).unwrap_or(Request::Count)
}

/// Makes the scripts: a store by each of two guests, of equal bytes. Only guest 1 proposes its page, so each order
/// gives the same verdicts.
fn two_scripts<A: Allocator + Copy>(alloc: A) -> Result<Vec<Vec<Request, A>, A>, AllocError>
    ensures each { IfOk result (λ scripts. length scripts.items ≡ 2) }
    ensures plain { IfOk result (λ scripts. All (λ script. has_close script.items ≡ false) scripts.items) }
{
    let mut first = Vec::with_capacity(alloc, 1)?;
    first.push_reserved(store());
    let mut second = Vec::with_capacity(alloc, 2)?;
    second.push_reserved(store());
    second.push_reserved(Request::Propose(0));
    let mut scripts = Vec::with_capacity(alloc, 2)?;
    scripts.push_reserved(first);
    scripts.push_reserved(second);
    Ok(scripts)
}

/// A viewer that sees nothing.
struct Blind;

impl Viewer for Blind {
    fn show(&self, _report: &Report) {}
}

// Some front of the run was published, or nothing.
fn check_and_end<R: Abort + Wait, A: Allocator>(rt: &R, finished: Finished<Sha256Hash, A>) {
    let Finished {
        mut settled,
        verdicts,
    } = finished;
    let first = [Verdict::Mapped, Verdict::Closed];
    let second = [Verdict::Mapped, Verdict::Hinted, Verdict::Closed];
    holds(rt, verdicts.len() == 2);
    equal(rt, verdicts[0].as_slice(), first.as_slice());
    equal(rt, verdicts[1].as_slice(), second.as_slice());
    equal(rt, settled.report(), Report::new(5, 2, 0, 2, 1));
    let mut watch = settled.watch().expect(rt, "a watch");
    let front = watch.read().expect(rt, "a report");
    holds(rt, front.entries() <= 5);
    settled.end(rt);
}

/// Runs scripts, and looks at the run if it ended. Returns the fault of one that didn't.
fn fault_of_run<R: Threads + Wait + Abort + Sync, A: Allocator + Copy + Send + Sync>(
    rt: &R,
    alloc: A,
    config: &Config<A>,
    scripts: Vec<Vec<Request, A>, A>,
) -> Option<RunFault>
    requires { CanBeRun config.now scripts.items }
{
    match run(rt, alloc, config, Sha256Hash, scripts, &OpenGate, &Blind) {
        Ok(finished) => {
            check_and_end(rt, finished);
            None
        }
        Err(fault) => Some(fault),
    }
}

/// Runs the two scripts.
fn fault_on_heap<R: Threads + Wait + Abort + Sync>(rt: &R, heap: &Refusing) -> Option<RunFault> {
    let config = config_of(heap, 2, &[1, 1], 1, 5).expect(rt, "memory");
    let scripts = two_scripts(heap).expect(rt, "memory");
    fault_of_run(rt, heap, &config, scripts)
}

/// Runs while request number n for memory is refused, and returns whether any was.
fn is_refused<R: Threads + Wait + Abort + Sync>(rt: &R, alloc: Global, n: u64) -> bool {
    let heap = Refusing::new(alloc, n, 0);
    if let Some(fault) = fault_on_heap(rt, &heap) {
        holds_at(rt, n, heap.has_refused());
        equal_at(rt, n, fault, RunFault::OutOfMemory);
    }
    holds_at(rt, n, heap.holds_nothing());
    heap.has_refused()
}

// The nth request for memory is refused, with n counting up until a run has no refusal: those of the run, and then
// those of what it publishes, which stop no run.
#[test]
fn run_refused_in_turn(rt: HostRuntime) {
    for n in BEFORE..BEFORE + MOST {
        if !is_refused(&rt, rt.alloc(), n) {
            return;
        }
    }
    panic!(rt; "each run was refused")
}
