//! A viewer who is shown a run as it goes on.
ghost use Rattle.std.specs.Prelude.{◌≡◌, false, All, length, IfOk};
ghost use Rattle.share_rings.specs.Closing.{has_close};

use crate::checks::{equal, holds};
use crate::watches::config::config_of;
use page_digest::Sha256Hash;
use page_model::{Report, Request};
use std::alloc::{AllocError, Allocator};
use std::process::Abort;
use std::sync::Wait;
use std::sync::atomic::{AtomicBool, AtomicU32, Ordering};
use std::thread;
use std::thread::Threads;
use watched_machine::{Gate, Viewer, run};

// Enough tries for some seconds.
const TRIES: u64 = 1 << 24;

/// Notes what it is shown, and if that falls. The guest sends each request only after all that came before was shown.
#[derive(Drop)]
struct Showing {
    entries: AtomicU32,
    failed: AtomicBool,
}

impl Viewer for Showing {
    fn show(&self, report: &Report) {
        let before = self.entries.swap(report.entries(), Ordering::SeqCst);
        if before > report.entries() {
            self.failed.store(true, Ordering::SeqCst);
        }
    }
}

impl Gate for Showing {
    fn before(&self, _guest: u8, nth: u32) {
        for _ in 0..TRIES {
            if self.entries.load(Ordering::SeqCst) == nth {
                return;
            }
            thread::yield_now();
        }
        self.failed.store(true, Ordering::SeqCst);
    }

    fn after(&self, _guest: u8, _nth: u32) {}
}

/// Makes the script of one guest, which requests the counts three times.
fn three_counts<A: Allocator + Copy>(alloc: A) -> Result<Vec<Vec<Request, A>, A>, AllocError>
    ensures each { IfOk result (λ scripts. length scripts.items ≡ 1) }
    ensures plain { IfOk result (λ scripts. All (λ script. has_close script.items ≡ false) scripts.items) }
{
    let mut script = Vec::with_capacity(alloc, 3)?;
    script.push_reserved(Request::Count);
    script.push_reserved(Request::Count);
    script.push_reserved(Request::Count);
    let mut scripts = Vec::with_capacity(alloc, 1)?;
    scripts.push_reserved(script);
    Ok(scripts)
}

/// Runs the guest, and returns how many entries the run has.
fn entries_of_run<R: Threads + Wait + Abort + Sync, A: Allocator + Copy + Send + Sync>(
    rt: &R,
    alloc: A,
    showing: &Showing,
) -> u32 {
    let config = config_of(alloc, 1, &[1], 3, 4).expect(rt, "memory");
    let scripts = three_counts(alloc).expect(rt, "memory");
    match run(rt, alloc, &config, Sha256Hash, scripts, showing, showing) {
        Ok(finished) => finished.unwatched(rt).settled.report().entries(),
        Err(_) => panic!(rt; "no run"),
    }
}

// The guest waits with each request until the viewer was shown all those before it, so the run ends only if each of its reports
// is published while it works, and another thread reads them and shows them all. The last report is that of the whole run.
#[test]
fn viewer_is_shown_a_run_that_goes_on(rt: HostRuntime) {
    let showing = Showing {
        entries: AtomicU32::new(0),
        failed: AtomicBool::new(false),
    };
    let entries = entries_of_run(&rt, rt.alloc(), &showing);
    holds(&rt, !showing.failed.load(Ordering::SeqCst));
    equal(&rt, showing.entries.load(Ordering::SeqCst), 4);
    equal(&rt, entries, 4);
}
