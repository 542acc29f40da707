//! `merge_run`: a run with a thread for its guest, and a gate.
ghost use Rattle.std.specs.Prelude.{◌≡◌, false, All, length, IfOk};
ghost use Rattle.share_rings.specs.Closing.{has_close};

use crate::checks::equal;
use crate::surface::machines::one_guest;
use merge_run::{Gate, OpenGate, RunFault, run};
use page_digest::Sha256Hash;
use page_model::Request;
use std::alloc::{AllocError, Global};
use std::sync::Wait;
use std::sync::atomic::{AtomicU32, Ordering};
use std::thread::Threads;

/// Counts the calls around sends and verdicts.
#[derive(Drop)]
struct Counting {
    calls: AtomicU32,
}

impl Gate for Counting {
    fn before(&self, guest: u8, nth: u32) {
        OpenGate.before(guest, nth);
        self.calls.fetch_add(1, Ordering::SeqCst);
    }

    fn after(&self, guest: u8, nth: u32) {
        OpenGate.after(guest, nth);
        self.calls.fetch_add(1, Ordering::SeqCst);
    }
}

/// Makes the script of one guest: a count.
fn scripts(alloc: Global) -> Result<Vec<Vec<Request>>, AllocError>
    ensures each { IfOk result (λ scripts. length scripts.items ≡ 1) }
    ensures plain { IfOk result (λ scripts. All (λ script. has_close script.items ≡ false) scripts.items) }
{
    let mut script = Vec::with_capacity(alloc, 1)?;
    script.push_reserved(Request::Count);
    let mut scripts = Vec::with_capacity(alloc, 1)?;
    scripts.push_reserved(script);
    Ok(scripts)
}

/// Runs the guest, and returns how many verdicts it got and how many entries the run has.
fn verdicts_of_a_run<R: Threads + Wait + Sync>(
    rt: &R,
    alloc: Global,
    gate: &Counting,
) -> Result<(usize, u32), RunFault> {
    let config = one_guest(alloc)?;
    let scripts = scripts(alloc)?;
    let finished = run(rt, alloc, &config, Sha256Hash, scripts, gate)?;
    let verdicts = finished.verdicts.first().map_or(0, |list| list.len());
    Ok((verdicts, finished.settled.report().entries()))
}

#[test]
fn a_run(rt: HostRuntime) {
    let gate = Counting {
        calls: AtomicU32::new(0),
    };
    equal(
        &rt,
        verdicts_of_a_run(&rt, rt.alloc(), &gate).expect(&rt, "memory"),
        (2, 2),
    );
    equal(&rt, gate.calls.load(Ordering::SeqCst), 4);
}
