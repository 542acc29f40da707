//! `merge_core`: a machine on one thread.
use crate::checks::holds;
use merge_core::{Core, CoreFault};
use page_digest::Sha256Hash;
use page_model::{Request, Verdict};
use std::alloc::Global;
use std::process::Abort;
use std::sync::Wait;
use std::thread::Threads;

/// Applies a request of guest 0.
fn apply(rt: &impl Abort, core: &mut Core<Sha256Hash>, request: &Request) -> Verdict {
    holds(rt, core.guests() > 0);
    holds(rt, core.entries() < 1_000);
    core.apply(0, request)
}

/// Proposes page 0 of guest 0, whose hash is computed first.
fn propose_hashed<R: Threads + Wait + Sync + Abort>(
    rt: &R,
    alloc: Global,
    core: &mut Core<Sha256Hash>,
) -> Verdict {
    holds(rt, core.guests() > 0);
    holds(rt, core.entries() < 1_000);
    let hashes = core
        .hash_ahead(rt, alloc, 2, &[(0, 0)])
        .expect(rt, "memory");
    match hashes[0] {
        None => core.apply(0, &Request::Propose(0)),
        Some(hash) => core.apply_hashed(0, &Request::Propose(0), hash),
    }
}

/// Returns the first byte of page 0 of guest 0, and whether it has a frame.
fn look(rt: &impl Abort, core: &Core<Sha256Hash>) -> (u8, bool) {
    holds(rt, core.guests() > 0);
    holds(rt, core.pages(0) > 0);
    (core.read(0, 0, 0), core.frame(0, 0).is_some())
}

/// Serves a store and a proposal. Returns what is seen then: a byte, whether the page has a frame, and how many frames are used
/// and how many entries the table has.
fn serve_two<R: Threads + Wait + Sync + Abort>(
    rt: &R,
    alloc: Global,
) -> (Verdict, (u8, bool), u32, u32) {
    let mut core = Core::new(alloc, 1, &[1], &[0], Sha256Hash).expect(rt, "memory");
    let stored = apply(
        rt,
        &mut core,
        &Request::store(0, 0, &[0x41]).expect(rt, "memory"),
    );
    holds(rt, stored == Verdict::Mapped);
    let verdict = propose_hashed(rt, alloc, &mut core);
    holds(rt, core.report().entries() == 2);
    (
        verdict,
        look(rt, &core),
        core.frames().used(),
        core.table().len(),
    )
}

/// Returns why there is no machine of these frames.
fn fault_of(alloc: Global, frames: u32) -> Option<CoreFault> {
    Core::new(alloc, frames, &[1], &[0], Sha256Hash).err()
}

#[test]
fn a_core(rt: HostRuntime) {
    let seen = serve_two(&rt, rt.alloc());
    holds(&rt, seen == (Verdict::Hinted, (0x41, true), 1, 1));
    holds(&rt, fault_of(rt.alloc(), 0) == Some(CoreFault::Frames));
}
