//! Machines under SHA-256 whose salts are all 0, and their calls.
use crate::answers::{Reply, got, rounded, sent, stepped};
use crate::checks::holds;
use merge_run::{Config, Fault, Machine, Merger};
use page_digest::Sha256Hash;
use share_rings::Port;
use std::alloc::Allocator;
use std::process::Abort;
use std::sync::Wait;
use std::thread::Threads;

/// A machine's merger.
pub type Merging<A> = Merger<Sha256Hash, A>;

/// Makes a machine whose salts are all 0.
pub fn new_machine<A: Allocator + Copy>(
    alloc: A,
    frames: u32,
    pages: &[u32],
    ring: u32,
    journal: u32,
) -> Result<(Merging<A>, Vec<Port<A>, A>), Fault> {
    let config = Config {
        frames,
        pages: Vec::from_slice(alloc, pages)?,
        salts: vec![in alloc; 0; pages.len()]?,
        ring,
        journal,
    };
    Machine::new(alloc, &config, Sha256Hash)
}

/// Serves one request of a guest.
pub fn step<A: Allocator>(rt: &impl Abort, merger: &mut Merging<A>, guest: u8) -> Reply {
    holds(rt, (guest as usize) < merger.ends().len());
    stepped(merger.step(guest))
}

/// Serves a round.
pub fn round<R: Threads + Wait + Sync + Abort, A: Allocator + Sync, B: Allocator + Clone + Send>(
    rt: &R,
    lists: B,
    merger: &mut Merging<A>,
    workers: u32,
    limit: u32,
) -> Reply {
    holds(rt, 1 <= workers);
    holds(rt, workers <= 64);
    holds(rt, 1 <= limit);
    holds(rt, limit <= 1024);
    rounded(merger.round(rt, lists, workers, limit))
}

/// Stores two bytes at the beginning of a page.
pub fn store<A: Allocator>(port: &mut Port<A>, ppn: u32, bytes: [u8; 2]) -> Reply {
    sent(port.store(ppn, 0, &bytes))
}

/// Loads the first byte of a guest's first page.
pub fn load<A: Allocator>(port: &mut Port<A>) -> Reply {
    sent(port.load(0, 0, 1))
}

/// Proposes a page.
pub fn propose<A: Allocator>(port: &mut Port<A>, ppn: u32) -> Reply {
    sent(port.propose(ppn))
}

/// Returns a guest's next verdict.
pub fn verdict<A: Allocator>(port: &mut Port<A>) -> Reply {
    got(port.verdict())
}
