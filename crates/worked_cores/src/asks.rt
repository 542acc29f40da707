//! Requests with their expected verdicts, and what is seen of machines that serve them.
//!
//! Machines are made, served and dropped in functions without clauses that return plain data. So a test has little to
//! prove: it makes a list of lines and compares what was seen.
use crate::checks::{holds, holds_at};
use merge_core::Core;
use page_digest::PageHash;
use page_model::{Request, Verdict};
use std::alloc::{Allocator, Global};
use std::process::Abort;
use worked_answers::{Answer, answer_of};

/// What a guest requests. A store begins at the page's first byte.
#[derive(Clone, Copy)]
pub enum Ask {
    Store(u32, u8),
    Propose(u32),
    Release(u32),
    Count,
}

/// The guest, what it requests, and the expected answer.
pub type Line = (u8, Ask, Answer);

pub fn request_of(rt: &impl Abort, ask: Ask) -> Request {
    match ask {
        Ask::Store(ppn, byte) => Request::store(ppn, 0, &[byte]).ok().expect(rt, "a store"),
        Ask::Propose(ppn) => Request::Propose(ppn),
        Ask::Release(ppn) => Request::Release(ppn),
        Ask::Count => Request::Count,
    }
}

fn verdict_on<H: PageHash, A: Allocator>(
    rt: &impl Abort,
    core: &mut Core<H, A>,
    guest: u8,
    ask: Ask,
) -> Verdict {
    holds(rt, guest < core.guests());
    holds(rt, core.entries() < 1_000_000);
    core.apply(guest, &request_of(rt, ask))
}

pub fn serve<H: PageHash, A: Allocator>(rt: &impl Abort, core: &mut Core<H, A>, lines: &[Line]) {
    for (at, (guest, ask, answer)) in lines.iter().enumerate() {
        let verdict = verdict_on(rt, core, *guest, *ask);
        holds_at(rt, (at, &verdict), answer_of(&verdict) == *answer);
    }
}

/// Returns the report's numbers: entries, mapped, shared, frames, reclaimed, hints.
pub fn numbers<H: PageHash, A: Allocator>(core: &Core<H, A>) -> [u32; 6] {
    worked_answers::numbers(&core.report())
}

/// Makes a core whose salts are all 0.
pub fn core_of<H: PageHash + Drop, A: Allocator + Clone>(
    rt: &impl Abort,
    alloc: A,
    frames: u32,
    pages: &[u32],
    hash: H,
) -> Core<H, A> {
    let salts = [0; 64];
    holds(rt, pages.len() <= 64);
    Core::new(alloc, frames, pages, &salts[..pages.len()], hash)
        .ok()
        .expect(rt, "a core")
}

/// Three pages of one content share one frame: two of guest 0, and one of guest 1.
pub const SHARE_THREE: [Line; 6] = [
    (0, Ask::Store(0, b'A'), Answer::Mapped),
    (0, Ask::Store(1, b'A'), Answer::Mapped),
    (1, Ask::Store(0, b'A'), Answer::Mapped),
    (0, Ask::Propose(0), Answer::Hinted),
    (0, Ask::Propose(1), Answer::Paired),
    (1, Ask::Propose(0), Answer::Joined(3)),
];

pub fn share_three<H: PageHash, A: Allocator>(rt: &impl Abort, core: &mut Core<H, A>) {
    serve(rt, core, &SHARE_THREE);
    holds(rt, numbers(core) == [6, 3, 3, 1, 2, 0]);
}

/// Stores the same to each of guest 0's first `count` pages, which are unmapped.
pub fn store_each<H: PageHash>(rt: &impl Abort, core: &mut Core<H>, count: u32) {
    for ppn in 0..count {
        serve(rt, core, &[(0, Ask::Store(ppn, b'A'), Answer::Mapped)]);
    }
}

/// Names guest 0's first `count` pages, each by its guest and number.
pub fn first_pages(rt: &impl Abort, alloc: Global, count: u32) -> Vec<(u8, u32)> {
    let mut pages = Vec::new(alloc);
    for ppn in 0..count {
        pages.push((0, ppn)).expect(rt, "memory for the pages");
    }
    pages
}

/// Returns the page's frame.
pub fn frame<H: PageHash, A: Allocator>(
    rt: &impl Abort,
    core: &Core<H, A>,
    guest: u8,
    ppn: u32,
) -> Option<u32> {
    holds(rt, guest < core.guests());
    holds(rt, ppn < core.pages(guest));
    core.frame(guest, ppn)
}
