//! Pages that are hashed together with a proposed one, as the requests in sight will leave them.
use crate::asks::{Ask, Line, core_of, request_of};
use crate::checks::{equal, holds, holds_at};
use crate::hashes::{Calls, Lanes};
use merge_core::Core;
use page_digest::PageHash;
use page_model::Entry;
use std::alloc::{Allocator, Global};
use std::process::Abort;
use worked_answers::{Answer, answer_of};

/// Returns the requests of these lines.
fn entries_of(rt: &impl Abort, alloc: Global, lines: &[Line]) -> Vec<Entry> {
    let mut entries = Vec::new(alloc);
    for (guest, ask, _) in lines {
        let guest = *guest;
        let request = request_of(rt, *ask);
        entries
            .push(Entry { guest, request })
            .expect(rt, "memory for the entries");
    }
    entries
}

/// Serves the first of these entries, with the others in sight.
fn answer_ahead<H: PageHash, A: Allocator>(
    rt: &impl Abort,
    core: &mut Core<H, A>,
    entries: &[Entry],
) -> Answer {
    holds(rt, !entries.is_empty());
    let Entry { guest, request } = &entries[0];
    holds(rt, *guest < core.guests());
    holds(rt, core.entries() < 1_000_000);
    answer_of(&core.apply_ahead(*guest, request, &entries[1..]))
}

/// Serves these entries, each with all that come after it in sight, and compares the answers.
fn serve_entries<H: PageHash, A: Allocator>(
    rt: &impl Abort,
    core: &mut Core<H, A>,
    entries: &[Entry],
    lines: &[Line],
) {
    for (at, (_, _, answer)) in lines.iter().enumerate() {
        holds(rt, at < entries.len());
        let served = answer_ahead(rt, core, &entries[at..]);
        holds_at(rt, at, served == *answer);
    }
}

/// Serves these lines, each with all that come after it in sight.
fn serve_ahead<H: PageHash, A: Allocator>(
    rt: &impl Abort,
    alloc: Global,
    core: &mut Core<H, A>,
    lines: &[Line],
) {
    serve_entries(rt, core, &entries_of(rt, alloc, lines), lines);
}

/// Returns how many pages are hashed alone, by fours and by eights when these lines are served on a new machine of two guests
/// with eight pages each.
fn hashed(rt: &impl Abort, alloc: Global, lines: &[Line]) -> (u32, u32, u32) {
    let calls = Calls::new();
    let mut core = core_of(rt, alloc, 16, &[8, 8], Lanes(&calls));
    serve_ahead(rt, alloc, &mut core, lines);
    calls.counts()
}

/// Each page is stored to and then proposed, with two guests in turn.
const STORED_AND_PROPOSED: [Line; 11] = [
    (0, Ask::Store(0, b'A'), Answer::Mapped),
    (0, Ask::Propose(0), Answer::Hinted),
    (1, Ask::Store(0, b'B'), Answer::Mapped),
    (1, Ask::Propose(0), Answer::Hinted),
    (0, Ask::Store(1, b'C'), Answer::Mapped),
    (0, Ask::Store(1, b'B'), Answer::Stored),
    (0, Ask::Propose(1), Answer::Paired),
    (1, Ask::Store(1, b'D'), Answer::Mapped),
    (1, Ask::Propose(1), Answer::Hinted),
    (0, Ask::Store(2, b'E'), Answer::Mapped),
    (0, Ask::Propose(2), Answer::Hinted),
];

/// Four are hashed at once, then the last one alone.
#[test]
fn stored_and_proposed(rt: HostRuntime) {
    equal(
        &rt,
        hashed(&rt, rt.alloc(), &STORED_AND_PROPOSED),
        (1, 4, 0),
    );
}

/// Pages at rest are hashed four at once, before those that are stored to first.
#[test]
fn at_rest(rt: HostRuntime) {
    let lines = [
        (0, Ask::Store(0, b'A'), Answer::Mapped),
        (0, Ask::Store(1, b'B'), Answer::Mapped),
        (0, Ask::Store(2, b'C'), Answer::Mapped),
        (0, Ask::Store(3, b'D'), Answer::Mapped),
        (0, Ask::Propose(0), Answer::Hinted),
        (0, Ask::Store(4, b'E'), Answer::Mapped),
        (0, Ask::Propose(4), Answer::Hinted),
        (0, Ask::Propose(1), Answer::Hinted),
        (0, Ask::Propose(2), Answer::Hinted),
        (0, Ask::Propose(3), Answer::Hinted),
    ];
    equal(&rt, hashed(&rt, rt.alloc(), &lines), (1, 4, 0));
}

fn stored(ppn: u32) -> Line {
    (0, Ask::Store(ppn, ppn.to_be_bytes()[3]), Answer::Mapped)
}

fn proposed(ppn: u32) -> Line {
    (0, Ask::Propose(ppn), Answer::Hinted)
}

/// Adds the lines by which a page is stored to fifteen times and then proposed.
fn push_sixteen(rt: &impl Abort, lines: &mut Vec<Line>, ppn: u32) {
    for nth in 0..16 {
        let line = match nth {
            0 => stored(ppn),
            15 => proposed(ppn),
            _ => (0, Ask::Store(ppn, ppn.to_be_bytes()[3]), Answer::Stored),
        };
        lines.push(line).expect(rt, "memory for a line");
    }
}

/// Eight pages are hashed at once where one request in 16 is a proposal.
#[test]
fn one_in_sixteen(rt: HostRuntime) {
    let mut lines = Vec::new(rt.alloc());
    for ppn in 0..8 {
        push_sixteen(&rt, &mut lines, ppn);
    }
    equal(&rt, hashed(&rt, rt.alloc(), &lines), (0, 0, 8));
}
