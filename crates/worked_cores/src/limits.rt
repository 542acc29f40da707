//! The largest machine.
use crate::asks::{Ask, Line, frame, numbers, serve};
use crate::checks::equal;
use merge_core::Core;
use page_digest::FirstByteHash;
use page_model::{MAX_FRAMES, MAX_PAGES, MachineShape};
use std::alloc::Global;
use std::process::Abort;
use worked_answers::Answer;

/// Makes a machine of the most frames and of one guest with the most pages.
fn greatest(rt: &impl Abort, alloc: Global) -> Core<FirstByteHash> {
    let shape = MachineShape::new(MAX_FRAMES, &[MAX_PAGES], &[0]).expect(rt, "a shape");
    Core::with_shape(alloc, &shape, FirstByteHash).expect(rt, "a core")
}

/// Returns the same of any machine.
fn seen_of(
    rt: &impl Abort,
    core: &mut Core<FirstByteHash>,
    lines: &[Line],
    ppn: u32,
) -> ([u32; 6], bool, u32) {
    serve(rt, core, lines);
    let is_mapped = frame(rt, core, 0, ppn).is_some();
    (numbers(core), is_mapped, core.frames().total())
}

/// Returns the report of the largest machine once it has served these lines, whether guest 0's page is mapped, and the
/// frames.
fn greatest_served(
    rt: &impl Abort,
    alloc: Global,
    lines: &[Line],
    ppn: u32,
) -> ([u32; 6], bool, u32) {
    let mut core = greatest(rt, alloc);
    seen_of(rt, &mut core, lines, ppn)
}

/// Of the room that the largest machine takes, that of the frames is reserved and not touched.
#[test]
fn most_frames_and_pages(rt: HostRuntime) {
    let last = MAX_PAGES - 1;
    let lines = [
        (0, Ask::Store(last, b'A'), Answer::Mapped),
        (0, Ask::Propose(last), Answer::Hinted),
        (0, Ask::Store(MAX_PAGES, b'A'), Answer::NoPage),
    ];
    let served = greatest_served(&rt, rt.alloc(), &lines, last);
    equal(&rt, served, ([3, 1, 0, 1, 0, 1], true, MAX_FRAMES));
}
