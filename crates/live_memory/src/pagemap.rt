//! `/proc/PID/pagemap`: which pages of a process are in memory.
ghost use Rattle.std.specs.Prelude.{◌≡◌, ◌+◌, ◌-◌, ◌*◌, ◌/◌, ◌%◌, ◌^◌, ◌<◌, ◌≤◌, ◌∷◌, [], ◌++◌, cond, filter, IfErr, IfOk, OnOk, length, replicate};
ghost use Rattle.live_memory.specs.Opened.{IsOfSystem};
ghost use Rattle.live_memory.specs.PageMaps.{is_in, is_page_in, numbers, numbers_in, pages_from, pages_in};
ghost use Rattle.live_memory.specs.Ranges.{AreWhole, IsWhole};

use crate::LiveFault;
use memory_images::{ReadAt, Segment};
use page_model::PAGE_BYTES;
use std::alloc::{AllocError, Allocator};
use std::io;
use std::os::unix::fs::FileExt;

const PAGE: u64 = PAGE_BYTES as u64;

/// The bytes that say what is known of a page.
const ENTRY: u64 = 8;

/// What is known of a page of a process.
#[derive(Clone, Copy, Debug, PartialEq, Eq)]
pub(crate) enum PageState {
    /// It is in memory, or swapped.
    Populated,
    /// It is in memory, and it isn't the process's alone: it shows a frame of `pageshare-host`, or one of KSM or of a parent, or
    /// the system's page of zeros.
    Shared,
}

/// The list of what is known of each page of a process.
///
/// The process changes it at any time, so it isn't steady. Its ghost bytes show only how many there are.
#[derive(Drop)]
pub struct PageMap<F> {
    file: F,
    len: u64,
}

impl<F> PageMap<F> {
    /// Takes the file, `/proc/PID/pagemap`, that was opened for reading.
    pub fn new(file: F) -> PageMap<F>
        ensures { result.len ≡ 2 ^ 64 - 1 }
    {
        PageMap {
            file,
            len: u64::MAX,
        }
    }
}

impl<F: FileExt> ReadAt for PageMap<F> {
    type Fault = io::Error;

    ghost bytes = { λ pagemap. replicate pagemap.len 0 };

    ghost is_steady = { λ _. ⊥ };

    fn len(&self) -> u64 {
        self.len
    }

    fn read_at(&self, at: u64, into: &mut [u8]) -> io::Result<()> {
        self.file.read_exact_at(into, at)
    }
}

/// Whether the highest of a page's bytes says this of it.
fn is_in(state: PageState, top: u8) -> bool
    ensures { result ≡ is_in state top }
{
    match state {
        PageState::Populated => top >= 64,
        PageState::Shared => top >= 128 && top % 2 == 0,
    }
}

/// Appends a page: to the last segment, if that ends where it begins.
fn push_page<A: Allocator>(segments: &mut Vec<Segment, A>, page: u64) -> Result<(), AllocError>
    requires whole { AreWhole segments.old.items }
    requires fits { page + 1 < 2 ^ 52 }
    ensures whole { AreWhole segments.new.items }
    ensures pushed { OnOk result (numbers segments.new.items ≡ numbers segments.old.items ++ page ∷ []) }
{
    let at = page * PAGE;
    if let Some(last) = segments.last_mut() {
        if last.offset + last.len == at {
            last.len += PAGE;
            return Ok(());
        }
    }
    segments.push(Segment {
        offset: at,
        len: PAGE,
    })?;
    Ok(())
}

/// Appends a page if its bytes, which stand at this place, say that it is in this state.
fn push_if<A: Allocator>(
    segments: &mut Vec<Segment, A>,
    state: PageState,
    top: u8,
    page: u64,
) -> Result<(), AllocError>
    requires whole { AreWhole segments.old.items }
    requires fits { page + 1 < 2 ^ 52 }
    ensures whole { AreWhole segments.new.items }
    ensures pushed { OnOk result (numbers segments.new.items ≡ numbers segments.old.items ++ cond (is_in state top) (page ∷ []) []) }
{
    if is_in(state, top) {
        push_page(segments, page)?;
    }
    Ok(())
}

/// Appends those of a run of `count` pages that are in this state. The list takes what is known of them, and no more.
fn push_run<P: ReadAt<Fault = io::Error>, A: Allocator>(
    segments: &mut Vec<Segment, A>,
    state: PageState,
    pagemap: &P,
    first: u64,
    count: u64,
    into: &mut [u8],
) -> Result<(), LiveFault>
    requires whole { AreWhole segments.old.items }
    requires entries { 2 ^ 55 ≤ length (P.bytes pagemap.now) }
    requires eights { length into.old ≡ 8 * count }
    requires fits { first + count < 2 ^ 52 }
    ensures whole { AreWhole segments.new.items }
    ensures fault { IfErr result (λ fault. IsOfSystem fault) }
    ensures pushed { OnOk result (P.is_steady pagemap.now → numbers segments.new.items
        ≡ numbers segments.old.items ++ filter (is_page_in state (P.bytes pagemap.now)) (pages_from first count)) }
{
    if let Err(error) = pagemap.read_at(first * ENTRY, into) {
        return Err(LiveFault::System(error));
    }
    for i in 0..count {
        push_if(segments, state, into[(8 * i + 7) as usize], first + i)?;
    }
    Ok(())
}

/// Appends the pages of a segment that are in this state.
fn push_pages<P: ReadAt<Fault = io::Error>, A: Allocator>(
    segments: &mut Vec<Segment, A>,
    state: PageState,
    pagemap: &P,
    range: Segment,
    buffer: &mut [u8; PAGE_BYTES],
) -> Result<(), LiveFault>
    requires whole { AreWhole segments.old.items }
    requires range { IsWhole range }
    requires entries { 2 ^ 55 ≤ length (P.bytes pagemap.now) }
    ensures whole { AreWhole segments.new.items }
    ensures fault { IfErr result (λ fault. IsOfSystem fault) }
    ensures pushed { OnOk result (P.is_steady pagemap.now → numbers segments.new.items
        ≡ numbers segments.old.items ++ filter (is_page_in state (P.bytes pagemap.now)) (pages_in range)) }
{
    let first = range.offset / PAGE;
    let count = range.len / PAGE;
    let mut done = 0;
    while done < count {
        let run = (count - done).min(PAGE / ENTRY);
        let into = &mut buffer[..(run * ENTRY) as usize];
        push_run(segments, state, pagemap, first + done, run, into)?;
        done += run;
    }
    Ok(())
}

/// Returns the pages of segments that are in this state, as segments.
pub(crate) fn segments_in<P: ReadAt<Fault = io::Error>, A: Allocator>(
    alloc: A,
    state: PageState,
    pagemap: &P,
    ranges: &[Segment],
) -> Result<Vec<Segment, A>, LiveFault>
    requires ranges { AreWhole ranges.now }
    requires entries { 2 ^ 55 ≤ length (P.bytes pagemap.now) }
    ensures whole { IfOk result (λ segments. AreWhole segments.items) }
    ensures fault { IfErr result (λ fault. IsOfSystem fault) }
    ensures pages { IfOk result (λ segments. P.is_steady pagemap.now
        → numbers segments.items ≡ numbers_in state (P.bytes pagemap.now) ranges.now) }
{
    let mut segments = Vec::new(alloc);
    let mut buffer = [0; PAGE_BYTES];
    for range in ranges {
        push_pages(&mut segments, state, pagemap, *range, &mut buffer)?;
    }
    Ok(segments)
}
