//! An image as a source of pages.
ghost use Rattle.std.specs.Prelude.{◌≡◌, ◌+◌, ◌≤◌, ◌<◌, ◌^◌, OnOk, length, slice_index, take, drop};
ghost use Rattle.memory_images.specs.Pages.{AreStarts, AreWithin, count_of, pages_of};
ghost use Rattle.memory_images.specs.Views.{reader_of, segments_of};

use crate::pages::{page_count, read_run};
use crate::{Image, ReadAt, Segment};
use memory_pages::PageSource;
use page_model::Page;
use std::alloc::Allocator;

impl<R: ReadAt + Sync, A: Allocator + Sync> PageSource for Image<R, A>
where
    R::Fault: Send,
{
    type Fault = R::Fault;

    ghost pages = { λ image. pages_of (segments_of image) (R.bytes (reader_of image)) };

    ghost is_steady = { λ image. R.is_steady (reader_of image) };

    fn count(&self) -> u32 {
        self.count
    }

    fn read(&self, first: u32, into: &mut [Page]) -> Result<(), R::Fault> {
        read_from(&self.reader, &self.segments, &self.starts, first, into)
    }
}

/// Reads pages of segments into the list until it is full, from page `first` on. `starts` has how many pages come
/// before each segment.
fn read_from<R: ReadAt>(
    reader: &R,
    segments: &[Segment],
    starts: &[u32],
    first: u32,
    into: &mut [Page],
) -> Result<(), R::Fault>
    requires whole { AreWithin (length (R.bytes reader.now)) segments.now }
    requires size { length (R.bytes reader.now) < 2 ^ 64 }
    requires few { count_of segments.now < 2 ^ 32 }
    requires begun { AreStarts segments.now starts.now }
    requires within { first + length into.old ≤ length (pages_of segments.now (R.bytes reader.now)) }
    ensures { OnOk result (R.is_steady reader.now
        → into.new ≡ take (length into.old) (drop first (pages_of segments.now (R.bytes reader.now)))) }
{
    if starts.is_empty() {
        return Ok(());
    }
    let nearest = last_start(starts, first);
    let skipped = first - starts[nearest];
    read_pages(reader, &segments[nearest..], skipped, into)?;
    Ok(())
}

/// Returns the number of a segment that begins at page `first` or before; the last such one if `starts` rise.
fn last_start(starts: &[u32], first: u32) -> usize
    requires some { 1 ≤ length starts.now }
    requires begins { slice_index starts.now 0 ≤ first }
    ensures within { result < length starts.now }
    ensures before { slice_index starts.now result ≤ first }
{
    let mut low = 0;
    let mut high = starts.len();
    while high - low > 1 {
        let middle = low + (high - low) / 2;
        if starts[middle] <= first {
            low = middle;
        } else {
            high = middle;
        }
    }
    low
}

/// Reads pages of segments into the list until it is full, from page `first` on.
fn read_pages<R: ReadAt>(
    reader: &R,
    segments: &[Segment],
    first: u32,
    into: &mut [Page],
) -> Result<(), R::Fault>
    requires whole { AreWithin (length (R.bytes reader.now)) segments.now }
    requires size { length (R.bytes reader.now) < 2 ^ 64 }
    requires few { count_of segments.now < 2 ^ 32 }
    requires within { first + length into.old ≤ length (pages_of segments.now (R.bytes reader.now)) }
    ensures { OnOk result (R.is_steady reader.now
        → into.new ≡ take (length into.old) (drop first (pages_of segments.now (R.bytes reader.now)))) }
{
    let mut skipped = first;
    let mut done = 0;
    for segment in segments {
        if done == into.len() {
            return Ok(());
        }
        let pages = page_count(segment.len) as u32;
        if skipped >= pages {
            skipped -= pages;
        } else {
            let run = ((pages - skipped) as usize).min(into.len() - done);
            read_run(reader, *segment, skipped, &mut into[done..done + run])?;
            done += run;
            skipped = 0;
        }
    }
    Ok(())
}
