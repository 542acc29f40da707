//! The pages of a segment.
ghost use Rattle.std.specs.Prelude.{◌≡◌, ◌+◌, ◌-◌, ◌*◌, ◌/◌, min, ◌<◌, ◌≤◌, ◌^◌, OnOk, length, take, drop};
ghost use Rattle.memory_images.specs.Pages.{page_count, page_of, segment_pages};
ghost use Rattle.memory_images.specs.Words.{part};

use crate::{ReadAt, Segment};
use page_model::{PAGE_BYTES, Page};

/// Returns the number of pages that `len` bytes make.
#[tactic(auto, unfolding(crate::specs::Pages::page_count))]
pub(crate) fn page_count(len: u64) -> u64
    ensures value { result ≡ page_count len }
    ensures fits { result < 2 ^ 53 }
{
    let whole = len / PAGE_BYTES as u64;
    if len % PAGE_BYTES as u64 == 0 {
        whole
    } else {
        whole + 1
    }
}

/// Reads page `n` of a segment.
#[tactic(auto, unfolding(crate::specs::Pages::page_count))]
pub(crate) fn read_page<R: ReadAt>(
    reader: &R,
    segment: Segment,
    n: u32,
    into: &mut Page,
) -> Result<(), R::Fault>
    requires within { segment.offset + segment.len ≤ length (R.bytes reader.now) }
    requires size { length (R.bytes reader.now) < 2 ^ 64 }
    requires page { n < page_count segment.len }
    ensures { OnOk result (R.is_steady reader.now → into.new ≡ page_of (part (R.bytes reader.now) segment.offset segment.len) n) }
{
    let start = u64::from(n) * PAGE_BYTES as u64;
    let len = (segment.len - start).min(PAGE_BYTES as u64) as usize;
    if len < PAGE_BYTES {
        *into = [0; PAGE_BYTES];
    }
    reader.read_at(segment.offset + start, &mut into[..len])?;
    Ok(())
}

/// Reads pages of a segment into the list until it is full, from page `first` on, the whole ones in one read.
pub(crate) fn read_run<R: ReadAt>(
    reader: &R,
    segment: Segment,
    first: u32,
    into: &mut [Page],
) -> Result<(), R::Fault>
    requires within { segment.offset + segment.len ≤ length (R.bytes reader.now) }
    requires size { length (R.bytes reader.now) < 2 ^ 64 }
    requires pages { first + length into.old ≤ page_count segment.len }
    requires fits { first + length into.old < 4294967296 }
    ensures { OnOk result (R.is_steady reader.now
        → into.new ≡ take (length into.old) (drop first (segment_pages (R.bytes reader.now) segment))) }
{
    let whole = whole_pages(segment, first, into.len());
    read_whole(reader, segment, first, &mut into[..whole])?;
    read_each(reader, segment, first + whole as u32, &mut into[whole..])?;
    Ok(())
}

/// Returns how many of `count` pages of a segment, from page `first` on, are whole.
fn whole_pages(segment: Segment, first: u32, count: usize) -> usize
    requires { count < 4294967296 }
    ensures { result ≡ min (segment.len / 4096 - first) count }
{
    let pages = segment.len / PAGE_BYTES as u64;
    pages.saturating_sub(u64::from(first)).min(count as u64) as usize
}

/// Reads pages of a segment into the list until it is full, from page `first` on. All of them are whole.
fn read_whole<R: ReadAt>(
    reader: &R,
    segment: Segment,
    first: u32,
    into: &mut [Page],
) -> Result<(), R::Fault>
    requires within { segment.offset + segment.len ≤ length (R.bytes reader.now) }
    requires size { length (R.bytes reader.now) < 2 ^ 64 }
    requires whole { 0 < length into.old → 4096 * (first + length into.old) ≤ segment.len }
    ensures { OnOk result (R.is_steady reader.now
        → into.new ≡ take (length into.old) (drop first (segment_pages (R.bytes reader.now) segment))) }
{
    if into.is_empty() {
        return Ok(());
    }
    let start = u64::from(first) * PAGE_BYTES as u64;
    reader.read_pages_at(segment.offset + start, into)?;
    Ok(())
}

/// Reads the same one by one, and fills up a last part with zeros.
fn read_each<R: ReadAt>(
    reader: &R,
    segment: Segment,
    first: u32,
    into: &mut [Page],
) -> Result<(), R::Fault>
    requires within { segment.offset + segment.len ≤ length (R.bytes reader.now) }
    requires size { length (R.bytes reader.now) < 2 ^ 64 }
    requires pages { first + length into.old ≤ page_count segment.len }
    requires fits { first + length into.old < 4294967296 }
    ensures { OnOk result (R.is_steady reader.now
        → into.new ≡ take (length into.old) (drop first (segment_pages (R.bytes reader.now) segment))) }
{
    for i in 0..into.len() {
        read_page(reader, segment, first + i as u32, &mut into[i])?;
    }
    Ok(())
}
