//! The processes of this machine.
ghost use Rattle.std.specs.Prelude.{◌≡◌, ◌≤◌, ◌-◌, ◌^◌, min, IfOk, length};
ghost use Rattle.memory_images.specs.Views.{segments_of};
ghost use Rattle.memory_images.specs.Pages.{count_of, page_count};
ghost use Rattle.live_memory.specs.Opened.{IsCounted, IsImage, IsRanged};
ghost use Rattle.live_memory.specs.Ranges.{AreWhole};

use crate::choice::chosen_segments;
use crate::pagemap::{PageState, segments_in};
use crate::{LiveFault, LiveMemory, MemoryChoice, PageMap, writable_mappings};
use memory_images::{Image, ImageFault, ReadAt, Segment};
use page_model::PAGE_BYTES;
use std::alloc::{Allocator, Global};
use std::fs::{self, File, Files};
use std::io::{self, Read};
use std::os::unix::fs::FileExt;

/// The pages of a process.
pub type LiveImage = Image<LiveMemory<File>>;

/// A process's memory when it was opened.
#[derive(Drop)]
pub struct LiveProcess {
    pub image: LiveImage,
    /// How many of its pages aren't this process's alone.
    pub shared: u64,
    /// How many of these show frames of `pageshare-host`.
    pub lent: u64,
}

/// Opens the memory of a process of this machine. It is the pages, in memory or swapped, of the mappings that can be written and
/// are no file's, in the order of their addresses. It may be limited to the mappings that the process offered for sharing.
///
/// The process runs on, and each page reads as it is when it is read.
pub fn open_process<R: Files<File = File>>(
    rt: &R,
    alloc: Global,
    pid: u32,
    choice: MemoryChoice,
) -> Result<LiveProcess, LiveFault> {
    // The memory first: it stays this process's, whichever process has the number later.
    let memory = fs::open(rt, &format!(in alloc; "/proc/{pid}/mem")?)?;
    let pagemap = PageMap::new(fs::open(rt, &format!(in alloc; "/proc/{pid}/pagemap")?)?);
    let mut list = fs::open(rt, &format!(in alloc; "/proc/{pid}/smaps")?)?;
    let mut maps = Vec::new(alloc);
    list.read_to_end(&mut maps)?;
    let shared = shared_of_maps(alloc, &pagemap, choice, &maps)?;
    let lent = shared_of_maps(alloc, &pagemap, MemoryChoice::Lent, &maps)?;
    let image = image_of_maps(alloc, memory, &pagemap, choice, &maps)?;
    Ok(LiveProcess {
        image,
        shared,
        lent,
    })
}

/// Returns where the pages of the chosen mappings lie.
fn ranges_of_maps<A: Allocator + Clone>(
    alloc: A,
    choice: MemoryChoice,
    maps: &[u8],
) -> Result<Vec<Segment, A>, LiveFault>
    ensures ranges { IsRanged (λ ranges. ranges.items) choice maps.now result }
    ensures whole { IfOk result (λ ranges. AreWhole ranges.items) }
{
    let mappings = match writable_mappings(alloc.clone()?, maps) {
        Ok(mappings) => mappings,
        Err(fault) => return Err(fault),
    };
    let ranges = chosen_segments(alloc, choice, &mappings)?;
    Ok(ranges)
}

/// Makes the image of a process's memory by the texts of its `/proc/PID/smaps` and `/proc/PID/pagemap`: of the pages of the
/// chosen mappings that are in memory or swapped, in the texts' order. The first line that isn't of its form is a fault.
pub fn image_of_maps<F: FileExt + Drop, P: ReadAt<Fault = io::Error>, A: Allocator + Clone>(
    alloc: A,
    memory: F,
    pagemap: &P,
    choice: MemoryChoice,
    maps: &[u8],
) -> Result<Image<LiveMemory<F>, A>, LiveFault>
    requires entries { 2 ^ 55 ≤ length (P.bytes pagemap.now) }
    ensures image { P.is_steady pagemap.now → IsImage segments_of choice (P.bytes pagemap.now) maps.now result }
    ensures whole { IfOk result (λ image. AreWhole (segments_of image)) }
{
    let ranges = match ranges_of_maps(alloc.clone()?, choice, maps) {
        Ok(ranges) => ranges,
        Err(fault) => return Err(fault),
    };
    let segments = match segments_in(alloc.clone()?, PageState::Populated, pagemap, &ranges) {
        Ok(segments) => segments,
        Err(fault) => return Err(fault),
    };
    match Image::of_segments(alloc, LiveMemory::new(memory), segments) {
        Ok(image) => Ok(image),
        Err(ImageFault::OutOfMemory) => Err(LiveFault::OutOfMemory),
        Err(ImageFault::Read(error)) => Err(LiveFault::System(error)),
        // The form of segments that are given is their number of pages.
        Err(ImageFault::Form(_fault)) => Err(LiveFault::TooManyPages),
    }
}

/// Returns how many pages this many bytes have.
#[tactic(auto, unfolding(memory_images::specs::Pages::page_count))]
fn page_count(len: u64) -> u64
    ensures { result ≡ page_count len }
{
    let whole = len / PAGE_BYTES as u64;
    if len % PAGE_BYTES as u64 == 0 {
        whole
    } else {
        whole + 1
    }
}

/// Returns how many pages segments have.
fn count_pages(segments: &[Segment]) -> u64
    ensures { result ≡ min (count_of segments.now) (2 ^ 64 - 1) }
{
    let mut count: u64 = 0;
    for segment in segments {
        count = count.saturating_add(page_count(segment.len));
    }
    count
}

/// Returns how many pages of the chosen mappings are in memory and aren't the process's alone.
pub fn shared_of_maps<P: ReadAt<Fault = io::Error>, A: Allocator + Clone>(
    alloc: A,
    pagemap: &P,
    choice: MemoryChoice,
    maps: &[u8],
) -> Result<u64, LiveFault>
    requires entries { 2 ^ 55 ≤ length (P.bytes pagemap.now) }
    ensures { P.is_steady pagemap.now → IsCounted choice (P.bytes pagemap.now) maps.now result }
{
    let ranges = match ranges_of_maps(alloc.clone()?, choice, maps) {
        Ok(ranges) => ranges,
        Err(fault) => return Err(fault),
    };
    match segments_in(alloc, PageState::Shared, pagemap, &ranges) {
        Ok(segments) => Ok(count_pages(&segments)),
        Err(fault) => Err(fault),
    }
}
