//! An estimate of guests of which some run: each page is read once, and digested.
use crate::command_fault::{Cause, CommandFault};
use crate::estimate::already::Already;
use crate::estimate::counted::Counted;
use crate::estimate::images::{Images, check_images, open_images};
use crate::estimate::merged::counted;
use crate::images::choice_of;
use crate::reading::Reading;
use crate::workers::workers_of;
use command_terms::{EstimateWords, ImageCause, line_where};
use digest_text::{DigestReader, GuestName, write_digests};
use fleet_census::{Pairs, merge};
use guest_digests::{DigestLine, Sample, Sampling, digest_pages};
use live_memory::{LiveProcess, MemoryChoice, open_process};
use memory_pages::PageSource;
use std::alloc::{AllocError, Global};
use std::fs::{File, Files};
use std::io::{self, Eprint};
use std::thread::Threads;
use std::time::Clock;

/// The name of each guest in its digest, which nobody sees.
const NAME: &str = "guest";

/// The digests of the guests so far.
#[derive(Drop)]
struct Digests {
    /// The text of each guest's digest.
    texts: Vec<Vec<u8>>,
    /// How many pages of each guest have a content that another of its own pages has.
    within: Vec<u64>,
}

/// Counts the pages of the images and the processes by their digests.
pub fn count_live<'a, R: Threads + Sync + Files<File = File> + Eprint + Clock>(
    rt: &R,
    alloc: Global,
    words: &EstimateWords<'a>,
    is_terminal: bool,
) -> Result<Counted, CommandFault<'a>> {
    let images = open_images(rt, alloc, words)?;
    let memories = open_processes(rt, alloc, words, &images)?;
    let line = line_where(rt, words.progress, is_terminal);
    let reading = Reading::of_pages(line, pages_of(&images, &memories));
    let digests = digest_all(rt, alloc, words, &images, &memories, &reading);
    reading.end();
    let digests = digests?;
    check_images(rt, words, &images)?;
    merge_with(alloc, &digests, &memories).map_err(|refused| CommandFault::of_estimate(
        words,
        Cause::from(refused),
    ))
}

/// Returns how many pages the images and the processes have.
fn pages_of(images: &Images, memories: &[LiveProcess]) -> u64 {
    let mut pages = images.pages;
    for memory in memories {
        pages = pages.saturating_add(u64::from(memory.image.count()));
    }
    pages
}

/// Returns what of the processes was shared when they were opened.
fn already_of(alloc: Global, memories: &[LiveProcess]) -> Result<Already, AllocError> {
    let mut shared: u64 = 0;
    let mut lent = Vec::new(alloc);
    for memory in memories {
        shared = shared.saturating_add(memory.shared);
        lent.push(memory.lent)?;
    }
    Ok(Already { shared, lent })
}

/// Opens the memory of each process, or returns the first fault.
fn open_processes<'a, R: Files<File = File>>(
    rt: &R,
    alloc: Global,
    words: &EstimateWords<'a>,
    images: &Images,
) -> Result<Vec<LiveProcess>, CommandFault<'a>> {
    let mut memories = Vec::new(alloc);
    for (n, pid) in words.processes.iter().enumerate() {
        let guest = images.guests.len().saturating_add(n);
        let choice = choice_of(words.all_memory);
        open_next(rt, alloc, *pid, choice, &mut memories).map_err(|cause| CommandFault::of_guest(
            words, guest, cause,
        ))?;
        if pages_of(images, &memories) > u64::from(u32::MAX) {
            return Err(CommandFault::of_estimate(words, Cause::Image(ImageCause::TooManyPages)));
        }
    }
    Ok(memories)
}

/// Opens the memory of a process and appends it to the others.
fn open_next<R: Files<File = File>>(
    rt: &R,
    alloc: Global,
    pid: u32,
    choice: MemoryChoice,
    memories: &mut Vec<LiveProcess>,
) -> Result<(), Cause> {
    let memory = open_process(rt, alloc, pid, choice)?;
    memories.push(memory)?;
    Ok(())
}

/// Digests the images and then the processes, or returns the first fault.
fn digest_all<'a, R: Threads + Sync + Eprint + Clock>(
    rt: &R,
    alloc: Global,
    words: &EstimateWords<'a>,
    images: &Images,
    memories: &[LiveProcess],
    reading: &Reading<'_, R>,
) -> Result<Digests, CommandFault<'a>> {
    let mut digests = Digests {
        texts: Vec::new(alloc),
        within: Vec::new(alloc),
    };
    for (n, guest) in images.guests.iter().enumerate() {
        digest_next(rt, alloc, words, n, &guest.source, reading, &mut digests)?;
    }
    digest_processes(rt, alloc, words, memories, reading, &mut digests)?;
    Ok(digests)
}

/// Digests the processes.
fn digest_processes<'a, R: Threads + Sync + Eprint + Clock>(
    rt: &R,
    alloc: Global,
    words: &EstimateWords<'a>,
    memories: &[LiveProcess],
    reading: &Reading<'_, R>,
    digests: &mut Digests,
) -> Result<(), CommandFault<'a>> {
    for (n, memory) in memories.iter().enumerate() {
        let guest = words.images.len().saturating_add(n);
        digest_next(rt, alloc, words, guest, &memory.image, reading, digests)?;
    }
    Ok(())
}

/// Digests the pages of a guest, and appends its digest to the others.
fn digest_next<'a, R: Threads + Sync + Eprint + Clock, S: PageSource<Fault = io::Error>>(
    rt: &R,
    alloc: Global,
    words: &EstimateWords<'a>,
    guest: usize,
    source: &S,
    reading: &Reading<'_, R>,
    digests: &mut Digests,
) -> Result<(), CommandFault<'a>> {
    push_digest(rt, alloc, words, guest, source, reading, digests).map_err(
        |cause| CommandFault::of_guest(words, guest, cause),
    )
}

/// Digests the pages under the guest's salt, and appends their digest to the others.
fn push_digest<R: Threads + Sync + Eprint + Clock, S: PageSource<Fault = io::Error>>(
    rt: &R,
    alloc: Global,
    words: &EstimateWords<'_>,
    guest: usize,
    source: &S,
    reading: &Reading<'_, R>,
    digests: &mut Digests,
) -> Result<(), Cause> {
    let (Some(name), Some(every)) = (GuestName::new(NAME.as_bytes()), Sample::new(1)) else {
        return Err(Cause::from(AllocError));
    };
    let sampling = Sampling::new(words.salt_of(guest), every);
    let workers = workers_of(rt, words.workers);
    let listed = digest_pages(rt, alloc, workers, sampling, source, reading)?;
    let mut text = Vec::new(alloc);
    if write_digests(alloc, &name, &listed, &mut text).is_err() {
        return Err(Cause::from(AllocError));
    }
    digests.texts.push(text)?;
    digests.within.push(within_of(&listed.lines))?;
    Ok(())
}

/// Returns how many pages have a content that another one of these has.
fn within_of(lines: &[DigestLine]) -> u64 {
    let mut pages: u64 = 0;
    for line in lines {
        if line.copies > 1 {
            pages = pages.saturating_add(line.copies);
        }
    }
    pages
}

/// Merges the digests, and says what of the processes is shared already.
fn merge_with(
    alloc: Global,
    digests: &Digests,
    memories: &[LiveProcess],
) -> Result<Counted, AllocError> {
    merge_all(alloc, digests, already_of(alloc, memories)?)
}

/// Merges the digests, and counts. They are in memory, and in the form that they are read in, so only memory can be refused.
fn merge_all(alloc: Global, digests: &Digests, already: Already) -> Result<Counted, AllocError> {
    let mut readers = Vec::new(alloc);
    for text in &digests.texts {
        push_reader(alloc, text, &mut readers)?;
    }
    if readers.is_empty() {
        return Err(AllocError);
    }
    match merge(alloc, &mut readers, Pairs::Omitted) {
        Ok(merged) => counted(alloc, &merged, &digests.within, already),
        Err(_fault) => Err(AllocError),
    }
}

/// Reads the header of a digest's text, and appends the digest to the others.
fn push_reader<'a>(
    alloc: Global,
    text: &'a [u8],
    readers: &mut Vec<DigestReader<&'a [u8], Global>>,
) -> Result<(), AllocError> {
    match DigestReader::new(alloc, text) {
        Ok(reader) => {
            readers.push(reader)?;
            Ok(())
        }
        Err(_fault) => Err(AllocError),
    }
}
