//! The command `digest`: it writes the digest of a guest's memory, from an image or a process.
use crate::command_fault::{Cause, CommandFault, Subject};
use crate::images::{check_unchanged, choice_of, open_image};
use crate::reading::Reading;
use crate::workers::workers_of;
use command_terms::{DigestSource, DigestWords, line_where};
use digest_text::write_digests;
use guest_digests::{GuestDigests, Sampling, digest_pages};
use live_memory::open_process;
use memory_pages::PageSource;
use std::alloc::Global;
use std::fs::{File, Files};
use std::io::{self, Eprint, Write};
use std::thread::Threads;
use std::time::Clock;

/// Digests the image or the process, and writes the digest. At a fault nothing was written to the output unless that is what
/// failed.
pub fn do_digest<'a, R: Threads + Sync + Files<File = File> + Eprint + Clock, W: Write + Drop>(
    rt: &R,
    alloc: Global,
    words: &DigestWords<'a>,
    mut output: W,
    is_terminal: bool,
) -> Result<(), CommandFault<'a>> {
    let digests = match words.source {
        DigestSource::Image(path) => of_image(rt, alloc, words, path, is_terminal),
        DigestSource::Process(pid) => of_process(rt, alloc, words, pid, is_terminal),
    }
    .map_err(|cause| CommandFault::of(Subject::from(words.source), cause))?;
    write_digest(alloc, words, &digests, &mut output).map_err(|cause| CommandFault::of(
        Subject::Output,
        cause,
    ))
}

fn write_digest(
    alloc: Global,
    words: &DigestWords<'_>,
    digests: &GuestDigests<Global>,
    output: &mut impl Write,
) -> Result<(), Cause> {
    write_digests(alloc, &words.guest, digests, output)?;
    output.flush()?;
    Ok(())
}

fn of_image<R: Threads + Sync + Files<File = File> + Eprint + Clock>(
    rt: &R,
    alloc: Global,
    words: &DigestWords<'_>,
    path: &str,
    is_terminal: bool,
) -> Result<GuestDigests<Global>, Cause> {
    let (image, mark) = open_image(rt, alloc, path, words.raw)?;
    let digests = digests_of(rt, alloc, words, &image, is_terminal)?;
    check_unchanged(rt, path, &mark)?;
    Ok(digests)
}

fn of_process<R: Threads + Sync + Files<File = File> + Eprint + Clock>(
    rt: &R,
    alloc: Global,
    words: &DigestWords<'_>,
    pid: u32,
    is_terminal: bool,
) -> Result<GuestDigests<Global>, Cause> {
    let process = open_process(rt, alloc, pid, choice_of(words.all_memory))?;
    digests_of(rt, alloc, words, &process.image, is_terminal)
}

/// Digests the pages, and draws how much was read if asked to.
fn digests_of<R: Threads + Sync + Eprint + Clock, S: PageSource<Fault = io::Error>>(
    rt: &R,
    alloc: Global,
    words: &DigestWords<'_>,
    source: &S,
    is_terminal: bool,
) -> Result<GuestDigests<Global>, Cause> {
    let line = line_where(rt, words.progress, is_terminal);
    let reading = Reading::of_pages(line, u64::from(source.count()));
    let workers = workers_of(rt, words.workers);
    let sampling = Sampling::new(words.salt, words.sample);
    let digests = digest_pages(rt, alloc, workers, sampling, source, &reading);
    reading.end();
    Ok(digests?)
}
