//! The command `fleet`: it merges digests of guests' memory, and shows what sharing would reclaim of all of them.
mod by_host;
mod counted_file;
mod opened;

use crate::command_fault::{Cause, CommandFault, Subject};
use crate::fleet::by_host::{Hosts, count_hosts, hosts_text};
use crate::fleet::opened::{Digest, OpenedFiles, fault_of_rest, open_files, read_headers};
use crate::output::{output_text, write_all};
use crate::reading::Reading;
use command_terms::{FleetWords, line_where};
use digest_text::{DigestHead, DigestReader};
use fleet_census::{FleetFault, FleetNumbers, Pairs, merge};
use report_text::{Fleet, FleetHost, fleet_lines, write_pairs};
use std::alloc::{AllocError, Global};
use std::fs::{self, File, Files};
use std::io::{Eprint, Write};
use std::time::Clock;

/// Merges the digests, writes the pairs of guests, and then the table or the JSON object. At a fault nothing was written to
/// the output unless that is what failed.
pub fn do_fleet<'a, R: Files<File = File> + Eprint + Clock, W: Write + Drop>(
    rt: &R,
    alloc: Global,
    words: &FleetWords<'a>,
    output: W,
    is_terminal: bool,
) -> Result<(), CommandFault<'a>> {
    let opened = open_files(rt, alloc, words)?;
    let again = opened.again;
    let line = line_where(rt, words.progress, is_terminal);
    let reading = Reading::of_bytes(line, opened.bytes);
    let read = read_all(alloc, words, opened, &reading);
    reading.end();
    let (digests, numbers) = read?;
    let list = hosts_text(rt, alloc, words)?;
    let heads = heads_of(alloc, &digests).map_err(|refused| CommandFault::of_fleet(
        words,
        Cause::from(refused),
    ))?;
    let hosts = Hosts::of(alloc, words, &heads, &list)?;
    let totals = count_hosts(rt, alloc, words, &hosts, again, is_terminal)?;
    write_numbers(rt, alloc, words, &heads, &numbers, &totals, output)
}

/// Reads the digests, and counts what is in them together.
fn read_all<'a, 'r, R: Eprint + Clock>(
    alloc: Global,
    words: &FleetWords<'a>,
    opened: OpenedFiles,
    reading: &'r Reading<'r, R>,
) -> Result<(Vec<Digest<'r, R>>, FleetNumbers<Global>), CommandFault<'a>> {
    let mut digests = read_headers(alloc, words, opened, reading)?;
    let numbers = numbers_of(alloc, words, &mut digests)?;
    Ok((digests, numbers))
}

/// Counts what is in the digests together.
fn numbers_of<'a, R: Eprint + Clock>(
    alloc: Global,
    words: &FleetWords<'a>,
    digests: &mut [Digest<'_, R>],
) -> Result<FleetNumbers<Global>, CommandFault<'a>> {
    if digests.is_empty() {
        return Err(CommandFault::of_fleet(words, Cause::NoDigest));
    }
    match merge(alloc, digests, pairs_for(words)) {
        Ok(numbers) => Ok(numbers),
        Err(FleetFault::TooManyPages) => Err(too_many(words, digests)),
        Err(fault) => match fault.file() {
            Some(file) => Err(CommandFault::of_file(words.digest_of(file), Cause::from(fault))),
            None => Err(CommandFault::of_fleet(words, Cause::from(fault))),
        },
    }
}

/// Returns whether pairs are counted: only if they are written.
fn pairs_for(words: &FleetWords<'_>) -> Pairs {
    match words.pairs {
        Some(_path) => Pairs::Counted,
        None => Pairs::Omitted,
    }
}

/// Returns the fault of a digest whose lines list more copies than its guest has pages, if there is one: its end is read only now.
/// Otherwise the pages are too many.
fn too_many<'a, R: Eprint + Clock>(
    words: &FleetWords<'a>,
    digests: &mut [Digest<'_, R>],
) -> CommandFault<'a> {
    for (n, digest) in digests.iter_mut().enumerate() {
        if let Some(fault) = fault_of_rest(digest) {
            return CommandFault::of_file(words.digest_of(n), Cause::from(fault));
        }
    }
    CommandFault::of_fleet(words, Cause::Fleet(FleetFault::TooManyPages))
}

/// Writes the pairs of guests, and then the table or the JSON object, of which all is made before.
fn write_numbers<'a, 'n, R: Files<File = File>, W: Write + Drop>(
    rt: &R,
    alloc: Global,
    words: &FleetWords<'a>,
    heads: &[Option<&'n DigestHead>],
    numbers: &'n FleetNumbers<Global>,
    hosts: &[FleetHost<'n>],
    mut output: W,
) -> Result<(), CommandFault<'a>> {
    let out_of_memory = |refused| CommandFault::of_fleet(words, Cause::from(refused));
    let guests = fleet_lines(alloc, heads, &numbers.guests).map_err(out_of_memory)?;
    let fleet = Fleet {
        sample: numbers.sample,
        guests: &guests,
        total: numbers.total,
        copies: &numbers.copies,
    };
    let report = fleet.report(alloc, hosts).map_err(out_of_memory)?;
    let text = output_text(alloc, words.json, words.in_pages, &report).map_err(out_of_memory)?;
    if let Some(path) = words.pairs {
        write_file(rt, alloc, path, &fleet, numbers).map_err(|cause| CommandFault::of_file(
            path, cause,
        ))?;
    }
    write_all(&mut output, &text).map_err(|cause| CommandFault::of(Subject::Output, cause))
}

/// Returns what each digest says of its guest.
fn heads_of<'a, R: Eprint + Clock>(
    alloc: Global,
    digests: &'a [Digest<'_, R>],
) -> Result<Vec<Option<&'a DigestHead>>, AllocError> {
    digests.iter().map(DigestReader::head).collect(alloc)
}

/// Writes the pairs of guests to a file.
fn write_file<R: Files<File = File>>(
    rt: &R,
    alloc: Global,
    path: &str,
    fleet: &Fleet<'_>,
    numbers: &FleetNumbers<Global>,
) -> Result<(), Cause> {
    let mut file = fs::create(rt, path)?;
    write_pairs(alloc, fleet, &numbers.pairs, &mut file)?;
    file.flush()?;
    Ok(())
}
