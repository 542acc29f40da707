//! The digests that are merged.
use crate::command_fault::{Cause, CommandFault};
use crate::fleet::counted_file::CountedFile;
use crate::reading::Reading;
use command_terms::FleetWords;
use digest_text::{DigestReader, ReadFault};
use fleet_census::{FleetFault, MAX_DIGESTS};
use std::alloc::Global;
use std::fs::{self, File, Files};
use std::io::Eprint;
use std::time::Clock;

/// The files of the digests.
#[derive(Drop)]
pub struct OpenedFiles {
    files: Vec<File>,
    /// How many bytes they have.
    pub bytes: u64,
    /// Whether all of them can be read twice, as a file can and a pipe can't.
    pub again: bool,
}

/// A digest that is read.
pub type Digest<'a, R> = DigestReader<CountedFile<'a, R>, Global>;

/// Opens the file of each digest, or returns the first fault. None is opened if there are too many.
pub fn open_files<'a, R: Files<File = File>>(
    rt: &R,
    alloc: Global,
    words: &FleetWords<'a>,
) -> Result<OpenedFiles, CommandFault<'a>> {
    if words.digests.len() > MAX_DIGESTS {
        let cause = Cause::Fleet(FleetFault::TooManyDigests);
        return Err(CommandFault::of_fleet(words, cause));
    }
    let mut opened = OpenedFiles {
        files: Vec::new(alloc),
        bytes: 0,
        again: true,
    };
    for path in &words.digests {
        open_next(rt, path, &mut opened).map_err(|cause| CommandFault::of_file(path, cause))?;
    }
    Ok(opened)
}

/// Opens a file and appends it to the others.
fn open_next<R: Files<File = File>>(
    rt: &R,
    path: &str,
    opened: &mut OpenedFiles,
) -> Result<(), Cause> {
    let file = fs::open(rt, path)?;
    let metadata = file.metadata()?;
    opened.bytes = opened.bytes.saturating_add(metadata.len());
    opened.again = opened.again && metadata.is_file();
    opened.files.push(file)?;
    Ok(())
}

/// Reads the header of each digest, or returns the first fault.
pub fn read_headers<'a, 'r, R: Eprint + Clock>(
    alloc: Global,
    words: &FleetWords<'a>,
    opened: OpenedFiles,
    reading: &'r Reading<'r, R>,
) -> Result<Vec<Digest<'r, R>>, CommandFault<'a>> {
    let mut digests = Vec::new(alloc);
    for (n, file) in opened.files.into_iter().enumerate() {
        read_header(alloc, file, reading, &mut digests).map_err(|cause| CommandFault::of_file(
            words.digest_of(n),
            cause,
        ))?;
    }
    Ok(digests)
}

/// Reads a digest's header and appends it to the others.
pub fn read_header<'r, R: Eprint + Clock>(
    alloc: Global,
    file: File,
    reading: &'r Reading<'r, R>,
    digests: &mut Vec<Digest<'r, R>>,
) -> Result<(), Cause> {
    let digest = DigestReader::new(alloc, CountedFile::new(file, reading))?;
    digests.push(digest)?;
    Ok(())
}

/// Reads a digest to its end, and returns its fault if there is one.
pub fn fault_of_rest<R: Eprint + Clock>(digest: &mut Digest<'_, R>) -> Option<ReadFault> {
    for _line in 0..u64::MAX {
        match digest.next_line() {
            Ok(Some(_)) => {}
            Ok(None) => return None,
            Err(fault) => return Some(fault),
        }
    }
    None
}
