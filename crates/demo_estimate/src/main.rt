//! The table of `pageshare estimate`, without the rest of the program.
#![tactic(auto)]

use memory_images::{FileBytes, Image, ImageFault};
use memory_pages::Progress;
use page_census::{CensusFault, CensusNumbers, Guest, census};
use page_digest::FoldHash;
use report_text::{Estimate, Unit, guest_lines, table_text};
use std::alloc::{AllocError, Global};
use std::fs;
use std::io::{self, ErrorKind, Write};

/// How many threads read the images. The numbers don't depend on it.
const WORKERS: u32 = 2;

/// Nobody hears how much was read.
struct Unheard;

impl Progress for Unheard {
    fn advance(&self, _pages: usize) {}
}

fn main(rt: HostRuntime) -> io::Result<()> {
    let alloc = rt.alloc();
    let mut words = std::env::args(&rt)?;
    let _program = words.next();
    let paths: Vec<String> = words.collect(alloc)?;
    let guests = open_images(&rt, alloc, &paths)?;
    let numbers = census(&rt, alloc, WORKERS, &FoldHash, &guests, &Unheard).map_err(of_census)?;
    let table = table_of(alloc, &paths, &numbers)?;
    let mut output = rt.stdout();
    output.write_all(table.as_bytes())?;
    output.flush()
}

/// Opens the image of each guest.
fn open_images(
    rt: &HostRuntime,
    alloc: Global,
    paths: &[String],
) -> io::Result<Vec<Guest<Image<FileBytes>>>> {
    let mut guests = Vec::new(alloc);
    for path in paths {
        let bytes = FileBytes::new(fs::open(rt, path.as_str())?)?;
        let source = Image::open(alloc, bytes).map_err(of_image)?;
        guests.push(Guest { salt: 0, source })?;
    }
    Ok(guests)
}

/// Returns the table of what was counted, in MiB.
fn table_of(
    alloc: Global,
    paths: &[String],
    numbers: &CensusNumbers<Global>,
) -> Result<String, AllocError> {
    let mut names = Vec::new(alloc);
    let mut salts = Vec::new(alloc);
    for path in paths {
        names.push(path.as_str())?;
        salts.push(0)?;
    }
    let guests = guest_lines(alloc, &names, &salts, &numbers.guests)?;
    let estimate = Estimate {
        guests: &guests,
        total: numbers.total,
        copies: &numbers.copies,
    };
    let report = estimate.report(alloc)?;
    table_text(alloc, &report, Unit::Mebibytes)
}

fn of_image(fault: ImageFault<io::Error>) -> io::Error {
    match fault {
        ImageFault::OutOfMemory => io::Error::from(ErrorKind::OutOfMemory),
        ImageFault::Read(error) => error,
        ImageFault::Form(_) => io::Error::from(ErrorKind::InvalidData),
    }
}

fn of_census(fault: CensusFault<io::Error>) -> io::Error {
    match fault {
        CensusFault::OutOfMemory => io::Error::from(ErrorKind::OutOfMemory),
        CensusFault::TooManyPages => io::Error::from(ErrorKind::InvalidData),
        CensusFault::Read(_guest, error) => error,
    }
}
