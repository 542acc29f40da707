//! The command `estimate`: it shows what sharing equal pages of guests would reclaim, from images of their memory or while they
//! run.
mod already;
mod counted;
mod images;
mod live;
mod merged;

use crate::command_fault::{Cause, CommandFault, Subject};
use crate::estimate::already::Already;
use crate::estimate::counted::Counted;
use crate::estimate::images::{Images, check_images, open_images};
use crate::estimate::live::count_live;
use crate::output::{output_text, write_all};
use crate::reading::Reading;
use crate::workers::workers_of;
use command_terms::{EstimateWords, ImageCause, line_where};
use page_census::{CensusFault, census};
use page_digest::FoldHash;
use report_picture::picture_text;
use report_text::{Estimate, Report, guest_lines};
use std::alloc::{AllocError, Global};
use std::fs::{self, File, Files};
use std::io::{Eprint, Write};
use std::thread::Threads;
use std::time::Clock;

/// Counts the pages of the images and the processes, writes the picture, and then the table or the JSON object. At a fault
/// nothing was written to the output unless that is what failed.
pub fn do_estimate<'a, R: Threads + Sync + Files<File = File> + Eprint + Clock, W: Write + Drop>(
    rt: &R,
    alloc: Global,
    words: &EstimateWords<'a>,
    mut output: W,
    is_terminal: bool,
) -> Result<(), CommandFault<'a>> {
    let counted = if words.processes.is_empty() {
        count_images(rt, alloc, words, is_terminal)?
    } else {
        count_live(rt, alloc, words, is_terminal)?
    };
    let texts = texts_of(alloc, words, &counted).map_err(|refused| CommandFault::of_estimate(
        words,
        Cause::from(refused),
    ))?;
    if let (Some(path), Some(picture)) = (words.svg, &texts.picture) {
        write_file(rt, path, picture).map_err(|cause| CommandFault::of_file(path, cause))?;
    }
    write_all(&mut output, &texts.output).map_err(|cause| CommandFault::of(Subject::Output, cause))
}

/// Counts the pages of the images, whose bytes are compared.
fn count_images<'a, R: Threads + Sync + Files<File = File> + Eprint + Clock>(
    rt: &R,
    alloc: Global,
    words: &EstimateWords<'a>,
    is_terminal: bool,
) -> Result<Counted, CommandFault<'a>> {
    let images = open_images(rt, alloc, words)?;
    let counted = count(rt, alloc, words, &images, is_terminal)?;
    check_images(rt, words, &images)?;
    Ok(counted)
}

/// Counts the pages, and draws how much was read if asked to.
fn count<'a, R: Threads + Sync + Eprint + Clock>(
    rt: &R,
    alloc: Global,
    words: &EstimateWords<'a>,
    images: &Images,
    is_terminal: bool,
) -> Result<Counted, CommandFault<'a>> {
    let line = line_where(rt, words.progress, is_terminal);
    let reading = Reading::of_pages(line, images.pages);
    let workers = workers_of(rt, words.workers);
    let counted = census(rt, alloc, workers, &FoldHash, &images.guests, &reading);
    reading.end();
    match counted {
        Ok(numbers) => Ok(Counted::from(numbers)),
        Err(CensusFault::OutOfMemory) => {
            Err(CommandFault::of_estimate(words, Cause::from(AllocError)))
        }
        Err(CensusFault::TooManyPages) => {
            Err(CommandFault::of_estimate(words, Cause::Image(ImageCause::TooManyPages)))
        }
        Err(CensusFault::Read(guest, error)) => {
            Err(CommandFault::of_guest(words, guest, Cause::from(error)))
        }
    }
}

/// What is written. All of it is made before any of it is written.
#[derive(Drop)]
struct Texts {
    output: String,
    picture: Option<String>,
}

fn texts_of(
    alloc: Global,
    words: &EstimateWords<'_>,
    counted: &Counted,
) -> Result<Texts, AllocError> {
    let salts = guest_salts(alloc, words)?;
    let processes = process_names(alloc, words)?;
    let names = guest_names(alloc, words, &processes)?;
    let guests = guest_lines(alloc, &names, &salts, &counted.guests)?;
    let estimate = Estimate {
        guests: &guests,
        total: counted.total,
        copies: &counted.copies,
    };
    let picture = match words.svg {
        Some(_path) => Some(picture_text(alloc, &estimate)?),
        None => None,
    };
    let report = estimate.report(alloc)?;
    Ok(Texts {
        output: output_of(alloc, words, counted, &report)?,
        picture,
    })
}

/// Makes the table or the object, with what is shared already where processes were read.
fn output_of(
    alloc: Global,
    words: &EstimateWords<'_>,
    counted: &Counted,
    report: &Report<'_>,
) -> Result<String, AllocError> {
    let output = output_text(alloc, words.json, words.in_pages, report)?;
    match &counted.already {
        Some(already) => with_already(alloc, words, already, output),
        None => Ok(output),
    }
}

/// Adds what is shared already: to the object at its end, to the table before and behind it.
fn with_already(
    alloc: Global,
    words: &EstimateWords<'_>,
    already: &Already,
    output: String,
) -> Result<String, AllocError> {
    let mut text = String::new(alloc);
    if words.json {
        text.push_str(&output)?;
        already.push_members(&mut text)?;
    } else {
        already.push_lent(&mut text, &words.processes)?;
        text.push_str(&output)?;
        already.push_shared(&mut text)?;
    }
    Ok(text)
}

/// Returns the salt of each guest.
fn guest_salts(alloc: Global, words: &EstimateWords<'_>) -> Result<Vec<u32>, AllocError> {
    (0..words.guests()).map(|n| words.salt_of(n)).collect(alloc)
}

/// Returns what each process is called.
fn process_names(alloc: Global, words: &EstimateWords<'_>) -> Result<Vec<String>, AllocError> {
    let mut names = Vec::new(alloc);
    for pid in &words.processes {
        names.push(format!(in alloc; "process {pid}")?)?;
    }
    Ok(names)
}

/// Returns what each guest is called: the path of its image, or its process.
fn guest_names<'a>(
    alloc: Global,
    words: &EstimateWords<'a>,
    processes: &'a [String],
) -> Result<Vec<&'a str>, AllocError> {
    let mut names = Vec::new(alloc);
    for path in &words.images {
        names.push(*path)?;
    }
    for name in processes {
        names.push(name.as_str())?;
    }
    Ok(names)
}

fn write_file<R: Files>(rt: &R, path: &str, text: &str) -> Result<(), Cause> {
    let mut file = fs::create(rt, path)?;
    write_all(&mut file, text)
}
