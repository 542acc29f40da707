//! The words of the command `digest`.
use crate::help::{ALL_MEMORY, DIGEST, IMAGE, NAME, OF_DIGEST, PROCESS, RAW_IMAGE, SALT, SAMPLE};
use crate::parts::{described, flag, mistake, option, positional};
use crate::progress_words::{progress_of, progress_option};
use crate::worker_words::{workers_of, workers_option};
use clap::error::ErrorKind;
use clap::{Arg, ArgMatches, Command, Error, value_parser};
use command_terms::{DigestSource, DigestWords, file_name};
use digest_text::GuestName;
use guest_digests::Sample;
use std::alloc::{AllocError, Global};

/// The command, as part of the program's. Its help has the arguments in this order.
pub fn digest_command<'a>(alloc: Global) -> Result<Command<'a>, AllocError> {
    let args = vec![in alloc;
        option(alloc, "name", "NAME", NAME),
        salt_option(alloc),
        sample_option(alloc),
        workers_option(alloc),
        flag(alloc, "raw", RAW_IMAGE),
        progress_option(alloc),
        process_option(alloc),
        flag(alloc, "all-memory", ALL_MEMORY),
        positional(alloc, "IMAGE", IMAGE),
    ]?;
    described(alloc, "digest", DIGEST, OF_DIGEST).args(args)
}

fn salt_option<'a>(alloc: Global) -> Arg<'a> {
    option(alloc, "salt", "N", SALT).value_parser(value_parser!(u32))
}

fn sample_option<'a>(alloc: Global) -> Arg<'a> {
    option(alloc, "sample", "K", SAMPLE).value_parser(value_parser!(u32))
}

fn process_option<'a>(alloc: Global) -> Arg<'a> {
    let pid = option(alloc, "pid", "PID", PROCESS);
    pid.value_parser(value_parser!(u32).range(1..))
}

/// What the words after `digest` ask for. It is an error to give no image and no process, both, no name, or a number that is no
/// sample.
pub fn digest_words<'a>(alloc: Global, matches: &ArgMatches<'a>) -> Result<DigestWords<'a>, Error> {
    let source = source_of(alloc, matches)?;
    Ok(DigestWords {
        source,
        guest: guest_of(alloc, matches, source)?,
        salt: matches.get_one::<u32>("salt").unwrap_or(0),
        sample: sample_of(alloc, matches)?,
        workers: workers_of(matches),
        raw: matches.get_flag("raw"),
        all_memory: matches.get_flag("all-memory"),
        progress: progress_of(matches),
    })
}

fn source_of<'a>(alloc: Global, matches: &ArgMatches<'a>) -> Result<DigestSource<'a>, Error> {
    match (matches.get_str("IMAGE"), matches.get_one::<u32>("pid")) {
        (Some(path), None) => Ok(DigestSource::Image(path)),
        (None, Some(pid)) => Ok(DigestSource::Process(pid)),
        (None, None) => {
            let message = "give an image, or a process with --pid";
            Err(of_digest(alloc, ErrorKind::MissingRequiredArgument, message)?)
        }
        (Some(_), Some(_)) => {
            let message = "give an image or --pid, not both";
            Err(of_digest(alloc, ErrorKind::ArgumentConflict, message)?)
        }
    }
}

/// The guest's name: the one that is given, or else the name of the image's file.
fn guest_of<'a>(
    alloc: Global,
    matches: &ArgMatches<'a>,
    source: DigestSource<'a>,
) -> Result<GuestName, Error> {
    match name_of(matches, source) {
        Some(guest) => Ok(guest),
        None => {
            let message =
                "give the guest a name with --name: 1 to 64 of the characters\nA-Z, a-z, 0-9, '.', '_' and '-'";
            Err(of_digest(alloc, ErrorKind::ValueValidation, message)?)
        }
    }
}

fn name_of(matches: &ArgMatches<'_>, source: DigestSource<'_>) -> Option<GuestName> {
    match (matches.get_str("name"), source) {
        (Some(name), _) => GuestName::new(name.as_bytes()),
        (None, DigestSource::Image(path)) => GuestName::new(file_name(path.as_bytes())),
        (None, DigestSource::Process(_)) => None,
    }
}

fn sample_of(alloc: Global, matches: &ArgMatches<'_>) -> Result<Sample, Error> {
    match Sample::new(matches.get_one::<u32>("sample").unwrap_or(1)) {
        Some(sample) => Ok(sample),
        None => {
            let message = "--sample needs a power of two from 1 to 65536";
            Err(of_digest(alloc, ErrorKind::ValueValidation, message)?)
        }
    }
}

fn of_digest(alloc: Global, kind: ErrorKind, message: &str) -> Result<Error, AllocError> {
    mistake(digest_command(alloc)?, "pageshare digest", kind, message)
}
