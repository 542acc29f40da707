//! The words of the command `estimate`.
use crate::help::{ALL_MEMORY, ESTIMATE, IMAGES, OF_ESTIMATE, PIDS, RAW_IMAGES, SALTS, SVG};
use crate::parts::{
    described, flag, is_in_pages, json_option, mistake, numbers_of, option, positionals,
    unit_option, values_of,
};
use crate::progress_words::{progress_of, progress_option};
use crate::worker_words::{workers_of, workers_option};
use clap::error::ErrorKind;
use clap::{Arg, ArgAction, ArgMatches, Command, Error, value_parser};
use command_terms::EstimateWords;
use std::alloc::{AllocError, Global};

/// The command, as part of the program's. Its help has the arguments in this order.
pub fn estimate_command<'a>(alloc: Global) -> Result<Command<'a>, AllocError> {
    let args = vec![in alloc;
        pids_option(alloc),
        flag(alloc, "all-memory", ALL_MEMORY),
        salts_option(alloc),
        workers_option(alloc),
        flag(alloc, "raw", RAW_IMAGES),
        unit_option(alloc),
        json_option(alloc),
        option(alloc, "svg", "FILE", SVG),
        progress_option(alloc),
        positionals(alloc, "IMAGE", IMAGES),
    ]?;
    described(alloc, "estimate", ESTIMATE, OF_ESTIMATE).args(args)
}

fn pids_option<'a>(alloc: Global) -> Arg<'a> {
    pid_option(alloc).action(ArgAction::Append)
}

fn pid_option<'a>(alloc: Global) -> Arg<'a> {
    let pid = option(alloc, "pid", "PID", PIDS);
    pid.value_parser(value_parser!(u32).range(1..))
}

fn salts_option<'a>(alloc: Global) -> Arg<'a> {
    salt_option(alloc).value_delimiter(',')
}

fn salt_option<'a>(alloc: Global) -> Arg<'a> {
    option(alloc, "salts", "N,N,..", SALTS).value_parser(value_parser!(u32))
}

/// What the words behind `estimate` ask for. No guest, and another number of salts than of guests are errors.
pub fn estimate_words<'a>(
    alloc: Global,
    matches: &ArgMatches<'a>,
) -> Result<EstimateWords<'a>, Error> {
    let words = words_of(alloc, matches)?;
    let (salts, guests) = (words.salts.len(), words.guests());
    if guests == 0 {
        return Err(no_guest(alloc)?);
    }
    if matches.contains_id("salts") && salts != guests {
        return Err(wrong_salts(alloc, salts, guests)?);
    }
    Ok(words)
}

fn words_of<'a>(alloc: Global, matches: &ArgMatches<'a>) -> Result<EstimateWords<'a>, AllocError> {
    Ok(EstimateWords {
        images: values_of(alloc, matches, "IMAGE")?,
        processes: numbers_of(alloc, matches, "pid")?,
        all_memory: matches.get_flag("all-memory"),
        salts: numbers_of(alloc, matches, "salts")?,
        workers: workers_of(matches),
        raw: matches.get_flag("raw"),
        json: matches.get_flag("json"),
        in_pages: is_in_pages(matches),
        svg: matches.get_str("svg"),
        progress: progress_of(matches),
    })
}

fn no_guest(alloc: Global) -> Result<Error, AllocError> {
    let message = "give an image of each guest, or its process with --pid";
    of_estimate(alloc, ErrorKind::MissingRequiredArgument, message)
}

fn wrong_salts(alloc: Global, salts: usize, guests: usize) -> Result<Error, AllocError> {
    let message = format!(in alloc;
        "--salts needs a number for each guest (numbers: {salts}, guests: {guests})"
    )?;
    of_estimate(alloc, ErrorKind::WrongNumberOfValues, &message)
}

fn of_estimate(alloc: Global, kind: ErrorKind, message: &str) -> Result<Error, AllocError> {
    mistake(
        estimate_command(alloc)?,
        "pageshare estimate",
        kind,
        message,
    )
}
