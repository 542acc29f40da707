//! The commands, and what the words of a command line ask for.
use crate::digest_words::{digest_command, digest_words};
use crate::estimate_words::{estimate_command, estimate_words};
use crate::fleet_words::{fleet_command, fleet_words};
use crate::help::{
    ABOUT, JOURNAL, JOURNAL_FILE, PROGRAM, REPLAY, RUN, RUN_JOURNAL, SCRIPT, SCRIPT_FILE, SERIAL,
};
use crate::parts::{described, flag, positional};
use crate::progress_words::{progress_of, progress_option};
use clap::{ArgMatches, Command, Error};
use command_terms::{Asked, Task, Work};
use std::alloc::{AllocError, Global};

fn replay_command<'a>(alloc: Global) -> Result<Command<'a>, AllocError> {
    described(alloc, "replay", REPLAY, JOURNAL).arg(positional(alloc, "FILE", JOURNAL_FILE))
}

fn serial_command<'a>(alloc: Global) -> Result<Command<'a>, AllocError> {
    described(alloc, "serial", SERIAL, SCRIPT).arg(positional(alloc, "FILE", SCRIPT_FILE))
}

fn run_command<'a>(alloc: Global) -> Result<Command<'a>, AllocError> {
    let args = vec![in alloc;
        flag(alloc, "journal", RUN_JOURNAL),
        progress_option(alloc),
        positional(alloc, "FILE", SCRIPT_FILE),
    ]?;
    described(alloc, "run", RUN, SCRIPT).args(args)
}

/// The program's command: the commands of operators come first.
fn command<'a>(alloc: Global, version: &'a str) -> Result<Command<'a>, AllocError> {
    with_texts(alloc, with_counts(alloc, whole_command(alloc, version))?)
}

/// The command with those that count memory.
fn with_counts<'a>(alloc: Global, command: Command<'a>) -> Result<Command<'a>, AllocError> {
    let command = with(command, estimate_command(alloc))?;
    let command = with(command, digest_command(alloc))?;
    with(command, fleet_command(alloc))
}

/// The command with those on texts.
fn with_texts<'a>(alloc: Global, command: Command<'a>) -> Result<Command<'a>, AllocError> {
    let command = with(command, replay_command(alloc))?;
    let command = with(command, serial_command(alloc))?;
    with(command, run_command(alloc))
}

/// A command with one command more below it, if that could be made.
fn with<'a>(
    command: Command<'a>,
    below: Result<Command<'a>, AllocError>,
) -> Result<Command<'a>, AllocError> {
    command.subcommand(below?)
}

/// The program's command, so far with none of its own.
fn whole_command<'a>(alloc: Global, version: &'a str) -> Command<'a> {
    versioned(alloc, version).subcommand_required(true)
}

fn versioned<'a>(alloc: Global, version: &'a str) -> Command<'a> {
    described(alloc, "pageshare", ABOUT, PROGRAM).version(version)
}

/// What these words ask for; the first is the program's own name. `version` is what `--version` shows behind that name: the
/// program's version, since those of the texts that it reads stand in their first lines.
pub fn asked_of<'a>(
    alloc: Global,
    words: &'a [String],
    version: &'a str,
) -> Result<Asked<'a>, Error> {
    let matches = command(alloc, version)?.try_get_matches_from(words)?;
    asked_in(alloc, &matches)
}

fn asked_in<'a>(alloc: Global, matches: &ArgMatches<'a>) -> Result<Asked<'a>, Error> {
    if let Some(estimate) = matches.subcommand_matches("estimate") {
        return Ok(Asked::Estimate(estimate_words(alloc, estimate)?));
    }
    if let Some(digest) = matches.subcommand_matches("digest") {
        return Ok(Asked::Digest(digest_words(alloc, digest)?));
    }
    if let Some(fleet) = matches.subcommand_matches("fleet") {
        return Ok(Asked::Fleet(fleet_words(alloc, fleet)?));
    }
    Ok(Asked::Text(task_of(matches)))
}

/// What is to be done with a text.
fn task_of<'a>(matches: &ArgMatches<'a>) -> Task<'a> {
    if let Some(run) = matches.subcommand_matches("run") {
        return run_task(run);
    }
    if let Some(serial) = matches.subcommand_matches("serial") {
        return Task {
            work: Work::Serial,
            file: serial.get_str("FILE"),
        };
    }
    // A subcommand is required, so what is left is `replay`.
    let file = match matches.subcommand_matches("replay") {
        Some(replay) => replay.get_str("FILE"),
        None => None,
    };
    Task {
        work: Work::Replay,
        file,
    }
}

fn run_task<'a>(run: &ArgMatches<'a>) -> Task<'a> {
    Task {
        work: Work::Run {
            is_journal: run.get_flag("journal"),
            progress: progress_of(run),
        },
        file: run.get_str("FILE"),
    }
}
