//! The commands of the program `pageshare`. It replays journals of page requests, and runs scripts of them. It shows what sharing
//! would reclaim of memory images, or of the guests whose digests it merges.
//!
//! A command reads a file or standard input, and writes to standard output. Its status is 0 if the work was done, 1 if
//! input, output, memory or a thread was at fault, and 2 for a bad command line.
#![tactic(auto)]

mod build;
mod command_fault;
mod digest;
mod estimate;
mod fleet;
mod images;
mod output;
mod reading;
mod texts;
mod workers;

pub use build::Build;
use clap::Error;
use clap::error::ErrorKind;
use command_fault::report_fault;
use command_terms::{Asked, CommandEnd};
use command_words::asked_of;
use digest::do_digest;
use estimate::do_estimate;
use fleet::do_fleet;
use page_digest::PageHash;
use std::alloc::Global;
use std::fs::{File, Files};
use std::io::{self, Eprint, Print, Read, Write};
use std::process::ExitCode;
use std::sync::Wait;
use std::thread::Threads;
use std::time::Clock;
use texts::{do_text, report_memory};

/// Does what the words of a command line ask for, and returns the program's status. The first word is the program's
/// name.
///
/// `input` and `output` are standard input and standard output. `is_terminal` means that somebody reads standard error,
/// who is shown what was expected if a text was at fault. `build` says what the program was built for.
pub fn do_command<
    T: Threads + Wait + Sync + Files<File = File> + Print + Eprint + Clock,
    R: Read + Drop,
    W: Write + Drop,
    H: PageHash + Copy,
>(
    rt: &T,
    alloc: Global,
    words: &[String],
    input: R,
    output: W,
    is_terminal: bool,
    build: &Build<H>,
) -> io::Result<ExitCode> {
    let end = match asked_of(alloc, words, build.version) {
        Ok(Asked::Text(task)) => do_text(rt, alloc, &task, input, output, is_terminal, build.hash)?,
        Ok(Asked::Estimate(words)) => {
            report_fault(rt, do_estimate(rt, alloc, &words, output, is_terminal))?
        }
        Ok(Asked::Digest(words)) => {
            report_fault(rt, do_digest(rt, alloc, &words, output, is_terminal))?
        }
        Ok(Asked::Fleet(words)) => {
            report_fault(rt, do_fleet(rt, alloc, &words, output, is_terminal))?
        }
        Err(error) if error.kind() == ErrorKind::OutOfMemory => report_memory(rt, is_terminal)?,
        Err(error) => explain(rt, &error)?,
    };
    Ok(end.exit_code())
}

/// Prints why the words are not a command line, or the help or version that they ask for.
fn explain(rt: &(impl Print + Eprint), error: &Error) -> io::Result<CommandEnd> {
    error.print(rt)?;
    Ok(CommandEnd::of_words(error.use_stderr()))
}
