//! The option `--progress`.
use crate::help::PROGRESS;
use crate::parts::{choice, option};
use clap::{Arg, ArgMatches};
use command_terms::Drawn;
use std::alloc::Global;

/// When the progress is drawn: the words that `Drawn::of_word` knows.
const WHEN: [&str; 3] = ["auto", "always", "never"];

/// The option.
pub fn progress_option<'a>(alloc: Global) -> Arg<'a> {
    choice(when_option(alloc), "auto")
}

fn when_option<'a>(alloc: Global) -> Arg<'a> {
    option(alloc, "progress", "WHEN", PROGRESS).value_parser(WHEN.as_slice())
}

/// What the words ask for.
pub fn progress_of(matches: &ArgMatches<'_>) -> Drawn {
    let word = matches.get_str("progress").unwrap_or("auto");
    // It is one of the three: the parser has looked.
    Drawn::of_word(word).unwrap_or(Drawn::Auto)
}
