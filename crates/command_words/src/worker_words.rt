//! The option `--workers`.
use crate::help::WORKERS;
use crate::parts::option;
use clap::{Arg, ArgMatches, value_parser};
use std::alloc::Global;

/// The option.
pub fn workers_option<'a>(alloc: Global) -> Arg<'a> {
    let workers = option(alloc, "workers", "N", WORKERS);
    workers.value_parser(value_parser!(u32).range(1..=64))
}

/// What the words ask for.
pub fn workers_of(matches: &ArgMatches<'_>) -> Option<u32> {
    matches.get_one::<u32>("workers")
}
