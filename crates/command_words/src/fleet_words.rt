//! The words of the command `fleet`.
use crate::help::{DIGESTS, FLEET, HOSTS, OF_FLEET, PAIRS};
use crate::parts::{
    described, is_in_pages, json_option, option, positionals, unit_option, values_of,
};
use crate::progress_words::{progress_of, progress_option};
use clap::{Arg, ArgMatches, Command};
use command_terms::FleetWords;
use std::alloc::{AllocError, Global};

/// The command, as part of the program's. Its help has the arguments in this order.
pub fn fleet_command<'a>(alloc: Global) -> Result<Command<'a>, AllocError> {
    let args = vec![in alloc;
        unit_option(alloc),
        json_option(alloc),
        option(alloc, "hosts", "FILE", HOSTS),
        option(alloc, "pairs", "FILE", PAIRS),
        progress_option(alloc),
        digests_words(alloc),
    ]?;
    described(alloc, "fleet", FLEET, OF_FLEET).args(args)
}

fn digests_words<'a>(alloc: Global) -> Arg<'a> {
    positionals(alloc, "DIGEST", DIGESTS).required(true)
}

/// What the words behind `fleet` ask for.
pub fn fleet_words<'a>(
    alloc: Global,
    matches: &ArgMatches<'a>,
) -> Result<FleetWords<'a>, AllocError> {
    Ok(FleetWords {
        digests: values_of(alloc, matches, "DIGEST")?,
        json: matches.get_flag("json"),
        in_pages: is_in_pages(matches),
        pairs: matches.get_str("pairs"),
        hosts: matches.get_str("hosts"),
        progress: progress_of(matches),
    })
}
