//! The parts that the commands are made of.
use crate::help::{JSON, UNIT};
use clap::error::ErrorKind;
use clap::{Arg, ArgAction, ArgMatches, Command, Error};
use std::alloc::{AllocError, Global};

/// In what a table's numbers are.
const UNITS: [&str; 2] = ["mib", "pages"];

/// A command, with a line on what it does and the text below its help.
pub fn described<'a>(alloc: Global, name: &'a str, about: &'a str, below: &'a str) -> Command<'a> {
    named(alloc, name, about).after_help(below)
}

fn named<'a>(alloc: Global, name: &'a str, about: &'a str) -> Command<'a> {
    Command::new(alloc, name).about(about)
}

/// A word that stands by itself, with what it is.
pub fn positional<'a>(alloc: Global, name: &'a str, help: &'a str) -> Arg<'a> {
    Arg::new(alloc, name).help(help)
}

/// Any number of words that stand by themselves.
pub fn positionals<'a>(alloc: Global, name: &'a str, help: &'a str) -> Arg<'a> {
    positional(alloc, name, help).num_args(1..)
}

/// `--name`, which takes no value.
pub fn flag<'a>(alloc: Global, name: &'a str, help: &'a str) -> Arg<'a> {
    long(alloc, name, help).action(ArgAction::SetTrue)
}

/// `--name VALUE`.
pub fn option<'a>(alloc: Global, name: &'a str, value: &'a str, help: &'a str) -> Arg<'a> {
    long(alloc, name, help).value_name(value)
}

/// An option of a few values, which its help has, and the one that it has by default.
pub fn choice<'a>(option: Arg<'a>, default: &'a str) -> Arg<'a> {
    option.default_value(default).hide_possible_values(true)
}

fn long<'a>(alloc: Global, name: &'a str, help: &'a str) -> Arg<'a> {
    positional(alloc, name, help).long(name)
}

/// The option `--json`.
pub fn json_option<'a>(alloc: Global) -> Arg<'a> {
    flag(alloc, "json", JSON)
}

/// The option `--unit`.
pub fn unit_option<'a>(alloc: Global) -> Arg<'a> {
    choice(of_units(alloc), "mib")
}

fn of_units<'a>(alloc: Global) -> Arg<'a> {
    option(alloc, "unit", "UNIT", UNIT).value_parser(UNITS.as_slice())
}

/// Whether the words ask for pages.
pub fn is_in_pages(matches: &ArgMatches<'_>) -> bool {
    matches.get_str("unit") == Some("pages")
}

/// The values of an argument, in their order.
pub fn values_of<'a>(
    alloc: Global,
    matches: &ArgMatches<'a>,
    name: &str,
) -> Result<Vec<&'a str>, AllocError> {
    let mut values = Vec::new(alloc);
    if let Some(texts) = matches.get_strs(name) {
        for text in texts {
            values.push(*text)?;
        }
    }
    Ok(values)
}

/// The values of an argument whose values are numbers, in their order.
pub fn numbers_of(
    alloc: Global,
    matches: &ArgMatches<'_>,
    name: &str,
) -> Result<Vec<u32>, AllocError> {
    let mut numbers = Vec::new(alloc);
    if let Some(texts) = matches.get_strs(name) {
        for text in texts {
            // Each is the text of a number: the parser has looked.
            numbers.push(text.parse::<u32>().unwrap_or(0))?;
        }
    }
    Ok(numbers)
}

/// A fault of a command's words.
pub fn mistake(
    command: Command<'_>,
    name: &'static str,
    kind: ErrorKind,
    message: &str,
) -> Result<Error, AllocError> {
    command.bin_name(name)?.error(kind, message)
}
