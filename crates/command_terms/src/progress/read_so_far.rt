//! How much of the images was read.
ghost use Rattle.std.specs.Prelude.{Some};
ghost use Rattle.command_terms.specs.Shown.{amount_text, left_text, read_text};

use crate::progress::amounts::{PAGES, mebibytes_a_second, per_cent, seconds_left};
use std::fmt::{self, Display, Formatter};

/// How many of all pages were read in how many milliseconds.
#[derive(Clone, Copy, Debug, PartialEq, Eq, Drop)]
pub struct ReadSoFar {
    pub done: u64,
    pub total: u64,
    pub elapsed: u64,
}

/// The first part of the line.
#[derive(Clone, Copy)]
struct Amount(ReadSoFar);

/// The end of the line: the seconds left.
#[derive(Clone, Copy)]
struct Left(Option<u64>);

impl Display for Amount {
    ghost output = { λ a. Some (amount_text a.0) };

    fn fmt<W: fmt::Write>(&self, f: &mut Formatter<W>) -> fmt::Result {
        let ReadSoFar {
            done,
            total,
            elapsed,
        } = self.0;
        let (part, rate) = (per_cent(done, total), mebibytes_a_second(done, elapsed));
        let (read, all) = (done / PAGES, total / PAGES);
        write!(f, "{part:>3} %  {read} of {all} MiB  {rate} MiB/s")
    }
}

impl Display for Left {
    ghost output = { λ l. Some (left_text l.0) };

    fn fmt<W: fmt::Write>(&self, f: &mut Formatter<W>) -> fmt::Result {
        match self.0 {
            Some(seconds) => write!(f, "  {seconds} s left"),
            None => Ok(()),
        }
    }
}

impl Display for ReadSoFar {
    ghost output = { λ r. Some (read_text r) };

    fn fmt<W: fmt::Write>(&self, f: &mut Formatter<W>) -> fmt::Result {
        let amount = Amount(*self);
        let left = Left(seconds_left(self.done, self.total, self.elapsed));
        write!(f, "{amount}{left}")
    }
}
