//! How far a run is.
ghost use Rattle.std.specs.Prelude.{Some};
ghost use Rattle.command_terms.specs.Shown.{served_text, pages_text, run_text};

use crate::progress::amounts::{a_second, per_cent};
use std::fmt::{self, Display, Formatter};

/// How far a run has come in how many milliseconds.
#[derive(Clone, Copy, Debug, PartialEq, Eq, Drop)]
pub struct RunSoFar {
    pub requests: u64,
    pub entries: u32,
    pub mapped: u32,
    pub shared: u32,
    pub reclaimed: u32,
    pub elapsed: u64,
}

/// The first part of the line: the requests.
#[derive(Clone, Copy)]
struct Served(RunSoFar);

/// The end of the line: the pages.
#[derive(Clone, Copy)]
struct Pages(RunSoFar);

impl Display for Served {
    ghost output = { λ s. Some (served_text s.0) };

    fn fmt<W: fmt::Write>(&self, f: &mut Formatter<W>) -> fmt::Result {
        let (done, all) = (u64::from(self.0.entries), self.0.requests);
        let (part, rate) = (per_cent(done, all), a_second(done, self.0.elapsed));
        write!(f, "{part:>3} %  {done} of {all} requests  {rate} a second")
    }
}

impl Display for Pages {
    ghost output = { λ p. Some (pages_text p.0) };

    fn fmt<W: fmt::Write>(&self, f: &mut Formatter<W>) -> fmt::Result {
        let (mapped, shared, reclaimed) = (self.0.mapped, self.0.shared, self.0.reclaimed);
        write!(
            f,
            "  {mapped} pages mapped, {shared} shared, {reclaimed} reclaimed"
        )
    }
}

impl Display for RunSoFar {
    ghost output = { λ r. Some (run_text r) };

    fn fmt<W: fmt::Write>(&self, f: &mut Formatter<W>) -> fmt::Result {
        let (served, pages) = (Served(*self), Pages(*self));
        write!(f, "{served}{pages}")
    }
}
