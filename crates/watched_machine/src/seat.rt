//! The rule by which `left_right` shows reports. It speaks only of lists of reports.
use crate::history::History;
use crate::shown::Shown;
use atomic_table::{Join, Split};
use crossbeam_utils::rule::{Outcome, Protocol};

/// What the publisher, or a watch, knows of what is shown. No value of it is ever made.
pub struct Seat {
    /// Whether it knows whose log it is.
    pub is_tied: bool,
    /// The log as far as it was seen.
    pub history: History,
}

/// Every list that was seen is a front of the list that is shown.
pub struct LastShown;

impl Protocol<Shown, Seat> for LastShown {
    ghost use Rattle.watched_machine.specs.Showing.{ShowsLast, newcomer};

    ghost holds = { ShowsLast };

    ghost first = { newcomer };
}

/// A watch reads what is shown.
pub struct Looked;

impl Outcome<Shown, Seat> for Looked {
    ghost use Rattle.watched_machine.specs.Showing.{Looks};

    ghost then = { Looks };
}

/// The publisher shows something.
pub struct Replaced;

impl Outcome<Shown, Seat> for Replaced {
    ghost use Rattle.watched_machine.specs.Showing.{Replaces};

    ghost then = { Replaces };
}

/// A new watch learns whose log it is, and no more.
pub struct Tied;

impl Split<Seat> for Tied {
    ghost use Rattle.watched_machine.specs.Showing.{tied_only};

    ghost left = { λ seat. seat };

    ghost right = { tied_only };
}

impl Join<Seat> for Tied {
    ghost use Rattle.watched_machine.specs.Showing.{newcomer};

    ghost both = { λ seat told. told };

    ghost spent = { newcomer };
}
