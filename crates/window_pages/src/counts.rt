//! Counts of the pages of a part.
ghost use Rattle.std.specs.Prelude.{◌≡◌};
ghost use Rattle.window_pages.specs.Bytes.{digit};
ghost use Rattle.window_pages.specs.Counted.{count_then, counts_then, is_to_release};
ghost use Rattle.window_pages.specs.Known.{is_given_back, shows_past};
ghost use Rattle.page_lender.specs.Decisions.{shows};

use crate::bytes::has_slot;
use crate::{KnownPage, WindowPage};

/// Counts of the pages of a part of a window.
#[repr(C)]
#[derive(Clone, Copy, Debug, PartialEq, Eq)]
pub struct PartCounts {
    /// Pages whose slot is to be released.
    pub releases: u16,
    /// Pages that show their frame.
    pub lent: u16,
    /// Pages that were given back as zeros, and have no memory since.
    pub zeros: u16,
    /// Pages that show a frame of a lender that is gone.
    pub past: u16,
    /// Pages that were seen elsewhere, or are zeros.
    pub shareable: u16,
}

// Returns 1 for true.
fn digit(fact: bool) -> u16
    ensures { result ≡ digit fact }
{
    if fact { 1 } else { 0 }
}

// Returns a count once one of its pages has changed.
fn count_then(count: u16, before: bool, after: bool) -> u16
    ensures { result ≡ count_then count before after }
{
    count
        .saturating_sub(digit(before))
        .saturating_add(digit(after))
}

impl KnownPage {
    // Returns whether its slot is to be released.
    pub(crate) fn is_to_release(&self) -> bool
        ensures { result ≡ is_to_release self.now }
    {
        has_slot(self.belief) && !self.belief.shows()
    }

    // Returns whether it was given back as zeros, and has no memory since.
    fn is_given_back(&self) -> bool
        ensures { result ≡ is_given_back self.now }
    {
        !self.over && self.same
    }

    // Returns whether it shows a frame of a lender that is gone.
    pub(crate) fn shows_past(&self) -> bool
        ensures { result ≡ shows_past self.now }
    {
        self.over && self.same
    }
}

impl PartCounts {
    // Counts a page of the part that has changed.
    pub(crate) fn follow(&mut self, old: &WindowPage, new: &WindowPage)
        ensures { self.new ≡ counts_then old.now new.now self.old }
    {
        let before = old.known();
        let after = new.known();
        *self = PartCounts {
            releases: count_then(self.releases, before.is_to_release(), after.is_to_release()),
            lent: count_then(self.lent, before.belief.shows(), after.belief.shows()),
            zeros: count_then(self.zeros, before.is_given_back(), after.is_given_back()),
            past: count_then(self.past, before.shows_past(), after.shows_past()),
            shareable: count_then(self.shareable, old.notes().seen, new.notes().seen),
        };
    }
}
