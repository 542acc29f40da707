//! What pages of a list have in common.
ghost use Rattle.std.specs.Prelude.{◌≡◌};
ghost use Rattle.lend_steps.specs.Lists.{Told};
ghost use Rattle.page_looks.specs.Idle.{asked_last};
ghost use Rattle.page_looks.specs.Notes.{Notes, looks_of};
ghost use Rattle.window_pages.specs.Bytes.{known_of, notes_of};
ghost use Rattle.window_pages.specs.Known.{takes};
ghost use Rattle.window_tables.specs.Facts.{only_called};
ghost use Rattle.window_tables.specs.Mappings.{is_whole};
ghost use Rattle.window_tables.specs.Tables.{part_at};

use page_lender::Outcome;
use page_looks::finds::{looks_of, write_looks};
use page_looks::parts::Part;
use window_pages::{PartCounts, WindowFacts, WindowPage, take};
use window_tables::PART;

/// Nothing is so of a page besides.
pub(crate) const NO_FACTS: WindowFacts = WindowFacts {
    called: false,
    pinned: false,
    may_pin: false,
    inherited: false,
    locked: false,
    leaves: false,
    ended: false,
};

// Takes this outcome of a page's order, if one is open that can have it. Returns whether one is.
pub(crate) fn tell(page: &mut WindowPage, part: &mut PartCounts, outcome: Outcome) -> bool
    ensures takes { result ≡ takes outcome (known_of page.old) }
    ensures told { Told outcome page.old page.new part.old part.new }
{
    take(page, part, outcome)
}

// Notes that a page can't be lent now. So it is asked about as seldom as one that was asked about in vain most often.
pub(crate) fn ask_last(page: &mut WindowPage, part: &mut PartCounts)
    ensures { Notes (asked_last (looks_of page.old)) (notes_of page.old).seen page.old page.new part.old part.new }
{
    let mut looks = looks_of(page);
    looks.asked_last();
    let seen = page.notes().seen;
    write_looks(page, part, &looks, seen);
}

// Returns which part a page belongs to.
pub(crate) fn part_at(lead: usize, place: usize) -> usize
    ensures { result ≡ part_at lead place }
{
    // (the sum of the two may not fit)
    place / PART + lead / PART + (place % PART + lead % PART) / PART
}

// Returns whether the part of a page is whole. One that isn't there isn't.
pub(crate) fn is_whole(parts: &[Part], lead: usize, place: usize) -> bool
    ensures { result ≡ is_whole lead parts.now place }
{
    let part = part_at(lead, place);
    part < parts.len() && parts[part].whole
}
