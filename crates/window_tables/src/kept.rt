//! What becomes of pages and of parts, beside a number of mappings that is kept.
ghost use Rattle.std.specs.Prelude.{◌≡◌, ◌+◌, ◌/◌, ◌<◌, ◌^◌, ◌||◌, false, length, not, true};
ghost use Rattle.window_tables.specs.Mappings.{IsSet, is_part, kept_then, mappings_at};
ghost use Rattle.window_tables.specs.Rooms.{are_alone};
ghost use Rattle.window_tables.specs.Tables.{Notes};
ghost use Rattle.window_tables.specs.declared.changes.Change.TheVariants as Change;

use crate::ask::has_pages;
use crate::rooms::are_alone;
use crate::{Change, PART, can_note, mappings_at, note};
use page_looks::parts::Part;
use window_pages::{PartCounts, WindowPage};

// Returns the number of mappings once there are so many of some pages, where there were so many before.
pub(crate) fn kept_then(mappings: usize, before: usize, after: usize) -> usize
    ensures { result ≡ kept_then mappings before after }
{
    mappings.saturating_sub(before).saturating_add(after)
}

/// Notes what becomes of so many pages from one on, as `note` does, and how many mappings there are then: as many as before, less those that began
/// at these pages or at the one behind them, and those that begin there then. `wholes` has the parts. Returns false, and changes nothing, where
/// `note` does.
pub fn note_kept(
    pages: &mut [WindowPage],
    parts: &mut [PartCounts],
    lead: usize,
    wholes: &[Part],
    first: usize,
    count: usize,
    what: Change,
    mappings: &mut usize,
) -> bool
    ensures notes { Notes what lead first count result pages.old pages.new parts.old parts.new }
    ensures mappings { result ≡ true → mappings.new ≡ kept_then mappings.old (mappings_at lead wholes.now pages.old first count) (mappings_at lead wholes.now pages.new first count) }
    ensures same { result ≡ false → mappings.new ≡ mappings.old }
{
    let before = mappings_at(pages, wholes, lead, first, count);
    let is_noted = note(pages, parts, lead, first, count, what);
    if !is_noted {
        return false;
    }
    let after = mappings_at(pages, wholes, lead, first, count);
    *mappings = kept_then(*mappings, before, after);
    true
}

/// Notes that zeros were mapped in place of so many pages from one on, as `note_kept` does. They are a mapping by themselves if the system can join
/// them with nothing beside them, or if it refused to say of them what is said of the window (`is_said`).
pub fn put_zeros(
    pages: &mut [WindowPage],
    parts: &mut [PartCounts],
    lead: usize,
    wholes: &[Part],
    first: usize,
    count: usize,
    is_said: bool,
    mappings: &mut usize,
) -> bool
    ensures notes { Notes (Change.Uncovered (are_alone lead wholes.now pages.old first count || not is_said)) lead first count result pages.old pages.new parts.old parts.new }
    ensures mappings { result ≡ true → mappings.new ≡ kept_then mappings.old (mappings_at lead wholes.now pages.old first count) (mappings_at lead wholes.now pages.new first count) }
    ensures same { result ≡ false → mappings.new ≡ mappings.old }
{
    let can = can_note(pages, parts, lead, first, count);
    if !can {
        return false;
    }
    let moved = are_alone(pages, wholes, lead, first, count) || !is_said;
    note_kept(
        pages,
        parts,
        lead,
        wholes,
        first,
        count,
        Change::Uncovered(moved),
        mappings,
    )
}

// Returns whether so many pages from one on are a whole part of the table.
fn is_part(pages: &[WindowPage], wholes: &[Part], lead: usize, first: usize) -> bool
    ensures value { result ≡ is_part lead first pages.now wholes.now }
    ensures within { result ≡ true → (first + lead) / 512 < length wholes.now }
    ensures fits { result ≡ true → first + lead < 2 ^ 64 }
{
    let are_there = has_pages(pages, first, PART);
    if !are_there || lead >= PART {
        return false;
    }
    (first + lead) % PART == 0 && (first + lead) / PART < wholes.len()
}

// Makes the part of a page whole, or split.
fn set_at(wholes: &mut [Part], lead: usize, first: usize, is_whole: bool)
    requires fits { first + lead < 2 ^ 64 }
    requires within { (first + lead) / 512 < length wholes.old }
    ensures { IsSet is_whole lead first wholes.old wholes.new }
{
    let number = (first + lead) / PART;
    let mut part = wholes[number];
    part.whole = is_whole;
    wholes[number] = part;
}

/// Notes that the part whose first page is this one is whole from now on, or split, and how many mappings there are then. Returns false, and changes
/// nothing, if this isn't the first page of a part whose pages are all there.
pub fn set_whole(
    pages: &[WindowPage],
    wholes: &mut [Part],
    lead: usize,
    first: usize,
    is_whole: bool,
    mappings: &mut usize,
) -> bool
    ensures set { result ≡ is_part lead first pages.now wholes.old }
    ensures whole { result ≡ true → IsSet is_whole lead first wholes.old wholes.new }
    ensures mappings { result ≡ true → mappings.new ≡ kept_then mappings.old (mappings_at lead wholes.old pages.now first 512) (mappings_at lead wholes.new pages.now first 512) }
    ensures same { result ≡ false → mappings.new ≡ mappings.old }
    ensures same_parts { result ≡ false → wholes.new ≡ wholes.old }
{
    let can = is_part(pages, wholes, lead, first);
    if !can {
        return false;
    }
    let before = mappings_at(pages, wholes, lead, first, PART);
    set_at(wholes, lead, first, is_whole);
    let after = mappings_at(pages, wholes, lead, first, PART);
    *mappings = kept_then(*mappings, before, after);
    true
}
