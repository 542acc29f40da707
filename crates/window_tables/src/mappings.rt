//! How many mappings of the system a window's pages take.
ghost use Rattle.std.specs.Prelude.{◌≡◌, ◌+◌, ◌-◌, ◌<◌, ◌≤◌, length, min, not, replicate};
ghost use Rattle.window_pages.specs.Bytes.{digit};
ghost use Rattle.window_pages.specs.Laws.{new_page};
ghost use Rattle.window_pages.specs.Runs.{same};
ghost use Rattle.window_tables.specs.Mappings.{are_in_a_row, begins_at, is_one, is_whole, mapped_as, mappings_at, mappings_more, mappings_of};

use crate::PART;
use page_looks::parts::Part;
use window_pages::WindowPage;

// What a clue is below.
const CLUES: u16 = 32_768;

// Returns whether both are so, or neither.
pub(crate) fn same(one: bool, other: bool) -> bool
    ensures { result ≡ same one other }
{
    if one { other } else { !other }
}

// Returns whether frames with these clues may be in a row.
fn are_in_a_row(clue: u16, next: u16) -> bool
    ensures { result ≡ are_in_a_row clue next }
{
    (u32::from(clue) + 1) % u32::from(CLUES) == u32::from(next)
}

// Returns whether one mapping can hold a page and the one behind it.
fn is_one(before: &WindowPage, was_whole: bool, page: &WindowPage, is_whole: bool) -> bool
    ensures { result ≡ is_one (mapped_as was_whole before.now) (mapped_as is_whole page.now) }
{
    let one = before.known();
    let other = page.known();
    if one.over {
        other.over
            && same(one.past, other.past)
            && are_in_a_row(before.notes().clue, page.notes().clue)
    } else {
        !other.over && same(one.moved, other.moved) && !other.begins && same(was_whole, is_whole)
    }
}

// Returns whether the part of a page is whole. One that isn't there isn't.
pub(crate) fn is_whole(parts: &[Part], lead: usize, place: usize) -> bool
    ensures { result ≡ is_whole lead parts.now place }
{
    // (the sum of the two may not fit)
    let part = place / PART + lead / PART + (place % PART + lead % PART) / PART;
    part < parts.len() && parts[part].whole
}

// Returns whether a mapping begins at a place.
fn begins_at(pages: &[WindowPage], parts: &[Part], lead: usize, place: usize) -> bool
    ensures { result ≡ begins_at lead parts.now pages.now place }
{
    if place >= pages.len() {
        return false;
    }
    if place == 0 {
        return true;
    }
    let before = place - 1;
    let is_one = is_one(
        &pages[before],
        is_whole(parts, lead, before),
        &pages[place],
        is_whole(parts, lead, place),
    );
    !is_one
}

// Returns 1 if a mapping begins at a place, and 0 otherwise.
fn count_at(pages: &[WindowPage], parts: &[Part], lead: usize, place: usize) -> usize
    ensures value { result ≡ digit (begins_at lead parts.now pages.now place) }
    ensures most { result ≤ 1 }
{
    if begins_at(pages, parts, lead, place) {
        1
    } else {
        0
    }
}

// Returns how many of so many pages from one place on, and of the page behind them, are there.
fn places(pages: &[WindowPage], first: usize, count: usize) -> usize
    ensures { result ≡ min (count + 1) (length pages.now - first) }
{
    count
        .saturating_add(1)
        .min(pages.len().saturating_sub(first))
}

/// Returns how many mappings begin at `count` pages from `first` on, or at the page behind them, as far as these pages are there. Of a whole table
/// that is how many mappings it has.
pub fn mappings_at(
    pages: &[WindowPage],
    parts: &[Part],
    lead: usize,
    first: usize,
    count: usize,
) -> usize
    ensures value { result ≡ mappings_at lead parts.now pages.now first count }
    ensures most { result ≤ min (count + 1) (length pages.now - first) }
{
    let mut found = 0;
    for step in 0..places(pages, first, count) {
        found += count_at(pages, parts, lead, first + step);
    }
    found
}

/// Returns how many more mappings may begin at `count` pages from `first` on, or at the page behind them, whatever becomes of these pages.
pub fn mappings_more(
    pages: &[WindowPage],
    parts: &[Part],
    lead: usize,
    first: usize,
    count: usize,
) -> usize
    ensures { result ≡ mappings_more lead parts.now pages.now first count }
{
    places(pages, first, count) - mappings_at(pages, parts, lead, first, count)
}

// Returns 1 if one of the parts of a page and of the one before it is whole, and the other isn't, and 0 otherwise.
fn part_differs(parts: &[Part], lead: usize, place: usize) -> usize
    requires { 0 < place }
    ensures value { result ≡ digit (not (same (is_whole lead parts.now (place - 1)) (is_whole lead parts.now place))) }
    ensures most { result ≤ 1 }
{
    let is_same = same(
        is_whole(parts, lead, place - 1),
        is_whole(parts, lead, place),
    );
    if is_same { 0 } else { 1 }
}

/// Returns how many mappings a table of so many pages has whose bytes are zeros: one, and one more at each part that is whole where the one before
/// it is split, or the other way round.
pub fn mappings_new(parts: &[Part], lead: usize, count: usize) -> usize
    ensures { result ≡ mappings_of lead parts.now (replicate count new_page) }
{
    if count == 0 {
        return 0;
    }
    let first = PART - lead % PART;
    let mut found = 1;
    for step in 0..count.saturating_sub(first).div_ceil(PART) {
        found += part_differs(parts, lead, first + step * PART);
    }
    found
}
