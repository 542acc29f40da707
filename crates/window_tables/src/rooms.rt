//! Room for zeros in place of pages in a row.
ghost use Rattle.std.specs.Prelude.{None, Some, ◌≡◌, ◌+◌, ◌≤◌, if◌then◌else◌, length};
ghost use Rattle.window_pages.specs.Bytes.{digit};
ghost use Rattle.window_tables.specs.Rooms.{are_alone, before, is_own, joins, lies_over, may_join, wants_zeros, zeros_at, zeros_more};
ghost use Rattle.window_tables.specs.Ranges.{has_pages};

use crate::ask::has_pages;
use crate::mappings::{is_whole, mappings_at, same};
use page_looks::parts::Part;
use window_pages::WindowPage;

// Returns 1 for true.
fn digit(fact: bool) -> usize
    ensures value { result ≡ digit fact }
    ensures most { result ≤ 1 }
{
    if fact { 1 } else { 0 }
}

// Returns whether the page has memory of the window's own.
fn is_own(page: &WindowPage) -> bool
    ensures { result ≡ is_own page.now }
{
    let known = page.known();
    !known.over && !known.out
}

// Returns whether the system may join zeros with the page at a place, if it is there.
fn may_join(pages: &[WindowPage], parts: &[Part], lead: usize, whole: bool, place: usize) -> bool
    ensures { result ≡ may_join lead parts.now whole pages.now place }
{
    if place >= pages.len() {
        return false;
    }
    is_own(&pages[place]) && same(is_whole(parts, lead, place), whole)
}

// Returns whether it joins them.
fn joins(pages: &[WindowPage], parts: &[Part], lead: usize, whole: bool, place: usize) -> bool
    ensures { result ≡ joins lead parts.now whole pages.now place }
{
    if place >= pages.len() {
        return false;
    }
    is_own(&pages[place])
        && same(is_whole(parts, lead, place), whole)
        && !pages[place].known().moved
}

// Returns whether the system may join zeros with the page before a place.
fn may_join_before(
    pages: &[WindowPage],
    parts: &[Part],
    lead: usize,
    whole: bool,
    place: usize,
) -> bool
    ensures { result ≡ before (may_join lead parts.now whole pages.now) place }
{
    if place == 0 {
        return false;
    }
    may_join(pages, parts, lead, whole, place - 1)
}

// Returns whether it joins them.
fn joins_before(
    pages: &[WindowPage],
    parts: &[Part],
    lead: usize,
    whole: bool,
    place: usize,
) -> bool
    ensures { result ≡ before (joins lead parts.now whole pages.now) place }
{
    if place == 0 {
        return false;
    }
    joins(pages, parts, lead, whole, place - 1)
}

// Returns whether zeros that are put in the place of so many pages will be a mapping by themselves.
pub(crate) fn are_alone(
    pages: &[WindowPage],
    parts: &[Part],
    lead: usize,
    first: usize,
    count: usize,
) -> bool
    requires { first + count ≤ length pages.now }
    ensures { result ≡ are_alone lead parts.now pages.now first count }
{
    let whole = is_whole(parts, lead, first);
    let joins = may_join_before(pages, parts, lead, whole, first);
    !joins && !may_join(pages, parts, lead, whole, first + count)
}

// Returns how many mappings begin then at so many pages, or at the page behind them.
fn zeros_at(pages: &[WindowPage], parts: &[Part], lead: usize, first: usize, count: usize) -> usize
    requires { first + count ≤ length pages.now }
    ensures { result ≡ zeros_at lead parts.now pages.now first count }
{
    let whole = is_whole(parts, lead, first);
    let behind = first + count;
    let begins = !joins_before(pages, parts, lead, whole, first);
    let ends = behind < pages.len() && !joins(pages, parts, lead, whole, behind);
    digit(begins) + digit(ends)
}

// Returns how many more mappings there are once zeros are put in the place of so many pages.
fn zeros_more_at(
    pages: &[WindowPage],
    parts: &[Part],
    lead: usize,
    first: usize,
    count: usize,
) -> usize
    requires { first + count ≤ length pages.now }
    ensures { result ≡ zeros_more lead parts.now pages.now first count }
{
    let before = mappings_at(pages, parts, lead, first, count);
    zeros_at(pages, parts, lead, first, count).saturating_sub(before)
}

/// Returns how many more mappings there are once zeros are put in the place of so many pages from one on; nothing if they aren't all there.
pub fn zeros_more(
    pages: &[WindowPage],
    parts: &[Part],
    lead: usize,
    first: usize,
    count: usize,
) -> Option<usize>
    ensures { result ≡ if has_pages first count pages.now then Some (zeros_more lead parts.now pages.now first count) else None }
{
    let are_there = has_pages(pages, first, count);
    if !are_there {
        return None;
    }
    Some(zeros_more_at(pages, parts, lead, first, count))
}

/// Returns whether a frame lies under the page at a place. Under one that isn't there none does.
pub fn lies_over(pages: &[WindowPage], place: usize) -> bool
    ensures { result ≡ lies_over pages.now place }
{
    if place >= pages.len() {
        return false;
    }
    pages[place].known().over
}

/// Returns whether zeros are to be mapped in place of so many alike pages that are given up: frames lie under them, or they are in more mappings
/// than one, and nobody else watches them (`is_watched`).
pub fn wants_zeros(
    pages: &[WindowPage],
    parts: &[Part],
    lead: usize,
    first: usize,
    count: usize,
    is_watched: bool,
) -> bool
    ensures { result ≡ wants_zeros lead parts.now pages.now first count is_watched }
{
    lies_over(pages, first) || (!is_watched && mappings_at(pages, parts, lead, first, count) > 2)
}
