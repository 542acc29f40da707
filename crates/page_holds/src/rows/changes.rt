//! What becomes of the pages of a row when it begins, and once a step was carried out.
ghost use Rattle.std.specs.Prelude.{◌≡◌, ◌+◌, ◌<◌, ◌≤◌, Some, false, length, nat_le, slice_get, true};
ghost use Rattle.page_holds.specs.Bytes.{byte_of, byte_then, step_by};
ghost use Rattle.page_holds.specs.Rows.{CameOut, Hears, IsBegun, PageChanges, RowBegins, RowCameOut, RowChanges};
ghost use Rattle.page_holds.specs.Steps.{Took, asks_for, outcome_for, place_of};
ghost use Rattle.window_pages.specs.Bytes.{belief_of};
ghost use Rattle.window_tables.specs.Tables.{Counted, has_parts};

use crate::Taking;
use crate::rows::bytes::{byte_of, is_stuck, place_in, step_by, sticks, taking_by};
use window_pages::{PartCounts, WindowPage};
use window_tables::{PART, can_note};

// Takes what came of the attempt to hold the page at a place. Returns its byte.
fn begin_at(
    pages: &mut [WindowPage],
    parts: &mut [PartCounts],
    lead: usize,
    place: usize,
    taking: Taking,
) -> u8
    requires parts { has_parts lead pages.old parts.old ≡ true }
    requires place { place < length pages.old }
    ensures byte { result ≡ byte_of (place_of taking) false }
    ensures page { PageChanges (Hears (λ belief. asks_for belief taking)) lead place pages.old pages.new parts.old parts.new }
{
    let number = (place + lead) / PART;
    let mut page = pages[place];
    let mut part = parts[number];
    let held = crate::begin(&mut page, &mut part, taking);
    pages[place] = page;
    parts[number] = part;
    byte_of(held, false)
}

// Takes what came of the attempt to hold each page of a row.
fn begin_each(
    pages: &mut [WindowPage],
    parts: &mut [PartCounts],
    lead: usize,
    first: usize,
    row: &mut [u8],
    takings: &[u8],
)
    requires within { first + length row.old ≤ length pages.old }
    requires parts { has_parts lead pages.old parts.old ≡ true }
    requires takings { length takings.now ≡ length row.old }
    ensures pages { RowChanges (IsBegun takings.now) first 0 (length row.old) pages.old pages.new row.old row.new }
    ensures counted { Counted lead pages.old parts.old → Counted lead pages.new parts.new }
{
    for n in 0..takings.len() {
        let byte = begin_at(pages, parts, lead, first + n, taking_by(takings[n]));
        row[n] = byte;
    }
}

/// Takes what came of the attempt to hold each page of a row: 0 nothing was done, 1 writes to it may wait, 2 they wait, 3 its memory was moved
/// aside. Writes a byte of each page to `row`. The row begins with the page `first` of the table. Returns false, and changes nothing, if these pages
/// aren't all there, if the table has more pages than its parts, or if there are more or fewer attempts than bytes.
pub fn begin(
    pages: &mut [WindowPage],
    parts: &mut [PartCounts],
    lead: usize,
    first: usize,
    row: &mut [u8],
    takings: &[u8],
) -> bool
    ensures { RowBegins lead first takings.now result pages.old pages.new parts.old parts.new row.old row.new }
{
    let can = can_note(pages, parts, lead, first, row.len());
    if !can || takings.len() != row.len() {
        return false;
    }
    begin_each(pages, parts, lead, first, row, takings);
    true
}

// Takes whether the next step of a page was done. Returns its byte then. Nothing becomes of a page that is stuck.
fn come_out(page: &mut WindowPage, part: &mut PartCounts, byte: u8, is_done: bool) -> u8
    ensures byte { result ≡ byte_then (belief_of page.old) byte is_done }
    ensures page { Hears (λ belief. outcome_for (step_by belief byte) belief is_done) page.old page.new part.old part.new }
{
    let stuck = is_stuck(byte);
    if stuck {
        return byte;
    }
    let place = place_in(byte);
    let step = place.step(page.known().belief);
    let after = crate::done(page, part, place, is_done);
    byte_of(after, sticks(step, is_done))
}

// Takes whether the next step of the page at a place was done. Returns its byte then.
fn come_out_at(
    pages: &mut [WindowPage],
    parts: &mut [PartCounts],
    lead: usize,
    place: usize,
    byte: u8,
    is_done: bool,
) -> u8
    requires parts { has_parts lead pages.old parts.old ≡ true }
    requires place { place < length pages.old }
    ensures byte { (x : WindowPage) → slice_get pages.old place ≡ Some x → result ≡ byte_then (belief_of x) byte is_done }
    ensures page { PageChanges (Hears (λ belief. outcome_for (step_by belief byte) belief is_done)) lead place pages.old pages.new parts.old parts.new }
{
    let number = (place + lead) / PART;
    let mut page = pages[place];
    let mut part = parts[number];
    let after = come_out(&mut page, &mut part, byte, is_done);
    pages[place] = page;
    parts[number] = part;
    after
}

// Takes whether the next steps were done of so many pages of a row from one place on: of the first ones they were, and of the others they weren't.
fn come_out_each(
    pages: &mut [WindowPage],
    parts: &mut [PartCounts],
    lead: usize,
    first: usize,
    row: &mut [u8],
    begin: usize,
    done: usize,
    count: usize,
)
    requires within { first + length row.old ≤ length pages.old }
    requires parts { has_parts lead pages.old parts.old ≡ true }
    requires run { begin + count ≤ length row.old }
    ensures pages { RowChanges (CameOut done) first begin count pages.old pages.new row.old row.new }
    ensures counted { Counted lead pages.old parts.old → Counted lead pages.new parts.new }
{
    for n in 0..count {
        let place = begin + n;
        let byte = row[place];
        let after = come_out_at(pages, parts, lead, first + place, byte, n < done);
        row[place] = after;
    }
}

// Returns whether a run is in a row of so many pages.
fn is_in_row(begin: usize, done: usize, refused: usize, count: usize) -> bool
    ensures { result ≡ nat_le (begin + done + refused) count }
{
    begin <= count && done <= count - begin && refused <= count - begin - done
}

/// Takes what came of an order of a row: with `done` pages from the place `begin` on its step was done, and with `refused` pages behind these it
/// wasn't. The others weren't tried, and are ordered again. Returns false, and changes nothing, if these pages aren't in the row, if the row's
/// pages aren't all there, or if the table has more pages than its parts.
pub fn done(
    pages: &mut [WindowPage],
    parts: &mut [PartCounts],
    lead: usize,
    first: usize,
    row: &mut [u8],
    begin: usize,
    done: usize,
    refused: usize,
) -> bool
    ensures { RowCameOut lead first begin done refused result pages.old pages.new parts.old parts.new row.old row.new }
{
    let can = can_note(pages, parts, lead, first, row.len());
    let is_there = is_in_row(begin, done, refused, row.len());
    if !can || !is_there {
        return false;
    }
    come_out_each(pages, parts, lead, first, row, begin, done, done + refused);
    true
}
