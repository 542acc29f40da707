//! What came of the steps of a scan.
ghost use Rattle.std.specs.Prelude.{◌≡◌, ◌+◌, ◌<◌, ◌≤◌, length, true};
ghost use Rattle.page_holds.specs.Rows.{PageChanges, RowChanges};
ghost use Rattle.part_scans.specs.Scans.{GoesOn, GoesOnAt, RowGoes};
ghost use Rattle.window_tables.specs.Tables.{Counted, has_parts};

use crate::Scan;
use crate::seen::{byte_of, has_step, seen_in};
use crate::taking::fits;
use page_looks::finds::{FindOutcome, looks_of};
use window_pages::{PartCounts, WindowPage};
use window_tables::PART;

// Takes what came of the step of a page. Returns its byte then.
fn go_on(
    page: &mut WindowPage,
    part: &mut PartCounts,
    scan: &Scan,
    outcome: &FindOutcome,
    place: usize,
    byte: u8,
) -> u8
    ensures { GoesOn scan.now outcome.now place byte result page.old page.new part.old part.new }
{
    let seen = seen_in(byte);
    let is_due = has_step(seen.step);
    if !is_due {
        return byte;
    }
    let before = looks_of(page);
    let next = page_looks::finds::done(page, part, &scan.sight(place), seen.step, outcome);
    let after = looks_of(page);
    byte_of(&seen.then(next, &before, &after))
}

// Takes what came of the step of the page at a place. Returns its byte then.
fn go_on_at(
    pages: &mut [WindowPage],
    parts: &mut [PartCounts],
    lead: usize,
    scan: &Scan,
    outcome: &FindOutcome,
    place: usize,
    byte: u8,
) -> u8
    requires parts { has_parts lead pages.old parts.old ≡ true }
    requires place { place < length pages.old }
    ensures { PageChanges (GoesOn scan.now outcome.now place byte result) lead place pages.old pages.new parts.old parts.new }
{
    go_on(
        &mut pages[place],
        &mut parts[(place + lead) / PART],
        scan,
        outcome,
        place,
        byte,
    )
}

// Takes what came of the steps of a row's pages.
fn go_on_each(
    pages: &mut [WindowPage],
    parts: &mut [PartCounts],
    lead: usize,
    scan: &Scan,
    first: usize,
    outcomes: &[FindOutcome],
    row: &mut [u8],
)
    requires within { first + length row.old ≤ length pages.old }
    requires parts { has_parts lead pages.old parts.old ≡ true }
    requires outcomes { length outcomes.now ≡ length row.old }
    ensures pages { RowChanges (GoesOnAt scan.now first outcomes.now) first 0 (length row.old) pages.old pages.new row.old row.new }
    ensures counted { Counted lead pages.old parts.old → Counted lead pages.new parts.new }
{
    for n in 0..outcomes.len() {
        let byte = row[n];
        let after = go_on_at(pages, parts, lead, scan, &outcomes[n], first + n, byte);
        row[n] = after;
    }
}

/// Takes what came of the step of each page that has one: `outcomes` has one of each page, which counts for nothing if the page has no step. Writes what
/// is done next to its byte. Returns false, and changes nothing, if the pages aren't all there, if the table has more pages than its parts, or if
/// there are more or fewer outcomes than bytes.
pub fn done(
    pages: &mut [WindowPage],
    parts: &mut [PartCounts],
    lead: usize,
    scan: &Scan,
    first: usize,
    outcomes: &[FindOutcome],
    row: &mut [u8],
) -> bool
    ensures { RowGoes (GoesOnAt scan.now first outcomes.now) lead first (length outcomes.now) result pages.old pages.new parts.old parts.new row.old row.new }
{
    let can = fits(pages, parts, lead, first, outcomes.len(), row);
    if !can {
        return false;
    }
    go_on_each(pages, parts, lead, scan, first, outcomes, row);
    true
}
