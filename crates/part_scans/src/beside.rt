//! Where a page has changed, those beside it are taken, too.
ghost use Rattle.std.specs.Prelude.{◌≡◌, ◌+◌, ◌<◌, ◌≤◌, ◌||◌, length, true};
ghost use Rattle.page_holds.specs.Orders.{facts_there};
ghost use Rattle.page_holds.specs.Rows.{PageChanges, RowChanges};
ghost use Rattle.part_scans.specs.Scans.{Follows, FollowsAt, RowGoes, changed_at};
ghost use Rattle.window_tables.specs.Tables.{Counted, has_parts};

use crate::Scan;
use crate::scan::memory_by;
use crate::seen::seen_in;
use crate::taking::{fits, take};
use page_looks::finds::Memory;
use window_pages::{PartCounts, WindowPage};
use window_tables::{PART, TableFacts};

// Takes a page, if the scan follows a change to it. Returns its byte.
fn follow_one(
    page: &mut WindowPage,
    part: &mut PartCounts,
    scan: &Scan,
    table: &TableFacts,
    pins: &[u16],
    memory: Memory,
    is_beside: bool,
    place: usize,
    byte: u8,
) -> u8
    ensures { Follows scan.now (facts_there table.now pins.now place) memory is_beside place byte result page.old page.new part.old part.new }
{
    let is_so = scan.follows(page, memory, seen_in(byte).taken, is_beside, place);
    take(page, part, scan, table, pins, memory, place, is_so, byte)
}

// Takes the page at a place, if the scan follows a change to it. Returns its byte.
fn follow_at(
    pages: &mut [WindowPage],
    parts: &mut [PartCounts],
    lead: usize,
    scan: &Scan,
    table: &TableFacts,
    pins: &[u16],
    memory: Memory,
    is_beside: bool,
    place: usize,
    byte: u8,
) -> u8
    requires parts { has_parts lead pages.old parts.old ≡ true }
    requires place { place < length pages.old }
    ensures { PageChanges (Follows scan.now (facts_there table.now pins.now place) memory is_beside place byte result) lead place pages.old pages.new parts.old parts.new }
{
    follow_one(
        &mut pages[place],
        &mut parts[(place + lead) / PART],
        scan,
        table,
        pins,
        memory,
        is_beside,
        place,
        byte,
    )
}

// Returns whether the page at a place of the row was idle, and has changed.
fn changed_at(row: &[u8], n: usize) -> bool
    ensures { result ≡ changed_at row.now n }
{
    n < row.len() && seen_in(row[n]).changed
}

// Returns whether a page beside the one at a place has changed: the one before it, or the one behind it.
fn is_beside(before: bool, row: &[u8], n: usize) -> bool
    requires { n < length row.now }
    ensures { result ≡ (before || changed_at row.now (n + 1)) }
{
    before || changed_at(row, n + 1)
}

// Takes those pages of a row to which the scan follows a change.
fn follow_each(
    pages: &mut [WindowPage],
    parts: &mut [PartCounts],
    lead: usize,
    scan: &Scan,
    table: &TableFacts,
    pins: &[u16],
    first: usize,
    memory: &[u8],
    row: &mut [u8],
)
    requires within { first + length row.old ≤ length pages.old }
    requires parts { has_parts lead pages.old parts.old ≡ true }
    requires memory { length memory.now ≡ length row.old }
    ensures pages { RowChanges (FollowsAt scan.now table.now pins.now first memory.now row.old) first 0 (length row.old) pages.old pages.new row.old row.new }
    ensures counted { Counted lead pages.old parts.old → Counted lead pages.new parts.new }
{
    let mut before = false;
    for n in 0..memory.len() {
        let byte = row[n];
        let beside = is_beside(before, row, n);
        let after = follow_at(
            pages,
            parts,
            lead,
            scan,
            table,
            pins,
            memory_by(memory[n]),
            beside,
            first + n,
            byte,
        );
        row[n] = after;
        before = seen_in(byte).changed;
    }
}

/// Follows changes: where a page of a part that rests has changed, the pages beside it are taken, too, that the scan would leave out. Writes what is
/// done first with these to their bytes. Returns false, and changes nothing, if the pages aren't all there, if the table has more pages than its
/// parts, or if there are more or fewer bytes than pages.
pub fn follow(
    pages: &mut [WindowPage],
    parts: &mut [PartCounts],
    lead: usize,
    scan: &Scan,
    table: &TableFacts,
    pins: &[u16],
    first: usize,
    memory: &[u8],
    row: &mut [u8],
) -> bool
    ensures { RowGoes (FollowsAt scan.now table.now pins.now first memory.now row.old) lead first (length memory.now) result pages.old pages.new parts.old parts.new row.old row.new }
{
    let can = fits(pages, parts, lead, first, memory.len(), row);
    if !can {
        return false;
    }
    follow_each(pages, parts, lead, scan, table, pins, first, memory, row);
    true
}
