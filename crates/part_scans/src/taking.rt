//! The beginning of a scan.
ghost use Rattle.std.specs.Prelude.{◌≡◌, ◌+◌, ◌<◌, ◌≤◌, ◌||◌, length, true};
ghost use Rattle.page_holds.specs.Orders.{facts_there};
ghost use Rattle.page_holds.specs.Rows.{PageChanges, RowChanges};
ghost use Rattle.page_looks.specs.Steps.{has_memory};
ghost use Rattle.part_scans.specs.Scans.{Begins, BeginsAt, IsTaken, RowGoes, fits, has_past, turn_at};
ghost use Rattle.window_tables.specs.Tables.{Counted, has_parts, part_at};

use crate::Scan;
use crate::scan::memory_by;
use crate::seen::byte_of;
use page_looks::finds::Memory;
use window_pages::{PartCounts, WindowFacts, WindowPage};
use window_tables::{PART, TableFacts, can_note, facts_of};

// Nothing is so of a page besides.
const NO_FACTS: WindowFacts = WindowFacts {
    called: false,
    pinned: false,
    may_pin: false,
    inherited: false,
    locked: false,
    leaves: false,
    ended: false,
};

// Takes a page, if this is so. Returns its byte, and else `other`.
pub(crate) fn take(
    page: &mut WindowPage,
    part: &mut PartCounts,
    scan: &Scan,
    table: &TableFacts,
    pins: &[u16],
    memory: Memory,
    place: usize,
    is_so: bool,
    other: u8,
) -> u8
    ensures { IsTaken scan.now (facts_there table.now pins.now place) memory place is_so other result page.old page.new part.old part.new }
{
    if !is_so {
        return other;
    }
    let facts = facts_of(table, pins, &NO_FACTS, place);
    let sight = scan.sight(place);
    let step = page_looks::finds::begin(page, part, &facts, &sight, memory, place < scan.ready);
    byte_of(&scan.first_seen(page, memory, step))
}

// Takes a page, if the scan does. `all`: also one that has no memory of its own. Returns its byte.
fn begin_one(
    page: &mut WindowPage,
    part: &mut PartCounts,
    scan: &Scan,
    table: &TableFacts,
    pins: &[u16],
    memory: Memory,
    all: bool,
    is_turn: bool,
    place: usize,
) -> u8
    requires { is_turn ≡ turn_at scan.now place }
    ensures { Begins scan.now (facts_there table.now pins.now place) memory (all || has_memory memory) place result page.old page.new part.old part.new }
{
    let is_so = scan.takes(page, all || memory.has_memory(), is_turn, place);
    take(page, part, scan, table, pins, memory, place, is_so, 0)
}

// Takes the page at a place, if the scan does. Returns its byte.
fn begin_at(
    pages: &mut [WindowPage],
    parts: &mut [PartCounts],
    lead: usize,
    scan: &Scan,
    table: &TableFacts,
    pins: &[u16],
    memory: Memory,
    all: bool,
    is_turn: bool,
    place: usize,
) -> u8
    requires parts { has_parts lead pages.old parts.old ≡ true }
    requires place { place < length pages.old }
    requires turn { is_turn ≡ turn_at scan.now place }
    ensures { PageChanges (Begins scan.now (facts_there table.now pins.now place) memory (all || has_memory memory) place result) lead place pages.old pages.new parts.old parts.new }
{
    begin_one(
        &mut pages[place],
        &mut parts[(place + lead) / PART],
        scan,
        table,
        pins,
        memory,
        all,
        is_turn,
        place,
    )
}

// Takes those pages of a row that the scan takes.
fn begin_each(
    pages: &mut [WindowPage],
    parts: &mut [PartCounts],
    lead: usize,
    scan: &Scan,
    table: &TableFacts,
    pins: &[u16],
    first: usize,
    all: bool,
    memory: &[u8],
    row: &mut [u8],
)
    requires within { first + length row.old ≤ length pages.old }
    requires parts { has_parts lead pages.old parts.old ≡ true }
    requires memory { length memory.now ≡ length row.old }
    ensures pages { RowChanges (BeginsAt scan.now table.now pins.now first all memory.now) first 0 (length row.old) pages.old pages.new row.old row.new }
    ensures counted { Counted lead pages.old parts.old → Counted lead pages.new parts.new }
{
    let mut is_turn = scan.turn_at(first);
    for n in 0..memory.len() {
        let byte = begin_at(
            pages,
            parts,
            lead,
            scan,
            table,
            pins,
            memory_by(memory[n]),
            all,
            is_turn,
            first + n,
        );
        row[n] = byte;
        is_turn = scan.turn_after(is_turn, first + n);
    }
}

// Returns whether pages of a part show frames of a lender that is gone.
fn has_past(parts: &[PartCounts], number: usize) -> bool
    ensures { result ≡ has_past number parts.now }
{
    number < parts.len() && parts[number].past > 0
}

// Returns whether pages of a row, and what there is of so many, fit to the tables.
pub(crate) fn fits(
    pages: &[WindowPage],
    parts: &[PartCounts],
    lead: usize,
    first: usize,
    count: usize,
    row: &[u8],
) -> bool
    ensures fits { result ≡ fits lead first count pages.now parts.now row.now }
    ensures within { result ≡ true → first + length row.now ≤ length pages.now }
    ensures parts { result ≡ true → has_parts lead pages.now parts.now ≡ true }
    ensures count { result ≡ true → count ≡ length row.now }
{
    let can = can_note(pages, parts, lead, first, row.len());
    can && count == row.len()
}

/// Begins a scan of pages of a part, of which the first is the page `first` of the table. `memory` has which memory the system has for each: 0 none
/// of its own, 1 some, 2 some that is swapped out. Writes a byte of each page to `row`: what is done next with it, if the scan takes it. Facts are
/// those of the table and its pins. Returns false, and changes nothing, if the pages aren't all there, if the table has more pages than its
/// parts, or if there are more or fewer bytes than pages.
pub fn begin(
    pages: &mut [WindowPage],
    parts: &mut [PartCounts],
    lead: usize,
    scan: &Scan,
    table: &TableFacts,
    pins: &[u16],
    first: usize,
    memory: &[u8],
    row: &mut [u8],
) -> bool
    ensures { RowGoes (BeginsAt scan.now table.now pins.now first (has_past (part_at lead first) parts.old) memory.now) lead first (length memory.now) result pages.old pages.new parts.old parts.new row.old row.new }
{
    let can = fits(pages, parts, lead, first, memory.len(), row);
    if !can {
        return false;
    }
    let all = has_past(parts, (first + lead) / PART);
    begin_each(
        pages, parts, lead, scan, table, pins, first, all, memory, row,
    );
    true
}
