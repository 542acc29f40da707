//! The next order of a row.
ghost use Rattle.std.specs.Prelude.{◌≡◌, ◌+◌, ◌<◌, ◌≤◌, length, slice_index_or, true};
ghost use Rattle.page_holds.specs.Orders.{OrdersNext, facts_there};
ghost use Rattle.page_holds.specs.Rows.{Asks, PageBecomes, PageChanges};
ghost use Rattle.window_tables.specs.Changes.{Changed};
ghost use Rattle.window_tables.specs.Facts.{only_called};
ghost use Rattle.window_tables.specs.Tables.{Counted, can_note, has_parts};

use crate::rows::bytes::{is_stuck, place_in};
pub use crate::rows::run::RowOrder;
use crate::rows::run::{OVER, order_of};
use crate::step;
use window_pages::{PartCounts, WindowFacts, WindowPage};
use window_tables::{PART, TableFacts, can_note, facts_of};

// Nothing is so of a page besides.
const NO_FACTS: WindowFacts = WindowFacts {
    called: false,
    pinned: false,
    may_pin: false,
    inherited: false,
    locked: false,
    leaves: false,
    ended: false,
};

// Gives the next order of a page, if writes to it may wait, and it isn't stuck.
fn ask(page: &mut WindowPage, part: &mut PartCounts, facts: &WindowFacts, byte: u8)
    ensures { Asks facts.now byte page.old page.new part.old part.new }
{
    let stuck = is_stuck(byte);
    if !stuck {
        step(page, part, facts, place_in(byte));
    }
}

// Gives the next order of the page at a place, if it may have one.
fn ask_at(
    pages: &mut [WindowPage],
    parts: &mut [PartCounts],
    lead: usize,
    place: usize,
    facts: &WindowFacts,
    byte: u8,
)
    requires parts { has_parts lead pages.old parts.old ≡ true }
    requires place { place < length pages.old }
    ensures { PageChanges (Asks facts.now byte) lead place pages.old pages.new parts.old parts.new }
{
    let number = (place + lead) / PART;
    let mut page = pages[place];
    let mut part = parts[number];
    ask(&mut page, &mut part, facts, byte);
    pages[place] = page;
    parts[number] = part;
}

// Gives the next orders of the row's pages.
fn ask_each(
    pages: &mut [WindowPage],
    parts: &mut [PartCounts],
    lead: usize,
    table: &TableFacts,
    pins: &[u16],
    first: usize,
    row: &[u8],
)
    requires within { first + length row.now ≤ length pages.old }
    requires parts { has_parts lead pages.old parts.old ≡ true }
    ensures pages { Changed (λ n. PageBecomes (Asks (facts_there table.now pins.now (first + n)) (slice_index_or row.now n 0))) first (length row.now) pages.old pages.new }
    ensures counted { Counted lead pages.old parts.old → Counted lead pages.new parts.new }
{
    for n in 0..row.len() {
        let facts = facts_of(table, pins, &NO_FACTS, first + n);
        ask_at(pages, parts, lead, first + n, &facts, row[n]);
    }
}

/// Returns what is done next with pages of a row, and with which of them. Those to which writes may wait get their orders by the facts of
/// the window and the process. The row begins with the page `first` of the table, and `row` has a byte of each of its pages. `parts` has the counts of
/// each part, and `lead` pages of the first part lie before the table. Where these pages aren't all there, or the table has more pages than its
/// parts, the row is over, and nothing changes.
pub fn next(
    pages: &mut [WindowPage],
    parts: &mut [PartCounts],
    lead: usize,
    table: &TableFacts,
    pins: &[u16],
    first: usize,
    row: &[u8],
) -> RowOrder
    ensures { OrdersNext table.now pins.now lead first row.now result pages.old pages.new parts.old parts.new }
{
    let can = can_note(pages, parts, lead, first, row.len());
    if !can {
        return OVER;
    }
    ask_each(pages, parts, lead, table, pins, first, row);
    order_of(pages, first, row)
}
