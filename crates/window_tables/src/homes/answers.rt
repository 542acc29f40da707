//! What is asked of each page of a range that gets memory of its own.
ghost use Rattle.std.specs.Prelude.{◌≡◌, ◌+◌, ◌≤◌, false, length, true};
ghost use Rattle.window_tables.specs.Homes.{Answers, stays_at};
ghost use Rattle.window_tables.specs.Ranges.{has_pages};

use crate::ask::has_pages;
use crate::{TableFacts, facts_of};
use window_pages::{WindowFacts, WindowPage, stays};

/// Finds which pages over frames have to stay where they are, from one on, of which `why` is so besides: they are to get their copy there, or have
/// one that a device may hold. Writes to them wait meanwhile. Of each page `copies` says whether it has memory of its own; what is found takes the
/// place of that. Returns false, and finds nothing, if they aren't all there.
pub fn find_staying(
    pages: &[WindowPage],
    table: &TableFacts,
    pins: &[u16],
    why: &WindowFacts,
    first: usize,
    copies: &mut [bool],
) -> bool
    ensures there { result ≡ has_pages first (length copies.old) pages.now }
    ensures found { result ≡ true → Answers (stays_at table.now pins.now why.now first) first (length copies.old) pages.now copies.old copies.new }
    ensures same { result ≡ false → copies.new ≡ copies.old }
{
    let are_there = has_pages(pages, first, copies.len());
    if !are_there {
        return false;
    }
    find_each_staying(pages, table, pins, why, first, copies);
    true
}

// Finds it, where the pages are all there.
fn find_each_staying(
    pages: &[WindowPage],
    table: &TableFacts,
    pins: &[u16],
    why: &WindowFacts,
    first: usize,
    copies: &mut [bool],
)
    requires { first + length copies.old ≤ length pages.now }
    ensures { Answers (stays_at table.now pins.now why.now first) first (length copies.old) pages.now copies.old copies.new }
{
    for n in 0..copies.len() {
        let facts = facts_of(table, pins, why, first + n);
        let answer = stays(&pages[first + n], &facts, copies[n]);
        copies[n] = answer;
    }
}
