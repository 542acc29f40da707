//! What becomes of a range of a window's pages, and of the counts of their parts.
ghost use Rattle.std.specs.Prelude.{◌≡◌, ◌+◌, ◌^◌, ◌<◌, ◌≤◌, false, length, true};
ghost use Rattle.window_pages.specs.Counted.{counts_then};
ghost use Rattle.window_tables.specs.Changes.{IsNow, clue_of, marks, puts_memory};
ghost use Rattle.window_tables.specs.Tables.{BeginsAt, EachChanges, Notes, OneChanges, can_note, has_parts};

use crate::PART;
use crate::ask::has_pages;
use window_pages::{PartCounts, WindowPage, begin, cover, detach, give_up, leave, uncover, unmap};

// What a clue is below.
const CLUES: u64 = 32_768;
// How far the clues of frames are apart whose numbers are so far apart.
const APART: u64 = 30_645;

/// What becomes of pages in a row.
#[derive(Clone, Copy, Debug, PartialEq, Eq)]
pub enum Change {
    /// Frames in a row are mapped at their places. The first one has this number.
    Covered(u32),
    /// Memory of their own is put at their places: it is moved there all at once, or it is mapped.
    Uncovered(bool),
    /// Their content is given up.
    GivenUp,
    /// They are unmapped, or something else is mapped in their place.
    Unmapped,
    /// They leave their window, with what they contain.
    Left,
    /// Their lender is gone.
    Detached,
}

// Returns the bits of a frame's number that are kept where it is mapped. Frames in a row have clues in a row, but at each multiple of 32,768.
fn clue_of(frame: u64) -> u16
    ensures { result ≡ clue_of frame }
{
    ((frame % CLUES + frame / CLUES % CLUES * APART) % CLUES) as u16
}

// Changes a page that lies so many pages behind the first of its row.
fn change_one(page: &mut WindowPage, part: &mut PartCounts, change: Change, behind: usize)
    requires { behind < 2 ^ 63 }
    ensures page { IsNow change behind page.old page.new }
    ensures part { part.new ≡ counts_then page.old page.new part.old }
{
    match change {
        Change::Covered(frame) => cover(page, part, clue_of(u64::from(frame) + behind as u64)),
        Change::Uncovered(moved) => uncover(page, part, moved, moved && behind == 0),
        Change::GivenUp => give_up(page, part),
        Change::Unmapped => unmap(page, part),
        Change::Left => leave(page, part),
        Change::Detached => detach(page, part),
    }
}

// Returns whether other memory is put at the places of pages.
fn puts_memory(change: Change) -> bool
    ensures { result ≡ puts_memory change }
{
    match change {
        Change::Covered(_) => true,
        Change::Uncovered(_) => true,
        Change::GivenUp => false,
        Change::Unmapped => false,
        Change::Left => false,
        Change::Detached => false,
    }
}

// Returns whether the page behind so many pages gets its mark.
fn marks(change: Change, count: usize) -> bool
    ensures { result ≡ marks change count }
{
    puts_memory(change) && count > 0
}

// Returns whether each page of a table has a part, where so many pages of the first part lie before the table.
fn has_parts(pages: &[WindowPage], parts: &[PartCounts], lead: usize) -> bool
    ensures { result ≡ has_parts lead pages.now parts.now }
{
    lead < PART && (pages.len() + lead).div_ceil(PART) <= parts.len()
}

/// Returns whether what becomes of `count` pages from `first` on can be noted: they are all there, and each page of the table has a part.
pub fn can_note(
    pages: &[WindowPage],
    parts: &[PartCounts],
    lead: usize,
    first: usize,
    count: usize,
) -> bool
    ensures value { result ≡ can_note lead first count pages.now parts.now }
    ensures within { result ≡ true → first + count ≤ length pages.now }
    ensures parts { result ≡ true → has_parts lead pages.now parts.now ≡ true }
{
    has_pages(pages, first, count) && has_parts(pages, parts, lead)
}

// Changes the page at a place, which lies so many pages behind the first of its row.
fn change_at(
    pages: &mut [WindowPage],
    parts: &mut [PartCounts],
    lead: usize,
    place: usize,
    what: Change,
    behind: usize,
)
    requires parts { has_parts lead pages.old parts.old ≡ true }
    requires place { place < length pages.old }
    requires behind { behind ≤ place }
    ensures { OneChanges (IsNow what behind) lead place pages.old pages.new parts.old parts.new }
{
    let number = (place + lead) / PART;
    let mut page = pages[place];
    let mut part = parts[number];
    change_one(&mut page, &mut part, what, behind);
    pages[place] = page;
    parts[number] = part;
}

// Changes so many pages from one on.
fn change_each(
    pages: &mut [WindowPage],
    parts: &mut [PartCounts],
    lead: usize,
    first: usize,
    count: usize,
    what: Change,
)
    requires within { first + count ≤ length pages.old }
    requires parts { has_parts lead pages.old parts.old ≡ true }
    ensures { EachChanges what lead first count pages.old pages.new parts.old parts.new }
{
    for behind in 0..count {
        change_at(pages, parts, lead, first + behind, what, behind);
    }
}

// Marks the page at a place, if it is there: it begins what was moved, if it was moved.
fn begin_at(pages: &mut [WindowPage], place: usize)
    ensures { BeginsAt place pages.old pages.new }
{
    if place < pages.len() {
        let mut page = pages[place];
        begin(&mut page);
        pages[place] = page;
    }
}

/// Notes what becomes of `count` pages from `first` on. Where other memory is put at their places, the page behind them begins what was moved,
/// if it was moved. `parts` has the counts of each part, and `lead` pages of the first part lie before the table. Returns false, and changes
/// nothing, if they aren't all there, or if the table has more pages than these parts.
pub fn note(
    pages: &mut [WindowPage],
    parts: &mut [PartCounts],
    lead: usize,
    first: usize,
    count: usize,
    what: Change,
) -> bool
    ensures { Notes what lead first count result pages.old pages.new parts.old parts.new }
{
    let can = can_note(pages, parts, lead, first, count);
    if !can {
        return false;
    }
    change_each(pages, parts, lead, first, count, what);
    let marks = marks(what, count);
    if marks {
        begin_at(pages, first + count);
    }
    true
}
