//! What is noted of one page of a window, and how pages are read.
ghost use Rattle.std.specs.Prelude.{◌≡◌, ◌+◌, ◌≤◌, ◌<◌, false, length, true};
ghost use Rattle.page_holds.specs.Rows.{PageChanges};
ghost use Rattle.page_looks.specs.Idle.{due, held};
ghost use Rattle.page_looks.specs.Notes.{Notes, looks_of};
ghost use Rattle.process_lender.specs.Pages.{NotedAt, NotesPage, PageIsNoted, ReadsPages};
ghost use Rattle.process_lender.specs.Windows.{with_pages};
ghost use Rattle.window_pages.specs.Bytes.{notes_of};
ghost use Rattle.window_tables.specs.Ranges.{has_pages};
ghost use Rattle.window_tables.specs.Tables.{Counted, has_parts};

use crate::PageNotice;
use crate::tables::WindowTables;
use page_looks::finds::{looks_of, write_looks};
use std::alloc::Allocator;
use window_pages::{PartCounts, WindowPage, give_back};
use window_tables::{PART, can_note};

// Notes that a host is to be asked about a page at once.
fn ask_at_once(page: &mut WindowPage, part: &mut PartCounts)
    ensures { Notes (due (looks_of page.old)) false page.old page.new part.old part.new }
{
    let mut looks = looks_of(page);
    looks.ask_at_once();
    write_looks(page, part, &looks, false);
}

// Notes that a page was to be held, and whether it was.
fn note_held(page: &mut WindowPage, part: &mut PartCounts, was_held: bool)
    ensures { Notes (held (looks_of page.old) was_held) (notes_of page.old).seen page.old page.new part.old part.new }
{
    let mut looks = looks_of(page);
    looks.held(was_held);
    let seen = page.notes().seen;
    write_looks(page, part, &looks, seen);
}

// Notes something of a page.
fn note_one(page: &mut WindowPage, part: &mut PartCounts, notice: PageNotice)
    ensures { PageIsNoted notice page.old page.new part.old part.new }
{
    match notice {
        PageNotice::AskedAtOnce => ask_at_once(page, part),
        PageNotice::Held(was_held) => note_held(page, part, was_held),
        PageNotice::GivenBack(is_zeros) => give_back(page, part, is_zeros),
    }
}

// The same of the page at a place, which is there.
fn note_there(
    pages: &mut [WindowPage],
    parts: &mut [PartCounts],
    lead: usize,
    place: usize,
    notice: PageNotice,
)
    requires parts { has_parts lead pages.old parts.old ≡ true }
    requires place { place < length pages.old }
    ensures { PageChanges (λ x y p q. PageIsNoted notice x y p q) lead place pages.old pages.new parts.old parts.new }
{
    let number = (place + lead) / PART;
    let mut page = pages[place];
    let mut part = parts[number];
    note_one(&mut page, &mut part, notice);
    pages[place] = page;
    parts[number] = part;
}

// The same, and the counts of the parts stay right.
fn note_counted(
    pages: &mut [WindowPage],
    parts: &mut [PartCounts],
    lead: usize,
    place: usize,
    notice: PageNotice,
)
    requires parts { has_parts lead pages.old parts.old ≡ true }
    requires place { place < length pages.old }
    ensures page { PageChanges (λ x y p q. PageIsNoted notice x y p q) lead place pages.old pages.new parts.old parts.new }
    ensures counted { Counted lead pages.old parts.old → Counted lead pages.new parts.new }
{
    note_there(pages, parts, lead, place, notice);
}

// The same, if the page is there.
fn note_at(
    pages: &mut [WindowPage],
    parts: &mut [PartCounts],
    lead: usize,
    place: usize,
    notice: PageNotice,
) -> bool
    ensures { NotedAt notice lead place result pages.old pages.new parts.old parts.new }
{
    let can = can_note(pages, parts, lead, place, 1);
    if !can {
        return false;
    }
    note_counted(pages, parts, lead, place, notice);
    true
}

// Returns whether so many pages from one on are there.
fn has_pages(all: &[WindowPage], first: usize, count: usize) -> bool
    ensures value { result ≡ has_pages first count all.now }
    ensures within { result ≡ true → first + count ≤ length all.now }
{
    first <= all.len() && count <= all.len() - first
}

// Copies as many pages as there are places for, from one on.
fn read_at(all: &[WindowPage], first: usize, pages: &mut [WindowPage]) -> bool
    ensures { ReadsPages first result pages.old pages.new all.now }
{
    let count = pages.len();
    let can = has_pages(all, first, count);
    if !can {
        return false;
    }
    pages.copy_from_slice(&all[first..][..count]);
    true
}

impl<A: Allocator> WindowTables<A> {
    // Notes something of a page.
    pub(crate) fn note_page(&mut self, place: usize, notice: PageNotice) -> bool
        ensures pages { NotesPage notice place result self.old self.new.pages self.new.counts }
        ensures rest { self.new ≡ with_pages self.new.pages self.new.counts self.old }
    {
        note_at(&mut self.pages, &mut self.counts, self.lead, place, notice)
    }

    // Copies as many pages as there are places for, from one on.
    pub(crate) fn read_pages(&self, first: usize, pages: &mut [WindowPage]) -> bool
        ensures { ReadsPages first result pages.old pages.new self.now.pages }
    {
        read_at(&self.pages, first, pages)
    }
}
