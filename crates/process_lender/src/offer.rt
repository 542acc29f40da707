//! A new window's tables, and the place that it gets.
ghost use Rattle.std.specs.Prelude.{◌≡◌, ◌-◌, ◌%◌, ◌<◌, IfOk, OnErr, OnOk, if◌then◌else◌, is_none, length, not, position, replicate, true};
ghost use Rattle.std.specs.List.{list_any};
ghost use Rattle.process_lender.specs.Offers.{can_leave, can_take_out, ended, first_free, has_releases, its_mappings, new_part, new_window, parts_in, with_first};
ghost use Rattle.window_pages.specs.Laws.{new_page, no_counts};

use crate::WindowState;
use crate::tables::WindowTables;
use page_looks::parts::Part;
use std::alloc::{AllocError, Allocator};
use window_pages::{PartCounts, WindowPage};
use window_tables::{PART, mappings_at};

// A page of which nothing is known.
const NEW_PAGE: WindowPage = WindowPage {
    slot: 0,
    frame: 0,
    clue: 0,
    belief: 0,
    looks: 0,
};

// The counts of pages of which nothing is known.
const NO_COUNTS: PartCounts = PartCounts {
    releases: 0,
    lent: 0,
    zeros: 0,
    past: 0,
    shareable: 0,
};

// A part of which nothing is known.
pub(crate) const NEW_PART: Part = Part {
    whole: false,
    pause: 0,
    alone: 0,
    rest: 0,
    left: 0,
    is_still: false,
    is_huge: false,
    own: 0,
};

// Returns so many pages of which nothing is known.
fn new_pages<A: Allocator>(alloc: A, count: usize) -> Result<Vec<WindowPage, A>, AllocError>
    ensures { IfOk result (λ pages. pages.items ≡ replicate count new_page) }
{
    vec![in alloc; NEW_PAGE; count]
}

// Returns the counts of so many parts.
fn new_counts<A: Allocator>(alloc: A, count: usize) -> Result<Vec<PartCounts, A>, AllocError>
    ensures { IfOk result (λ counts. counts.items ≡ replicate count no_counts) }
{
    vec![in alloc; NO_COUNTS; count]
}

// Returns so many parts.
fn new_parts<A: Allocator>(alloc: A, count: usize) -> Result<Vec<Part, A>, AllocError>
    ensures { IfOk result (λ parts. parts.items ≡ replicate count new_part) }
{
    vec![in alloc; NEW_PART; count]
}

// Returns how many parts these pages are in.
fn parts_in(pages: &[WindowPage], lead: usize) -> usize
    requires { lead < 512 }
    ensures { result ≡ parts_in lead (length pages.now) }
{
    (pages.len() + lead).div_ceil(PART)
}

// Makes the tables of a window of which nothing is known.
pub(crate) fn new_tables<A: Allocator + Clone>(
    alloc: A,
    number: u64,
    count: usize,
    seams: usize,
    state: WindowState,
) -> Result<WindowTables<A>, AllocError>
    ensures { IfOk result (λ window. window ≡ new_window number count seams state) }
{
    let lead = (number % PART as u64) as usize;
    let pages = new_pages(alloc.clone()?, count)?;
    let many = parts_in(&pages, lead);
    let counts = new_counts(alloc.clone()?, many)?;
    let parts = new_parts(alloc.clone()?, many)?;
    let pins = Vec::new(alloc);
    Ok(WindowTables {
        pages,
        counts,
        parts,
        pins,
        lead,
        seams,
        state,
        has_ended: false,
    })
}

// Finds the first free place.
fn find_free<A: Allocator>(windows: &[Option<WindowTables<A>>]) -> Option<usize>
    ensures { result ≡ position is_none windows.now }
{
    windows.iter().position(|window| window.is_none())
}

// Returns the first free place, or the number of places.
pub(crate) fn first_free<A: Allocator>(windows: &[Option<WindowTables<A>>]) -> usize
    ensures { result ≡ first_free windows.now }
{
    match find_free(windows) {
        None => windows.len(),
        Some(place) => place,
    }
}

// Returns whether a part counts a slot that is to be released.
fn have_releases(counts: &[PartCounts]) -> bool
    ensures { result ≡ list_any has_releases counts.now }
{
    counts.iter().any(|part| part.releases > 0)
}

impl<A: Allocator> WindowTables<A> {
    // Returns how many mappings its pages take.
    pub(crate) fn mappings(&self) -> usize
        ensures { result ≡ its_mappings self.now }
    {
        mappings_at(&self.pages, &self.parts, self.lead, 0, self.pages.len())
    }

    // Ends it, if it hasn't ended: its mappings don't count any more. Returns whether it hadn't.
    pub(crate) fn end(&mut self, mappings: &mut usize) -> bool
        ensures done { result ≡ not self.old.has_ended }
        ensures ended { self.new ≡ if self.old.has_ended then self.old else ended self.old }
        ensures mappings { mappings.new ≡ if self.old.has_ended then mappings.old else mappings.old - its_mappings self.old - self.old.seams }
    {
        if self.has_ended {
            return false;
        }
        let taken = self.mappings();
        *mappings = mappings.saturating_sub(taken).saturating_sub(self.seams);
        self.state.ends = true;
        self.has_ended = true;
        true
    }

    // Notes what is so of it, if it hasn't ended. Returns whether it hadn't.
    pub(crate) fn set_state(&mut self, state: WindowState) -> bool
        ensures done { result ≡ not self.old.has_ended }
        ensures set { self.new ≡ if self.old.has_ended then self.old else record self.old { state = state } }
    {
        if self.has_ended {
            return false;
        }
        self.state = state;
        true
    }

    // Returns whether it has ended, and no slot of its pages is to be released.
    pub(crate) fn can_leave(&self) -> bool
        ensures { result ≡ can_leave self.now }
    {
        self.has_ended && !have_releases(&self.counts)
    }
}

// Puts a window at the first free place, or behind all.
pub(crate) fn put_first<A: Allocator>(
    windows: &mut Vec<Option<WindowTables<A>>, A>,
    place: usize,
    window: WindowTables<A>,
) -> Result<(), AllocError>
    requires { place ≡ first_free windows.old.items }
    ensures put { OnOk result (windows.new.items ≡ with_first window windows.old.items) }
    ensures same { OnErr result (windows.new.items ≡ windows.old.items) }
{
    if place < windows.len() {
        windows[place] = Some(window);
        return Ok(());
    }
    match windows.push(Some(window)) {
        Ok(()) => Ok(()),
        Err(_) => Err(AllocError),
    }
}

// Returns whether a window is at a place that can be taken out.
pub(crate) fn can_take_out<A: Allocator>(
    windows: &Vec<Option<WindowTables<A>>, A>,
    place: usize,
) -> bool
    ensures value { result ≡ can_take_out place windows.now.items }
    ensures within { result ≡ true → place < length windows.now.items }
{
    if place >= windows.len() {
        return false;
    }
    match &windows[place] {
        None => false,
        Some(tables) => tables.can_leave(),
    }
}
