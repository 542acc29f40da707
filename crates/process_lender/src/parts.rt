//! Parts of a window, and pages of it that were pinned.
ghost use Rattle.std.specs.Prelude.{◌≡◌, IfOk, OnErr, OnOk, is_some, slice_get};
ghost use Rattle.process_lender.specs.Parts.{SetsPart, SetsWhole, can_change_pins, counts_of, noted, order_at, part_noted, part_of, pins_of, pins_then, with_pins};
ghost use Rattle.window_tables.specs.Tables.{part_at};

use crate::PartNotice;
use crate::tables::WindowTables;
use page_looks::parts::{Part, PartConfig, PartLook, PartOrder};
use std::alloc::{AllocError, Allocator};
use window_pages::{PartCounts, WindowPage};
use window_tables::pins::{pin, unpin};
use window_tables::{PART, set_whole};

// Returns a part once this is noted of it.
fn noted(part: Part, notice: PartNotice) -> Part
    ensures { result ≡ noted notice part }
{
    let mut noted = part;
    match notice {
        PartNotice::Settled(config, look) => {
            noted.next(&config, &look);
        }
        PartNotice::Rests(config, changes, own) => noted.set_rest(&config, changes, own),
        PartNotice::Woken => noted.wake(),
        PartNotice::Huge(is_huge) => noted.is_huge = is_huge,
        PartNotice::Forgotten => {
            noted = Part {
                whole: part.whole,
                pause: 0,
                alone: 0,
                rest: 0,
                left: 0,
                is_still: false,
                is_huge: part.is_huge,
                own: 0,
            };
        }
    }
    noted
}

// Returns the number of a page's part.
pub(crate) fn part_at(lead: usize, first: usize) -> usize
    ensures { result ≡ part_at lead first }
{
    // (the sum of the two may not fit)
    first / PART + lead / PART + (first % PART + lead % PART) / PART
}

// Sets that the part of a page is whole, or split. Returns how many mappings there are then, and whether it did.
fn set_in<A: Allocator>(
    pages: &[WindowPage],
    parts: &mut Vec<Part, A>,
    lead: usize,
    first: usize,
    is_whole: bool,
    mappings: &mut usize,
) -> bool
    ensures { SetsPart first is_whole result lead mappings.old mappings.new pages.now parts.old.items parts.new.items }
{
    set_whole(pages, parts, lead, first, is_whole, mappings)
}

// Pins pages once more, or once less, of whose counts these are. Returns whether it did.
fn change_pins(counts: &mut [u16], first: usize, count: usize, is_pinned: bool) -> bool
    ensures done { result ≡ can_change_pins is_pinned first count counts.old }
    ensures pins { counts.new ≡ pins_then is_pinned first count counts.old }
{
    if is_pinned {
        pin(counts, first, count)
    } else {
        unpin(counts, first, count)
    }
}

impl<A: Allocator> WindowTables<A> {
    // Returns the part of a page.
    pub(crate) fn part_of(&self, first: usize) -> Option<Part>
        ensures { result ≡ part_of first self.now }
    {
        let number = part_at(self.lead, first);
        if number >= self.parts.len() {
            return None;
        }
        Some(self.parts[number])
    }

    // Returns the counts of the pages of that part.
    pub(crate) fn counts_of(&self, first: usize) -> Option<PartCounts>
        ensures { result ≡ counts_of first self.now }
    {
        let number = part_at(self.lead, first);
        if number >= self.counts.len() {
            return None;
        }
        Some(self.counts[number])
    }

    // Returns what is known of a page.
    pub(crate) fn page(&self, place: usize) -> Option<WindowPage>
        ensures { result ≡ slice_get self.now.pages place }
    {
        if place >= self.pages.len() {
            return None;
        }
        Some(self.pages[place])
    }

    // Notes that the part of a page is whole from now on, or split.
    pub(crate) fn set_whole(&mut self, mappings: &mut usize, first: usize, is_whole: bool) -> bool
        ensures { SetsWhole first is_whole result mappings.old mappings.new self.old self.new }
    {
        let mut kept = *mappings;
        let is_set = set_in(
            &self.pages,
            &mut self.parts,
            self.lead,
            first,
            is_whole,
            &mut kept,
        );
        self.keep(mappings, kept);
        is_set
    }

    // Returns what is to be done with the part of a page.
    pub(crate) fn order_of_part(
        &self,
        first: usize,
        config: &PartConfig,
        look: &PartLook,
    ) -> Option<PartOrder>
        ensures { result ≡ order_at config.now look.now first self.now }
    {
        match self.part_of(first) {
            None => None,
            Some(part) => {
                let mut next = part;
                Some(next.next(config, look))
            }
        }
    }

    // Notes something of the part of a page. Returns false, and notes nothing, if there is no such part.
    pub(crate) fn note_part(&mut self, first: usize, notice: PartNotice) -> bool
        ensures done { result ≡ is_some (part_of first self.old) }
        ensures noted { self.new ≡ part_noted first notice self.old }
    {
        let number = part_at(self.lead, first);
        if number >= self.parts.len() {
            return false;
        }
        let part = self.parts[number];
        self.parts[number] = noted(part, notice);
        true
    }

    // Pins pages once more, or once less. Where none was pinned yet it first gets memory for the counts of all.
    pub(crate) fn set_pins(
        &mut self,
        alloc: A,
        first: usize,
        count: usize,
        is_pinned: bool,
    ) -> Result<bool, AllocError>
        ensures done { IfOk result (λ is. is ≡ can_change_pins is_pinned first count (pins_of self.old)) }
        ensures pins { OnOk result (self.new ≡ with_pins is_pinned first count self.old) }
        ensures same { OnErr result (self.new ≡ self.old) }
    {
        if !self.pins.is_empty() {
            return Ok(change_pins(&mut self.pins, first, count, is_pinned));
        }
        let mut pins = vec![in alloc; 0; self.pages.len()]?;
        let done = change_pins(&mut pins, first, count, is_pinned);
        if done {
            self.pins = pins;
        }
        Ok(done)
    }
}
