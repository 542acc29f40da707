//! The calls for a window's pages and parts that looks make, and what is read of it.
ghost use Rattle.std.specs.Prelude.{◌≡◌, IfOk, None, OnErr, OnOk, false, is_some, slice_get};
ghost use Rattle.std.specs.Option.{option_map_or};
ghost use Rattle.part_scans.specs.Scans.{AreNumbers};
ghost use Rattle.process_lender.specs.Lists.{NoAnswer};
ghost use Rattle.process_lender.specs.Pages.{NoneRead, NotesPage, ReadsPages};
ghost use Rattle.process_lender.specs.Parts.{SetsWhole, can_change_pins, counts_of, order_at, part_noted, part_of, pins_of, with_pins};
ghost use Rattle.process_lender.specs.Scans.{BeginsScan, CameOfSteps, FollowsChanges};
ghost use Rattle.process_lender.specs.Windows.{InPages, InWindow, SeenIn, window_at, window_changed};
ghost use Rattle.process_lender.specs.Questions.{FindsStaying, NoneStays};
ghost use Rattle.window_tables.specs.Runs.{next_run};

use crate::{PageNotice, PartNotice, ProcessLender, WindowScan};
use page_looks::finds::FindOutcome;
use page_looks::parts::{Part, PartConfig, PartLook, PartOrder};
use std::alloc::{AllocError, Allocator};
use window_pages::{PartCounts, WindowFacts, WindowPage};
use window_tables::runs::{PageRun, next_run};

impl<A: Allocator> ProcessLender<A> {
    /// Begins a scan of pages of a part, of which the first is the page `first`. `memory` has which memory the system has for each: 0 none of its own,
    /// 1 some, 2 some that is swapped out. Writes a byte of each page to `row`, which says what is done next with it. Returns false, and changes nothing,
    /// if there is no such window, if the pages aren't all there, or if there are more or fewer bytes than pages.
    pub fn begin_scan(
        &mut self,
        window: usize,
        scan: &WindowScan,
        first: usize,
        memory: &[u8],
        row: &mut [u8],
    ) -> bool
        ensures { InPages (BeginsScan self.old.facts scan.now first memory.now result row.old row.new) (NoAnswer result row.old row.new) window self.old self.new }
    {
        if window >= self.windows.len() {
            return false;
        }
        match &mut self.windows[window] {
            None => false,
            Some(tables) => tables.begin_scan(&self.facts, scan, first, memory, row),
        }
    }

    /// Takes what came of the step of each page that has one. Returns false, and changes nothing, where a scan couldn't begin.
    pub fn scan_done(
        &mut self,
        window: usize,
        scan: &WindowScan,
        first: usize,
        outcomes: &[FindOutcome],
        row: &mut [u8],
    ) -> bool
        ensures { InPages (CameOfSteps scan.now first outcomes.now result row.old row.new) (NoAnswer result row.old row.new) window self.old self.new }
    {
        if window >= self.windows.len() {
            return false;
        }
        match &mut self.windows[window] {
            None => false,
            Some(tables) => tables.scan_done(scan, first, outcomes, row),
        }
    }

    /// Takes pages beside those that have changed, where the scan would leave them out. Returns false, and changes nothing, where a scan couldn't begin.
    pub fn follow_changes(
        &mut self,
        window: usize,
        scan: &WindowScan,
        first: usize,
        memory: &[u8],
        row: &mut [u8],
    ) -> bool
        ensures { InPages (FollowsChanges self.old.facts scan.now first memory.now result row.old row.new) (NoAnswer result row.old row.new) window self.old self.new }
    {
        if window >= self.windows.len() {
            return false;
        }
        match &mut self.windows[window] {
            None => false,
            Some(tables) => tables.follow_changes(&self.facts, scan, first, memory, row),
        }
    }

    /// Finds where glances look at the pages at these places, counted from the page `first` on, as far as they are there. Where there is no such window
    /// it finds nothing.
    pub fn find_numbers(&self, window: usize, first: usize, places: &[u16], numbers: &mut [u64])
        ensures { SeenIn (λ w. AreNumbers first w.pages places.now numbers.old numbers.new) (numbers.new ≡ numbers.old) window self.now }
    {
        if window >= self.windows.len() {
            return;
        }
        match &self.windows[window] {
            None => {}
            Some(tables) => tables.find_numbers(first, places, numbers),
        }
    }

    /// Finds the first run of pages of some kinds, a sum of their numbers, from one page on and before another. Returns `None` where there is none, or
    /// no such window.
    pub fn next_run(&self, window: usize, first: usize, end: usize, kinds: u8) -> Option<PageRun>
        ensures { result ≡ option_map_or (λ w. next_run kinds first end w.pages) (window_at window self.now.windows) None }
    {
        if window >= self.windows.len() {
            return None;
        }
        match &self.windows[window] {
            None => None,
            Some(tables) => next_run(&tables.pages, first, end, kinds),
        }
    }

    /// Finds which pages over frames have to stay where they are, of which `why` is so besides. Of each page `copies` says whether it has memory of its
    /// own; what is found takes the place of that. Returns false, and finds nothing, if there is no such window, or if the pages aren't all there.
    pub fn find_staying(
        &self,
        window: usize,
        why: &WindowFacts,
        first: usize,
        copies: &mut [bool],
    ) -> bool
        ensures { SeenIn (FindsStaying self.now.facts why.now first result copies.old copies.new) (NoneStays result copies.old copies.new) window self.now }
    {
        if window >= self.windows.len() {
            return false;
        }
        match &self.windows[window] {
            None => false,
            Some(tables) => tables.find_staying(&self.facts, why, first, copies),
        }
    }

    /// Returns what is known of a page of a window, `None` if it isn't there.
    pub fn page(&self, window: usize, place: usize) -> Option<WindowPage>
        ensures { result ≡ option_map_or (λ w. slice_get w.pages place) (window_at window self.now.windows) None }
    {
        if window >= self.windows.len() {
            return None;
        }
        match &self.windows[window] {
            None => None,
            Some(tables) => tables.page(place),
        }
    }

    /// Reads what is known of pages of a window, one after another, from the page `first` on: as many as `pages` has places. Returns false, and reads
    /// nothing, if there is no such window, or if they aren't all there.
    pub fn read_pages(&self, window: usize, first: usize, pages: &mut [WindowPage]) -> bool
        ensures { SeenIn (λ w. ReadsPages first result pages.old pages.new w.pages) (NoneRead result pages.old pages.new) window self.now }
    {
        if window >= self.windows.len() {
            return false;
        }
        match &self.windows[window] {
            None => false,
            Some(tables) => tables.read_pages(first, pages),
        }
    }

    /// Notes something of a page of a window, and its part's counts follow. Returns false, and notes nothing, if there is no such window or page.
    pub fn note_page(&mut self, window: usize, page: usize, notice: PageNotice) -> bool
        ensures { InPages (NotesPage notice page result) (result ≡ false) window self.old self.new }
    {
        if window >= self.windows.len() {
            return false;
        }
        match &mut self.windows[window] {
            None => false,
            Some(tables) => tables.note_page(page, notice),
        }
    }

    /// Returns the part of a page of a window, `None` if there is none.
    pub fn part(&self, window: usize, first: usize) -> Option<Part>
        ensures { result ≡ option_map_or (part_of first) (window_at window self.now.windows) None }
    {
        if window >= self.windows.len() {
            return None;
        }
        match &self.windows[window] {
            None => None,
            Some(tables) => tables.part_of(first),
        }
    }

    /// Returns the counts of the pages of that part, `None` if there is none.
    pub fn counts(&self, window: usize, first: usize) -> Option<PartCounts>
        ensures { result ≡ option_map_or (counts_of first) (window_at window self.now.windows) None }
    {
        if window >= self.windows.len() {
            return None;
        }
        match &self.windows[window] {
            None => None,
            Some(tables) => tables.counts_of(first),
        }
    }

    /// Returns how many mappings windows have taken.
    pub fn mappings(&self) -> usize
        ensures { result ≡ self.now.mappings }
    {
        self.mappings
    }

    /// Returns what is to be done with the part of a page of a window, of which a look found this, `None` if there is none.
    pub fn next_of_part(
        &self,
        window: usize,
        first: usize,
        config: &PartConfig,
        look: &PartLook,
    ) -> Option<PartOrder>
        ensures { result ≡ option_map_or (order_at config.now look.now first) (window_at window self.now.windows) None }
    {
        if window >= self.windows.len() {
            return None;
        }
        match &self.windows[window] {
            None => None,
            Some(tables) => tables.order_of_part(first, config, look),
        }
    }

    /// Notes something of the part of a page of a window. Returns false, and notes nothing, if there is no such part.
    pub fn note_part(&mut self, window: usize, first: usize, notice: PartNotice) -> bool
        ensures done { result ≡ option_map_or (λ w. is_some (part_of first w)) (window_at window self.old.windows) false }
        ensures noted { self.new ≡ window_changed (part_noted first notice) window (window_at window self.old.windows) self.old }
    {
        if window >= self.windows.len() {
            return false;
        }
        match &mut self.windows[window] {
            None => false,
            Some(tables) => tables.note_part(first, notice),
        }
    }

    /// Notes that the part whose first page is this one is whole from now on, or split, and how many mappings there are then. Returns false, and notes
    /// nothing, if there is no such window, or if this isn't the first page of a part whose pages are all there.
    pub fn set_whole(&mut self, window: usize, first: usize, is_whole: bool) -> bool
        ensures { InWindow (SetsWhole first is_whole result) (result ≡ false) window self.old self.new }
    {
        if window >= self.windows.len() {
            return false;
        }
        match &mut self.windows[window] {
            None => false,
            Some(tables) => tables.set_whole(&mut self.mappings, first, is_whole),
        }
    }
}

impl<A: Allocator + Clone> ProcessLender<A> {
    /// Notes that pages of a window were pinned once more, or once less. Returns whether it did: not if there is no such window, if one of them isn't
    /// there, was pinned 65,535 times, or is to be unpinned and isn't pinned. Then nothing changes.
    ///
    /// # Errors
    ///
    /// None of its pages was pinned yet, and there is no memory for their counts. Then nothing changed.
    pub fn set_pins(
        &mut self,
        window: usize,
        first: usize,
        count: usize,
        is_pinned: bool,
    ) -> Result<bool, AllocError>
        ensures done { IfOk result (λ is. is ≡ option_map_or (λ w. can_change_pins is_pinned first count (pins_of w)) (window_at window self.old.windows) false) }
        ensures pins { OnOk result (self.new ≡ window_changed (with_pins is_pinned first count) window (window_at window self.old.windows) self.old) }
        ensures same { OnErr result (self.new ≡ self.old) }
    {
        let alloc = self.alloc.clone()?;
        if window >= self.windows.len() {
            return Ok(false);
        }
        match &mut self.windows[window] {
            None => Ok(false),
            Some(tables) => tables.set_pins(alloc, first, count, is_pinned),
        }
    }
}
