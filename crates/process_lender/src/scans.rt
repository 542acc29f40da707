//! Scans of a window's parts.
ghost use Rattle.std.specs.Prelude.{◌≡◌};
ghost use Rattle.part_scans.specs.Scans.{AreNumbers};
ghost use Rattle.process_lender.specs.Scans.{BeginsScan, CameOfSteps, FollowsChanges, scan_of};
ghost use Rattle.process_lender.specs.Windows.{with_pages};

use crate::noted::table_facts;
use crate::offer::NEW_PART;
use crate::parts::part_at;
use crate::tables::WindowTables;
use crate::{ProcessFacts, WindowScan};
use page_looks::finds::FindOutcome;
use part_scans::{Scan, begin, done, find_numbers, follow};
use std::alloc::Allocator;

impl<A: Allocator> WindowTables<A> {
    // Returns the scan of the part of a page.
    fn scan_of(&self, scan: &WindowScan, first: usize) -> Scan
        ensures { result ≡ scan_of scan.now first self.now }
    {
        let number = part_at(self.lead, first);
        let part = if number < self.parts.len() {
            self.parts[number]
        } else {
            NEW_PART
        };
        Scan {
            config: scan.config,
            part,
            look: scan.look,
            zeros: scan.zeros,
            is_return: scan.is_return,
            ready: scan.ready,
        }
    }

    // Begins a scan of pages of a part.
    pub(crate) fn begin_scan(
        &mut self,
        facts: &ProcessFacts,
        scan: &WindowScan,
        first: usize,
        memory: &[u8],
        row: &mut [u8],
    ) -> bool
        ensures pages { BeginsScan facts.now scan.now first memory.now result row.old row.new self.old self.new.pages self.new.counts }
        ensures rest { self.new ≡ with_pages self.new.pages self.new.counts self.old }
    {
        let scan = self.scan_of(scan, first);
        let table = table_facts(facts, &self.state);
        begin(
            &mut self.pages,
            &mut self.counts,
            self.lead,
            &scan,
            &table,
            &self.pins,
            first,
            memory,
            row,
        )
    }

    // Takes pages beside those that have changed.
    pub(crate) fn follow_changes(
        &mut self,
        facts: &ProcessFacts,
        scan: &WindowScan,
        first: usize,
        memory: &[u8],
        row: &mut [u8],
    ) -> bool
        ensures pages { FollowsChanges facts.now scan.now first memory.now result row.old row.new self.old self.new.pages self.new.counts }
        ensures rest { self.new ≡ with_pages self.new.pages self.new.counts self.old }
    {
        let scan = self.scan_of(scan, first);
        let table = table_facts(facts, &self.state);
        follow(
            &mut self.pages,
            &mut self.counts,
            self.lead,
            &scan,
            &table,
            &self.pins,
            first,
            memory,
            row,
        )
    }

    // Takes what came of a scan's steps.
    pub(crate) fn scan_done(
        &mut self,
        scan: &WindowScan,
        first: usize,
        outcomes: &[FindOutcome],
        row: &mut [u8],
    ) -> bool
        ensures pages { CameOfSteps scan.now first outcomes.now result row.old row.new self.old self.new.pages self.new.counts }
        ensures rest { self.new ≡ with_pages self.new.pages self.new.counts self.old }
    {
        let scan = self.scan_of(scan, first);
        done(
            &mut self.pages,
            &mut self.counts,
            self.lead,
            &scan,
            first,
            outcomes,
            row,
        )
    }

    // Finds where glances look at pages.
    pub(crate) fn find_numbers(&self, first: usize, places: &[u16], numbers: &mut [u64])
        ensures { AreNumbers first self.now.pages places.now numbers.old numbers.new }
    {
        find_numbers(&self.pages, first, places, numbers);
    }
}
