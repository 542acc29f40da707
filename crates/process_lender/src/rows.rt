//! What is done with pages of a window that are held in a row.
ghost use Rattle.std.specs.Prelude.{◌≡◌};
ghost use Rattle.process_lender.specs.Rows.{BeginsRow, CameOfOrder, FindsNext};
ghost use Rattle.process_lender.specs.Windows.{with_pages};

use crate::ProcessFacts;
use crate::noted::table_facts;
use crate::tables::WindowTables;
use page_holds::rows::{RowOrder, begin, done, next};
use std::alloc::Allocator;

impl<A: Allocator> WindowTables<A> {
    // Takes what came of the attempt to hold each page of a row.
    pub(crate) fn begin_row(&mut self, first: usize, row: &mut [u8], takings: &[u8]) -> bool
        ensures pages { BeginsRow first takings.now result row.old row.new self.old self.new.pages self.new.counts }
        ensures rest { self.new ≡ with_pages self.new.pages self.new.counts self.old }
    {
        begin(
            &mut self.pages,
            &mut self.counts,
            self.lead,
            first,
            row,
            takings,
        )
    }

    // Finds what is done next with pages of a row.
    pub(crate) fn next_of_row(&mut self, facts: &ProcessFacts, first: usize, row: &[u8]) -> RowOrder
        ensures pages { FindsNext facts.now first row.now result self.old self.new.pages self.new.counts }
        ensures rest { self.new ≡ with_pages self.new.pages self.new.counts self.old }
    {
        let table = table_facts(facts, &self.state);
        next(
            &mut self.pages,
            &mut self.counts,
            self.lead,
            &table,
            &self.pins,
            first,
            row,
        )
    }

    // Takes what came of an order of a row.
    pub(crate) fn row_done(
        &mut self,
        first: usize,
        row: &mut [u8],
        begin: usize,
        done_count: usize,
        refused: usize,
    ) -> bool
        ensures pages { CameOfOrder first begin done_count refused result row.old row.new self.old self.new.pages self.new.counts }
        ensures rest { self.new ≡ with_pages self.new.pages self.new.counts self.old }
    {
        done(
            &mut self.pages,
            &mut self.counts,
            self.lead,
            first,
            row,
            begin,
            done_count,
            refused,
        )
    }
}
