//! What is asked of a window's tables.
ghost use Rattle.std.specs.Prelude.{◌≡◌, true};
ghost use Rattle.process_lender.specs.Questions.{AreFree, FindsStaying, ShowTheirOwn, has_room, is_so};
ghost use Rattle.window_tables.specs.Rooms.{wants_zeros};

use crate::noted::table_facts;
use crate::tables::WindowTables;
use crate::{ProcessFacts, Question};
use look_tasks::room::fits;
use std::alloc::Allocator;
use window_pages::WindowFacts;
use window_tables::homes::find_staying;
use window_tables::rooms::{lies_over, wants_zeros, zeros_more};
use window_tables::{are_movable, may_give_up, may_go_on};

impl<A: Allocator> WindowTables<A> {
    // Returns whether windows may take the mappings for zeros in place of pages.
    fn has_room(&self, facts: &ProcessFacts, mappings: usize, first: usize, count: usize) -> bool
        ensures { result ≡ has_room facts.now mappings first count self.now }
    {
        match zeros_more(&self.pages, &self.parts, self.lead, first, count) {
            None => false,
            Some(more) => fits(facts.most, mappings as u64, more as u64),
        }
    }

    // Returns whether zeros are to be mapped in place of pages that are given up.
    fn wants_zeros(&self, first: usize, count: usize, is_watched: bool) -> bool
        ensures { result ≡ wants_zeros self.now.lead self.now.parts self.now.pages first count is_watched }
    {
        wants_zeros(
            &self.pages,
            &self.parts,
            self.lead,
            first,
            count,
            is_watched,
        )
    }

    // Returns the answer to a question about pages in a row.
    pub(crate) fn may(
        &self,
        facts: &ProcessFacts,
        mappings: usize,
        first: usize,
        count: usize,
        question: Question,
    ) -> bool
        ensures value { result ≡ is_so question facts.now mappings first count self.now }
        ensures free { result ≡ true → AreFree question first count self.now }
        ensures own { result ≡ true → ShowTheirOwn question facts.now first count self.now }
    {
        let table = table_facts(facts, &self.state);
        match question {
            Question::GoOn(why) => may_go_on(&self.pages, &table, &self.pins, &why, first, count),
            Question::GiveUp => may_give_up(&self.pages, first, count),
            Question::Exchange => are_movable(&self.pages, &table, &self.pins, first, count),
            Question::TakeZeros => self.has_room(facts, mappings, first, count),
            Question::WantZeros(is_watched) => {
                let wants = self.wants_zeros(first, count, is_watched);
                let has = self.has_room(facts, mappings, first, count);
                wants && has
            }
            Question::LieOver => lies_over(&self.pages, first),
        }
    }

    // Finds which pages over frames have to stay where they are.
    pub(crate) fn find_staying(
        &self,
        facts: &ProcessFacts,
        why: &WindowFacts,
        first: usize,
        copies: &mut [bool],
    ) -> bool
        ensures { FindsStaying facts.now why.now first result copies.old copies.new self.now }
    {
        let table = table_facts(facts, &self.state);
        find_staying(&self.pages, &table, &self.pins, why, first, copies)
    }
}
