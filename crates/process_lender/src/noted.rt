//! What becomes of a window's tables by what is noted of its pages.
ghost use Rattle.std.specs.Prelude.{◌≡◌, ◌+◌, ◌&&◌, ◌||◌, if◌then◌else◌, not};
ghost use Rattle.page_lender.specs.declared.order.Outcome.TheVariants as Outcome;
ghost use Rattle.process_lender.specs.Notices.{Becomes, BecomeOne, mappings_then};
ghost use Rattle.process_lender.specs.Windows.{table_facts, with_pages};
ghost use Rattle.window_tables.specs.Facts.{facts_at};
ghost use Rattle.window_tables.specs.Homes.{Changes, HasMoved, IsCalled, IsCopied, IsHome};
ghost use Rattle.window_tables.specs.Mappings.{kept_then, mappings_at};
ghost use Rattle.window_tables.specs.Rooms.{are_alone};
ghost use Rattle.window_tables.specs.Tables.{Notes};
ghost use Rattle.window_tables.specs.declared.changes.Change.TheVariants as Change;

use crate::tables::WindowTables;
use crate::{Notice, ProcessFacts, WindowState};
use std::alloc::Allocator;
use window_pages::WindowFacts;
use window_tables::homes::{copied, moved, one_memory, order, refused};
use window_tables::{Change, TableFacts, note, note_kept, put_zeros};

// Returns what is so of a window's pages.
pub(crate) fn table_facts(facts: &ProcessFacts, state: &WindowState) -> TableFacts
    ensures { result ≡ table_facts facts.now state.now }
{
    TableFacts {
        elsewhere: facts.elsewhere,
        may_pin: facts.may_pin,
        inherited: state.inherited,
        locked: facts.locked,
        ends: state.ends,
        is_over: facts.is_over,
    }
}

impl<A: Allocator> WindowTables<A> {
    // Writes a number of mappings, unless the window has ended.
    pub(crate) fn keep(&self, mappings: &mut usize, kept: usize)
        ensures { mappings.new ≡ if self.now.has_ended then mappings.old else kept }
    {
        if !self.has_ended {
            *mappings = kept;
        }
    }

    // Notes what becomes of pages where other mappings may be.
    fn note_mapped(
        &mut self,
        mappings: &mut usize,
        first: usize,
        count: usize,
        what: Change,
    ) -> bool
        ensures notes { Notes what self.old.lead first count result self.old.pages self.new.pages self.old.counts self.new.counts }
        ensures mappings { mappings.new ≡ if result && not self.old.has_ended then kept_then mappings.old (mappings_at self.old.lead self.old.parts self.old.pages first count) (mappings_at self.old.lead self.old.parts self.new.pages first count) else mappings.old }
        ensures rest { self.new ≡ with_pages self.new.pages self.new.counts self.old }
    {
        let mut kept = *mappings;
        let is_noted = note_kept(
            &mut self.pages,
            &mut self.counts,
            self.lead,
            &self.parts,
            first,
            count,
            what,
            &mut kept,
        );
        self.keep(mappings, kept);
        is_noted
    }

    // Notes that zeros were mapped in place of pages.
    fn note_zeros(
        &mut self,
        mappings: &mut usize,
        first: usize,
        count: usize,
        is_said: bool,
    ) -> bool
        ensures notes { Notes (Change.Uncovered (are_alone self.old.lead self.old.parts self.old.pages first count || not is_said)) self.old.lead first count result self.old.pages self.new.pages self.old.counts self.new.counts }
        ensures mappings { mappings.new ≡ if result && not self.old.has_ended then kept_then mappings.old (mappings_at self.old.lead self.old.parts self.old.pages first count) (mappings_at self.old.lead self.old.parts self.new.pages first count) else mappings.old }
        ensures rest { self.new ≡ with_pages self.new.pages self.new.counts self.old }
    {
        let mut kept = *mappings;
        let is_noted = put_zeros(
            &mut self.pages,
            &mut self.counts,
            self.lead,
            &self.parts,
            first,
            count,
            is_said,
            &mut kept,
        );
        self.keep(mappings, kept);
        is_noted
    }

    // Notes that memory with what pages contained was moved to their places.
    fn note_one(&mut self, mappings: &mut usize, first: usize, count: usize) -> bool
        ensures pages { BecomeOne self.old.lead first count result self.old.pages self.new.pages self.old.counts self.new.counts }
        ensures mappings { mappings.new ≡ if result && not self.old.has_ended then kept_then mappings.old (mappings_at self.old.lead self.old.parts self.old.pages first count) (mappings_at self.old.lead self.old.parts self.new.pages first count) else mappings.old }
        ensures rest { self.new ≡ with_pages self.new.pages self.new.counts self.old }
    {
        let mut kept = *mappings;
        let is_noted = one_memory(
            &mut self.pages,
            &mut self.counts,
            self.lead,
            &self.parts,
            first,
            count,
            &mut kept,
        );
        self.keep(mappings, kept);
        is_noted
    }

    // Notes what becomes of pages where the same stays mapped.
    fn note_in_place(&mut self, first: usize, count: usize, what: Change) -> bool
        ensures notes { Notes what self.old.lead first count result self.old.pages self.new.pages self.old.counts self.new.counts }
        ensures rest { self.new ≡ with_pages self.new.pages self.new.counts self.old }
    {
        note(
            &mut self.pages,
            &mut self.counts,
            self.lead,
            first,
            count,
            what,
        )
    }

    // Notes that other memory was moved to pages' places.
    fn note_moved(&mut self, first: usize, count: usize) -> bool
        ensures pages { Changes (λ n. HasMoved) self.old.lead first count result self.old.pages self.new.pages self.old.counts self.new.counts }
        ensures rest { self.new ≡ with_pages self.new.pages self.new.counts self.old }
    {
        moved(&mut self.pages, &mut self.counts, self.lead, first, count)
    }

    // Notes that pages got a copy of their own where they are.
    fn note_copied(&mut self, first: usize, count: usize) -> bool
        ensures pages { Changes (λ n. IsCopied) self.old.lead first count result self.old.pages self.new.pages self.old.counts self.new.counts }
        ensures rest { self.new ≡ with_pages self.new.pages self.new.counts self.old }
    {
        copied(&mut self.pages, &mut self.counts, self.lead, first, count)
    }

    // Notes that pages keep what lies at their places.
    fn note_refused(&mut self, first: usize, count: usize) -> bool
        ensures pages { Changes (λ n. IsHome Outcome.Refused) self.old.lead first count result self.old.pages self.new.pages self.old.counts self.new.counts }
        ensures rest { self.new ≡ with_pages self.new.pages self.new.counts self.old }
    {
        refused(&mut self.pages, &mut self.counts, self.lead, first, count)
    }

    // Orders that pages get memory of their own.
    fn call_home(
        &mut self,
        facts: &ProcessFacts,
        first: usize,
        count: usize,
        why: &WindowFacts,
    ) -> bool
        ensures pages { Changes (λ n. IsCalled (facts_at (table_facts facts.now self.old.state) self.old.pins why.now (first + n))) self.old.lead first count result self.old.pages self.new.pages self.old.counts self.new.counts }
        ensures rest { self.new ≡ with_pages self.new.pages self.new.counts self.old }
    {
        let table = table_facts(facts, &self.state);
        order(
            &mut self.pages,
            &mut self.counts,
            self.lead,
            &table,
            &self.pins,
            why,
            first,
            count,
        )
    }

    // Notes what has become of pages in a row.
    pub(crate) fn note(
        &mut self,
        facts: &ProcessFacts,
        mappings: &mut usize,
        first: usize,
        count: usize,
        notice: Notice,
    ) -> bool
        ensures pages { Becomes notice facts.now first count result self.old self.new.pages self.new.counts }
        ensures mappings { mappings.new ≡ mappings_then notice first count result self.old self.new.pages mappings.old }
        ensures rest { self.new ≡ with_pages self.new.pages self.new.counts self.old }
    {
        match notice {
            Notice::Covered(frame) => {
                self.note_mapped(mappings, first, count, Change::Covered(frame))
            }
            Notice::Uncovered => self.note_mapped(mappings, first, count, Change::Uncovered(false)),
            Notice::MovedThere => self.note_mapped(mappings, first, count, Change::Uncovered(true)),
            Notice::ZerosMapped(is_said) => self.note_zeros(mappings, first, count, is_said),
            Notice::Unmapped => self.note_mapped(mappings, first, count, Change::Unmapped),
            Notice::Detached => self.note_mapped(mappings, first, count, Change::Detached),
            Notice::OneMemory => self.note_one(mappings, first, count),
            Notice::GivenUp => self.note_in_place(first, count, Change::GivenUp),
            Notice::Left => self.note_in_place(first, count, Change::Left),
            Notice::MovedHome => self.note_moved(first, count),
            Notice::CopiedHome => self.note_copied(first, count),
            Notice::RefusedHome => self.note_refused(first, count),
            Notice::CalledHome(why) => self.call_home(facts, first, count, &why),
        }
    }
}
