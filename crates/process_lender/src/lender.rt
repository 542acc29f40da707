//! All windows of a process.
ghost use Rattle.std.specs.Prelude.{◌≡◌, IfOk, None, OnErr, false, if◌then◌else◌, true};
ghost use Rattle.std.specs.Option.{option_map_or};
ghost use Rattle.process_lender.specs.Notices.{TakesNote};
ghost use Rattle.process_lender.specs.Offers.{can_take_out, end_of, first_free, is_open, new_window, no_windows, offered, state_set};
ghost use Rattle.process_lender.specs.Questions.{AreFree, ShowTheirOwn, is_so};
ghost use Rattle.process_lender.specs.Windows.{InWindow, Lender, SeenIn, window_at, with_window};

use crate::offer::{can_take_out, first_free, new_tables, put_first};
use crate::tables::WindowTables;
use crate::{Notice, ProcessFacts, Question, WindowState};
use std::alloc::{AllocError, Allocator, Global};
use std::marker::Model;

/// All windows of a process, and how many mappings they have taken.
#[derive(Drop)]
pub struct ProcessLender<A: Allocator = Global> {
    pub(crate) alloc: A,
    pub(crate) windows: Vec<Option<WindowTables<A>>, A>,
    pub(crate) mappings: usize,
    pub(crate) facts: ProcessFacts,
}

impl<A: Allocator> Model for ProcessLender<A> {
    ghost use Rattle.process_lender.specs.Windows.{Lender};

    ghost Value = { Lender };

    ghost view = { λ l. record { windows = l.windows.items; mappings = l.mappings; facts = l.facts } };
}

impl<A: Allocator + Clone> ProcessLender<A> {
    /// Makes a process without windows, of which this is so.
    pub fn new(alloc: A, facts: ProcessFacts) -> Result<ProcessLender<A>, AllocError>
        ensures { IfOk result (λ lender. lender ≡ no_windows facts) }
    {
        let windows = Vec::new(alloc.clone()?);
        Ok(ProcessLender {
            alloc,
            windows,
            mappings: 0,
            facts,
        })
    }

    /// Takes in a window of so many pages of which nothing is known, of which this is so, and returns its place: the first free one. `number` is that
    /// of its first page in the process's memory. It has so many seams between mappings, which count as mappings as long as it is one.
    ///
    /// # Errors
    ///
    /// There is no memory for its tables. Then nothing changed.
    pub fn offer(
        &mut self,
        number: u64,
        count: usize,
        seams: usize,
        state: WindowState,
    ) -> Result<usize, AllocError>
        ensures place { IfOk result (λ place. place ≡ first_free self.old.windows) }
        ensures offered { IfOk result (λ place. self.new ≡ offered (new_window number count seams state) self.old) }
        ensures same { OnErr result (self.new ≡ self.old) }
    {
        let window = new_tables(self.alloc.clone()?, number, count, seams, state)?;
        let more = window.mappings();
        let place = first_free(&self.windows);
        put_first(&mut self.windows, place, window)?;
        self.mappings = self.mappings.saturating_add(more).saturating_add(seams);
        Ok(place)
    }
}

impl<A: Allocator> ProcessLender<A> {
    /// Ends a window: nothing is lent of it any more, and its mappings don't count. Its pages stay known, whose slots are to be released. Returns
    /// false, and changes nothing, if there is no such window, or if it has ended.
    pub fn end(&mut self, window: usize) -> bool
        ensures done { result ≡ is_open (window_at window self.old.windows) }
        ensures ended { self.new ≡ end_of window (window_at window self.old.windows) self.old }
    {
        if window >= self.windows.len() {
            return false;
        }
        match &mut self.windows[window] {
            None => false,
            Some(tables) => tables.end(&mut self.mappings),
        }
    }

    /// Takes out a window that has ended, and frees its place. Returns false, and changes nothing, if there is no such window, if it hasn't ended, or if
    /// a slot of its pages is still to be released.
    pub fn take_out(&mut self, window: usize) -> bool
        ensures done { result ≡ can_take_out window self.old.windows }
        ensures free { self.new ≡ if result then with_window window None self.old else self.old }
    {
        let can = can_take_out(&self.windows, window);
        if can {
            self.windows[window] = None;
        }
        can
    }

    /// Notes what is so of the process from now on.
    pub fn set_facts(&mut self, facts: ProcessFacts)
        ensures { self.new ≡ record self.old { facts = facts } }
    {
        self.facts = facts;
    }

    /// Notes what is so of a window from now on. Returns false, and notes nothing, if there is no such window, or if it has ended.
    pub fn set_state(&mut self, window: usize, state: WindowState) -> bool
        ensures done { result ≡ is_open (window_at window self.old.windows) }
        ensures set { self.new ≡ state_set window state (window_at window self.old.windows) self.old }
    {
        if window >= self.windows.len() {
            return false;
        }
        match &mut self.windows[window] {
            None => false,
            Some(tables) => tables.set_state(state),
        }
    }

    /// Notes what has become of `count` pages of a window from `first` on. Returns false, and changes nothing, if there is no such window, or if these
    /// pages aren't all there.
    pub fn note(&mut self, window: usize, first: usize, count: usize, notice: Notice) -> bool
        ensures { InWindow (TakesNote notice self.old.facts first count result) (result ≡ false) window self.old self.new }
    {
        if window >= self.windows.len() {
            return false;
        }
        match &mut self.windows[window] {
            None => false,
            Some(tables) => tables.note(&self.facts, &mut self.mappings, first, count, notice),
        }
    }

    /// Returns the answer to a question about `count` pages of a window from `first` on. Returns false if there is no such window, or if these pages
    /// aren't all there.
    pub fn may(&self, window: usize, first: usize, count: usize, question: Question) -> bool
        ensures value { result ≡ option_map_or (is_so question self.now.facts self.now.mappings first count) (window_at window self.now.windows) false }
        ensures free { SeenIn (λ w. result ≡ true → AreFree question first count w) (result ≡ false) window self.now }
        ensures own { SeenIn (λ w. result ≡ true → ShowTheirOwn question self.now.facts first count w) (result ≡ false) window self.now }
    {
        if window >= self.windows.len() {
            return false;
        }
        match &self.windows[window] {
            None => false,
            Some(tables) => tables.may(&self.facts, self.mappings, first, count, question),
        }
    }
}
