//! The calls for a window's pages.
ghost use Rattle.std.specs.Prelude.{◌≡◌, false};
ghost use Rattle.process_lender.specs.Lists.{Answered, CameOfCopies, CameOfLoans, CameOfRelease, Chooses, ChoosesCopies, FindsReleases, NoAnswer, NoneFound};
ghost use Rattle.process_lender.specs.Rows.{BeginsRow, CameOfOrder, FindsNext, nothing_next};
ghost use Rattle.process_lender.specs.Windows.{InPages};

use crate::{Choice, ProcessLender};
use page_holds::HoldStep;
use page_holds::rows::RowOrder;
use std::alloc::Allocator;

// Nothing is done any more with pages of a row.
const OVER: RowOrder = RowOrder {
    step: HoldStep::Over,
    first: 0,
    count: 0,
};

impl<A: Allocator> ProcessLender<A> {
    /// Chooses pages of a list, one after another, each by itself. Writes to `answers`, of each: 0 it isn't chosen; 1 it is; 3 the same, and others
    /// mustn't find it by the question about it; 4 there is no room for it, and it is asked about as seldom as any. Returns false, and changes nothing,
    /// if there is no such window, or if the lists have different lengths.
    pub fn choose(
        &mut self,
        window: usize,
        what: Choice,
        numbers: &[u32],
        answers: &mut [u8],
    ) -> bool
        ensures { InPages (Chooses what self.old.facts self.old.mappings numbers.now result answers.old answers.new) (NoAnswer result answers.old answers.new) window self.old self.new }
    {
        let taken = self.mappings as u64;
        if window >= self.windows.len() {
            return false;
        }
        match &mut self.windows[window] {
            None => false,
            Some(tables) => tables.choose(&self.facts, taken, what, numbers, answers),
        }
    }

    /// Takes a host's answers to the questions about a list's pages, one after another: whether somebody else has each (`seen`), which has this
    /// fingerprint. Writes to `answers`, of each: 1 it may be lent, and its mappings are taken; 4 it could be, but there is no room for it, and it is
    /// asked about as seldom as any; else 0. Returns false, and changes nothing, if there is no such window, or if the lists have different lengths.
    pub fn answered(
        &mut self,
        window: usize,
        numbers: &[u32],
        fingerprints: &[u64],
        seen: &[u8],
        answers: &mut [u8],
    ) -> bool
        ensures { InPages (Answered self.old.facts self.old.mappings numbers.now fingerprints.now seen.now result answers.old answers.new) (NoAnswer result answers.old answers.new) window self.old self.new }
    {
        let taken = self.mappings as u64;
        if window >= self.windows.len() {
            return false;
        }
        match &mut self.windows[window] {
            None => false,
            Some(tables) => {
                tables.answered(&self.facts, taken, numbers, fingerprints, seen, answers)
            }
        }
    }

    /// Chooses the pages of a list that are to be copied, one after another, each with the fingerprint that a look found. `there` is 1 for a page that
    /// is there, else 0. Writes to `answers`, of each: 0 it is left; 1 it is copied, and has that fingerprint if it is the page that was found; 2 it is
    /// copied, and then a glance finds its clue; 3 it isn't the page that was found. Returns false, and changes nothing, if there is no such window, or
    /// if the lists have different lengths.
    pub fn to_copy(
        &mut self,
        window: usize,
        numbers: &[u32],
        there: &[u8],
        fingerprints: &[u64],
        answers: &mut [u8],
    ) -> bool
        ensures { InPages (ChoosesCopies self.old.facts numbers.now there.now fingerprints.now result answers.old answers.new) (NoAnswer result answers.old answers.new) window self.old self.new }
    {
        if window >= self.windows.len() {
            return false;
        }
        match &mut self.windows[window] {
            None => false,
            Some(tables) => { tables.to_copy(&self.facts, numbers, there, fingerprints, answers) }
        }
    }

    /// Takes what came of the copies of a list's pages, one after another: 0 it wasn't to be copied; 1 the copy is of the page that was found; 2 it
    /// isn't, or the page was to be held and isn't what it is to show; 3 it is zeros. Writes 1 to `answers` of each of which a loan is to be asked for,
    /// else 0. Returns false, and changes nothing, if there is no such window, or if the lists have different lengths.
    pub fn copied(
        &mut self,
        window: usize,
        numbers: &[u32],
        outcomes: &[u8],
        answers: &mut [u8],
    ) -> bool
        ensures { InPages (CameOfCopies self.old.facts numbers.now outcomes.now result answers.old answers.new) (NoAnswer result answers.old answers.new) window self.old self.new }
    {
        if window >= self.windows.len() {
            return false;
        }
        match &mut self.windows[window] {
            None => false,
            Some(tables) => tables.copied(&self.facts, numbers, outcomes, answers),
        }
    }

    /// Takes what a host, whose file has so many frames, said of a list's pages, one after another: to each the slot and the frame that it gave, or
    /// 2^32 - 1 for none. If it wasn't heard, it has lent none of them. Writes to `answers`, of each, a sum of: 1 it has its loan; 2 the host has no
    /// frame for it; 4 the host owes a slot, or a frame of its file; 8 the frame is in its file. Returns false, and changes nothing, if there is no such
    /// window, or if the lists have different lengths.
    pub fn loaned(
        &mut self,
        window: usize,
        numbers: &[u32],
        slots: &[u64],
        given: &[u32],
        frames: u32,
        is_heard: bool,
        answers: &mut [u8],
    ) -> bool
        ensures { InPages (CameOfLoans numbers.now slots.now given.now frames is_heard result answers.old answers.new) (NoAnswer result answers.old answers.new) window self.old self.new }
    {
        if window >= self.windows.len() {
            return false;
        }
        match &mut self.windows[window] {
            None => false,
            Some(tables) => tables.loaned(numbers, slots, given, frames, is_heard, answers),
        }
    }

    /// Finds which of `count` pages from `first` on are to be released. That is their order from then on. Writes their numbers to `places`, as many as
    /// there is room for, and returns how many they are. Where there is no such window, or these pages aren't all there, there are none, and nothing
    /// changes.
    pub fn to_release(
        &mut self,
        window: usize,
        first: usize,
        count: usize,
        places: &mut [usize],
    ) -> usize
        ensures { InPages (FindsReleases self.old.facts first count result places.old places.new) (NoneFound result places.old places.new) window self.old self.new }
    {
        if window >= self.windows.len() {
            return 0;
        }
        match &mut self.windows[window] {
            None => 0,
            Some(tables) => tables.to_release(&self.facts, first, count, places),
        }
    }

    /// Takes what came of the message that released the slots of a list's pages: the host heard it, or it didn't. Returns false, and changes nothing, if
    /// there is no such window.
    pub fn released(&mut self, window: usize, numbers: &[usize], is_done: bool) -> bool
        ensures { InPages (CameOfRelease numbers.now is_done result) (result ≡ false) window self.old self.new }
    {
        if window >= self.windows.len() {
            return false;
        }
        match &mut self.windows[window] {
            None => false,
            Some(tables) => tables.released(numbers, is_done),
        }
    }

    /// Takes what came of the attempt to hold each page of a row, which begins with the page `first`: 0 nothing was done, 1 writes to it may wait, 2 they
    /// wait, 3 its memory was moved aside. Writes a byte of each page to `row`: where its memory is. Returns false, and changes nothing, if there is no
    /// such window, if these pages aren't all there, or if there are more or fewer attempts than bytes.
    pub fn begin_row(&mut self, window: usize, first: usize, row: &mut [u8], takings: &[u8]) -> bool
        ensures { InPages (BeginsRow first takings.now result row.old row.new) (NoAnswer result row.old row.new) window self.old self.new }
    {
        if window >= self.windows.len() {
            return false;
        }
        match &mut self.windows[window] {
            None => false,
            Some(tables) => tables.begin_row(first, row, takings),
        }
    }

    /// Finds what is done next with pages of a row. If writes to a page may wait, that is its order from then on. Where there is no such window nothing
    /// is.
    pub fn next_of_row(&mut self, window: usize, first: usize, row: &[u8]) -> RowOrder
        ensures { InPages (FindsNext self.old.facts first row.now result) (result ≡ nothing_next) window self.old self.new }
    {
        if window >= self.windows.len() {
            return OVER;
        }
        match &mut self.windows[window] {
            None => OVER,
            Some(tables) => tables.next_of_row(&self.facts, first, row),
        }
    }

    /// Takes what came of an order of a row, which began with the page `begin` of the row: with the first `done` of its pages the step was done, and with
    /// `refused` pages behind these it wasn't. The others weren't tried, and are ordered again. Returns false, and changes nothing, if there is no such
    /// window, or if the row has no such pages.
    pub fn row_done(
        &mut self,
        window: usize,
        first: usize,
        row: &mut [u8],
        begin: usize,
        done: usize,
        refused: usize,
    ) -> bool
        ensures { InPages (CameOfOrder first begin done refused result row.old row.new) (NoAnswer result row.old row.new) window self.old self.new }
    {
        if window >= self.windows.len() {
            return false;
        }
        match &mut self.windows[window] {
            None => false,
            Some(tables) => tables.row_done(first, row, begin, done, refused),
        }
    }
}
