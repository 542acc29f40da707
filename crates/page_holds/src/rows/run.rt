//! Which step comes next at a row, and with which of its pages.
ghost use Rattle.std.specs.Prelude.{◌≡◌, ℕ, ◌+◌, ◌<◌, ◌≤◌, length};
ghost use Rattle.page_holds.specs.Orders.{IsLeast, IsNext, IsRun, is_joined, rank, runs_on, step_at};

use crate::HoldStep;
use crate::rows::bytes::step_by;
use window_pages::WindowPage;

/// What is done next with pages of a row.
#[derive(Clone, Copy, Debug, PartialEq, Eq)]
pub struct RowOrder {
    /// What is done. Of a row that is over it is nothing.
    pub step: HoldStep,
    /// The first of the pages, counted from the row's first one.
    pub first: usize,
    /// How many pages in a row they are.
    pub count: usize,
}

/// The order of a row that is over.
pub(crate) const OVER: RowOrder = RowOrder {
    step: HoldStep::Over,
    first: 0,
    count: 0,
};

// Returns which steps come before others.
fn rank(step: HoldStep) -> u8
    ensures { result ≡ rank step }
{
    match step {
        HoldStep::Compare => 0,
        HoldStep::CompareZeros => 1,
        HoldStep::Map => 2,
        HoldStep::GiveBack => 3,
        HoldStep::PutBack => 4,
        HoldStep::EndWatch => 5,
        HoldStep::Over => 6,
    }
}

// Returns what is done next with the page at a place of the row.
fn step_at(pages: &[WindowPage], first: usize, row: &[u8], n: usize) -> HoldStep
    requires within { first + length row.now ≤ length pages.now }
    requires place { n < length row.now }
    ensures { result ≡ step_at first pages.now row.now n }
{
    step_by(pages[first + n].known().belief, row[n])
}

// Returns whether one call can do a step with a page and with the one before it.
fn is_joined(step: HoldStep, before: &WindowPage, page: &WindowPage) -> bool
    ensures { result ≡ is_joined step before.now page.now }
{
    match step {
        HoldStep::Over => true,
        HoldStep::Compare => true,
        HoldStep::CompareZeros => true,
        HoldStep::Map => page.goes_on(before),
        HoldStep::GiveBack => true,
        HoldStep::PutBack => true,
        HoldStep::EndWatch => true,
    }
}

// Returns whether the run of a step goes on behind a place of the row.
fn runs_on(step: HoldStep, pages: &[WindowPage], first: usize, row: &[u8], n: usize) -> bool
    requires within { first + length row.now ≤ length pages.now }
    requires place { n + 1 < length row.now }
    ensures { result ≡ runs_on step first pages.now row.now n }
{
    let next = step_at(pages, first, row, n + 1);
    rank(next) == rank(step) && is_joined(step, &pages[first + n], &pages[first + n + 1])
}

// Returns how many pages the run has that begins at a place of the row.
fn run_from(pages: &[WindowPage], first: usize, row: &[u8], begin: usize, step: HoldStep) -> usize
    requires within { first + length row.now ≤ length pages.now }
    requires place { begin < length row.now }
    requires step { step_at first pages.now row.now begin ≡ step }
    ensures { IsRun step first begin result pages.now row.now }
{
    let last = row.len() - 1;
    for n in begin..last {
        let goes_on = runs_on(step, pages, first, row, n);
        if !goes_on {
            return n + 1 - begin;
        }
    }
    row.len() - begin
}

// Returns the order of a page's step, if that comes before what was found.
fn earlier(found: RowOrder, step: HoldStep, n: usize) -> RowOrder
    ensures taken { rank step < rank found.step → result ≡ record { step = step; first = n; count = 1 } }
    ensures kept { rank found.step ≤ rank step → result ≡ found }
{
    if rank(step) < rank(found.step) {
        RowOrder {
            step,
            first: n,
            count: 1,
        }
    } else {
        found
    }
}

// Returns the first of the steps that are the next ones of the row's pages, and the first page that has it.
fn least(pages: &[WindowPage], first: usize, row: &[u8]) -> RowOrder
    requires within { first + length row.now ≤ length pages.now }
    ensures { IsLeast first pages.now row.now (length row.now) result }
{
    let mut found = OVER;
    for n in 0..row.len() {
        found = earlier(found, step_at(pages, first, row, n), n);
    }
    found
}

// Returns the row's next order.
pub(crate) fn order_of(pages: &[WindowPage], first: usize, row: &[u8]) -> RowOrder
    requires within { first + length row.now ≤ length pages.now }
    ensures { IsNext first pages.now row.now result }
{
    let found = least(pages, first, row);
    if rank(found.step) == 6 {
        return found;
    }
    RowOrder {
        step: found.step,
        first: found.first,
        count: run_from(pages, first, row, found.first, found.step),
    }
}
