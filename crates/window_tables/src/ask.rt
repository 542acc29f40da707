//! What is asked of a range of a window's pages.
ghost use Rattle.std.specs.Prelude.{◌≡◌, ◌+◌, ◌≤◌, ◌&&◌, false, length, true};
ghost use Rattle.page_lender.specs.Decisions.{must_own};
ghost use Rattle.page_lender.specs.Events.{IsFree, ShowsNone};
ghost use Rattle.window_pages.specs.Bytes.{belief_of, known_of};
ghost use Rattle.window_pages.specs.Known.{bars_of};
ghost use Rattle.window_tables.specs.Facts.{facts_at, only_called};
ghost use Rattle.window_tables.specs.Ranges.{Each, all_at, goes_on, has_pages, is_yes, moves};
ghost use Rattle.window_tables.specs.declared.ask.Question.TheVariants as Question;

use crate::{TableFacts, facts_of};
use window_pages::{WindowFacts, WindowPage};

// Returns whether so many pages from one on are there.
pub(crate) fn has_pages(pages: &[WindowPage], first: usize, count: usize) -> bool
    ensures value { result ≡ has_pages first count pages.now }
    ensures within { result ≡ true → first + count ≤ length pages.now }
{
    first <= pages.len() && count <= pages.len() - first
}

// What is asked of each page of a range.
#[derive(Clone, Copy)]
enum Question {
    // Whether a call of the monitor may go on by it.
    GoesOn,
    // Whether its memory may be exchanged.
    Moves,
}

// A window of which nothing is so.
pub(crate) const NO_FACTS: TableFacts = TableFacts {
    elsewhere: 0,
    may_pin: false,
    inherited: false,
    locked: false,
    ends: false,
    is_over: false,
};

// Returns that nothing is so of a page, but perhaps that a call of the monitor changes it.
pub(crate) fn only_called(called: bool) -> WindowFacts
    ensures { result ≡ only_called called }
{
    WindowFacts {
        called,
        pinned: false,
        may_pin: false,
        inherited: false,
        locked: false,
        leaves: false,
        ended: false,
    }
}

// Returns whether the question has the answer yes, of the page at a place.
fn is_yes(
    question: Question,
    page: &WindowPage,
    table: &TableFacts,
    pins: &[u16],
    why: &WindowFacts,
    place: usize,
) -> bool
    ensures value { result ≡ is_yes question (facts_at table.now pins.now why.now place) page.now }
    ensures free { result ≡ true → IsFree (belief_of page.now) }
    ensures own { question ≡ Question.GoesOn → result ≡ true → must_own (bars_of (facts_at table.now pins.now why.now place) (known_of page.now)) ≡ true → ShowsNone (belief_of page.now) }
{
    let facts = facts_of(table, pins, why, place);
    match question {
        Question::GoesOn => window_pages::may_go_on(page, &facts),
        Question::Moves => window_pages::is_movable(page, &facts),
    }
}

// Returns whether the question has the answer yes of each of so many pages. Returns false if they aren't all there.
fn all_yes(
    question: Question,
    pages: &[WindowPage],
    table: &TableFacts,
    pins: &[u16],
    why: &WindowFacts,
    first: usize,
    count: usize,
) -> bool
    ensures value { result ≡ (has_pages first count pages.now && all_at (λ i x. is_yes question (facts_at table.now pins.now why.now i) x) first count pages.now) }
    ensures free { result ≡ true → Each (λ i x. IsFree (belief_of x)) first count pages.now }
    ensures own { question ≡ Question.GoesOn → result ≡ true → Each (λ i x. must_own (bars_of (facts_at table.now pins.now why.now i) (known_of x)) ≡ true → ShowsNone (belief_of x)) first count pages.now }
{
    let are_there = has_pages(pages, first, count);
    if !are_there {
        return false;
    }
    for step in 0..count {
        let place = first + step;
        let yes = is_yes(question, &pages[place], table, pins, why, place);
        if !yes {
            return false;
        }
    }
    true
}

/// Returns whether a call of the monitor may go on by each of so many pages, of which this is so from then on: no write to any of them waits,
/// and none that must have memory of its own shows a frame. Returns false if they aren't all there.
pub fn may_go_on(
    pages: &[WindowPage],
    table: &TableFacts,
    pins: &[u16],
    why: &WindowFacts,
    first: usize,
    count: usize,
) -> bool
    ensures goes_on { result ≡ (has_pages first count pages.now && all_at (λ i x. goes_on (facts_at table.now pins.now why.now i) x) first count pages.now) }
    ensures free { result ≡ true → Each (λ i x. IsFree (belief_of x)) first count pages.now }
    ensures own { result ≡ true → Each (λ i x. must_own (bars_of (facts_at table.now pins.now why.now i) (known_of x)) ≡ true → ShowsNone (belief_of x)) first count pages.now }
{
    all_yes(Question::GoesOn, pages, table, pins, why, first, count)
}

/// Returns whether a call of the monitor may go on that gives so many pages up: no write to any of them waits. Returns false if they aren't all
/// there.
pub fn may_give_up(pages: &[WindowPage], first: usize, count: usize) -> bool
    ensures gives_up { result ≡ (has_pages first count pages.now && all_at (λ i x. goes_on (only_called true) x) first count pages.now) }
    ensures free { result ≡ true → Each (λ i x. IsFree (belief_of x)) first count pages.now }
{
    all_yes(
        Question::GoesOn,
        pages,
        &NO_FACTS,
        &[],
        &only_called(true),
        first,
        count,
    )
}

/// Returns whether the memory of each of so many pages may be exchanged for other memory: none of them is held, and nothing keeps one from
/// being lent. Returns false if they aren't all there.
pub fn are_movable(
    pages: &[WindowPage],
    table: &TableFacts,
    pins: &[u16],
    first: usize,
    count: usize,
) -> bool
    ensures movable { result ≡ (has_pages first count pages.now && all_at (λ i x. moves (facts_at table.now pins.now (only_called false) i) x) first count pages.now) }
    ensures free { result ≡ true → Each (λ i x. IsFree (belief_of x)) first count pages.now }
{
    all_yes(
        Question::Moves,
        pages,
        table,
        pins,
        &only_called(false),
        first,
        count,
    )
}
