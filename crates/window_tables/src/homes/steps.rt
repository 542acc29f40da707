//! What becomes of each page of a range.
ghost use Rattle.std.specs.Prelude.{◌≡◌, ◌+◌, ◌<◌, ◌≤◌, false, length, true};
ghost use Rattle.window_pages.specs.Counted.{counts_then};
ghost use Rattle.window_tables.specs.Facts.{facts_at};
ghost use Rattle.window_tables.specs.Homes.{Became, EachStep, IsCalled, IsForgotten, IsHome, Stays, is_homing, is_on, outcome_of};
ghost use Rattle.window_tables.specs.Tables.{OneChanges, has_parts};

use crate::{PART, TableFacts, facts_of};
use page_lender::{Belief, Homing, Notice, Outcome};
use window_pages::{PartCounts, WindowFacts, WindowPage, forget, hear, next, stop_past, take};

// What becomes of a page.
#[derive(Clone, Copy)]
pub(crate) enum HomeStep {
    // It gets its next order, if it shows its frame.
    Order,
    // This came of its order to get memory of its own, if that is open: it was done, or it wasn't.
    Take(bool),
    // It shows no frame of a lender that is gone.
    EndPast,
    // What looks have found of it counts no more.
    Forget,
    // The same, if it lies over a frame.
    ForgetOver,
    // Its lender hears that it was written.
    Hear,
}

// Returns whether a page that shows its frame is to get memory of its own.
fn is_on(homing: Homing) -> bool
    ensures { result ≡ is_on homing }
{
    match homing {
        Homing::Off => false,
        Homing::InPlace => true,
        Homing::Elsewhere => true,
    }
}

// Returns whether a page of which this is believed is to get memory of its own.
pub(crate) fn is_homing(belief: Belief) -> bool
    ensures { result ≡ is_homing belief }
{
    match belief {
        Belief::Private => false,
        Belief::Chosen => false,
        Belief::Copied => false,
        Belief::Turning(_, _) => false,
        Belief::Shown(_, _, homing) => is_on(homing),
        Belief::Leaving(_) => false,
    }
}

// Returns the outcome of an order that was done, or wasn't.
fn outcome_of(is_done: bool) -> Outcome
    ensures { result ≡ outcome_of is_done }
{
    if is_done {
        Outcome::Done
    } else {
        Outcome::Refused
    }
}

// Gives a page its next order, if it shows its frame. Returns whether it does.
fn call(page: &mut WindowPage, part: &mut PartCounts, facts: &WindowFacts) -> bool
    ensures page { IsCalled facts.now page.old page.new }
    ensures part { result ≡ true → part.new ≡ counts_then page.old page.new part.old }
    ensures same { result ≡ false → page.new ≡ page.old }
    ensures same_part { result ≡ false → part.new ≡ part.old }
{
    let shows = page.known().belief.shows();
    if !shows {
        return false;
    }
    next(page, part, facts);
    true
}

// Takes what came of a page's order to get memory of its own. Returns whether one was open that can have this outcome.
fn come_home(page: &mut WindowPage, part: &mut PartCounts, outcome: Outcome) -> bool
    ensures page { IsHome outcome page.old page.new }
    ensures part { result ≡ true → part.new ≡ counts_then page.old page.new part.old }
    ensures same { result ≡ false → page.new ≡ page.old }
    ensures same_part { result ≡ false → part.new ≡ part.old }
{
    let is_to = is_homing(page.known().belief);
    if !is_to {
        return false;
    }
    take(page, part, outcome)
}

// What looks have found of a page over a frame counts no more. Returns whether it is one.
fn forget_over(page: &mut WindowPage, part: &mut PartCounts) -> bool
    ensures page { IsForgotten page.old page.new }
    ensures part { result ≡ true → part.new ≡ counts_then page.old page.new part.old }
    ensures same { result ≡ false → page.new ≡ page.old }
    ensures same_part { result ≡ false → part.new ≡ part.old }
{
    let over = page.known().over;
    if !over {
        return false;
    }
    forget(page, part);
    true
}

// Makes this step of a page. Returns whether anything became of it.
fn step_one(
    page: &mut WindowPage,
    part: &mut PartCounts,
    step: HomeStep,
    facts: &WindowFacts,
) -> bool
    ensures page { Became step facts.now page.old page.new }
    ensures part { result ≡ true → part.new ≡ counts_then page.old page.new part.old }
    ensures same { result ≡ false → page.new ≡ page.old }
    ensures same_part { result ≡ false → part.new ≡ part.old }
{
    match step {
        HomeStep::Order => call(page, part, facts),
        HomeStep::Take(is_done) => come_home(page, part, outcome_of(is_done)),
        HomeStep::EndPast => {
            stop_past(page, part);
            true
        }
        HomeStep::Forget => {
            forget(page, part);
            true
        }
        HomeStep::ForgetOver => forget_over(page, part),
        HomeStep::Hear => hear(page, part, Notice::Written),
    }
}

// Makes this step of the page at a place. Returns whether anything became of it.
fn step_at(
    pages: &mut [WindowPage],
    parts: &mut [PartCounts],
    lead: usize,
    table: &TableFacts,
    pins: &[u16],
    why: &WindowFacts,
    place: usize,
    step: HomeStep,
) -> bool
    requires parts { has_parts lead pages.old parts.old ≡ true }
    requires place { place < length pages.old }
    ensures changes { result ≡ true → OneChanges (Became step (facts_at table.now pins.now why.now place)) lead place pages.old pages.new parts.old parts.new }
    ensures stays { result ≡ false → Stays (Became step (facts_at table.now pins.now why.now place)) place pages.old }
    ensures same { result ≡ false → pages.new ≡ pages.old }
    ensures same_parts { result ≡ false → parts.new ≡ parts.old }
{
    let facts = facts_of(table, pins, why, place);
    let number = (place + lead) / PART;
    let mut page = pages[place];
    let mut part = parts[number];
    let changes = step_one(&mut page, &mut part, step, &facts);
    if !changes {
        return false;
    }
    pages[place] = page;
    parts[number] = part;
    true
}

// Makes this step of each of so many pages from one on.
pub(crate) fn step_each(
    pages: &mut [WindowPage],
    parts: &mut [PartCounts],
    lead: usize,
    table: &TableFacts,
    pins: &[u16],
    why: &WindowFacts,
    first: usize,
    count: usize,
    step: HomeStep,
)
    requires within { first + count ≤ length pages.old }
    requires parts { has_parts lead pages.old parts.old ≡ true }
    ensures steps { EachStep step table.now pins.now why.now lead first count pages.old pages.new parts.old parts.new }
    ensures parts { has_parts lead pages.new parts.new ≡ true }
{
    for n in 0..count {
        step_at(pages, parts, lead, table, pins, why, first + n, step);
    }
}
