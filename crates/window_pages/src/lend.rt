//! What a page's lender decides, and what it hears.
ghost use Rattle.std.specs.Prelude.{◌≡◌, ◌&&◌, not, true, false};
ghost use Rattle.page_lender.specs.Decisions.{due, is_busy, is_movable, is_outcome, may_go_on, must_own};
ghost use Rattle.page_lender.specs.Events.{IsFree, ShowsNone};
ghost use Rattle.page_lender.specs.Calls.{IsChosen, IsDone, IsHeard, IsOrdered, is_free};
ghost use Rattle.window_pages.specs.Bytes.{known_of, notes_of};
ghost use Rattle.window_pages.specs.Changed.{Lends, lender_with};
ghost use Rattle.window_pages.specs.Known.{bars_of, lender_of, no_bars, takes, chosen_as};

use crate::change::believe;
use crate::{KnownPage, PartCounts, WindowFacts, WindowPage};
use page_lender::{Bars, Notice, Order, Outcome, PageLender};

// Returns no bars.
fn no_bars() -> Bars
    ensures { result ≡ no_bars }
{
    Bars {
        called: false,
        pinned: false,
        inherited: false,
        locked: false,
        left: false,
        ended: false,
    }
}

impl KnownPage {
    // Returns the page's lender while nothing keeps it from being lent.
    pub(crate) fn free_lender(&self) -> PageLender
        ensures { result ≡ lender_with no_bars self.now }
    {
        PageLender {
            belief: self.belief,
            ordered: self.ordered,
            bars: no_bars(),
        }
    }
}

// Chooses a page to be lent, or to be given back if it is zeros.
fn choose_of(lender: &mut PageLender, is_zeros: bool) -> bool
    ensures chosen { result ≡ is_free lender.old }
    ensures page { IsChosen (chosen_as is_zeros) lender.old lender.new }
{
    if is_zeros {
        lender.choose_zeros()
    } else {
        lender.choose()
    }
}

// Takes this outcome of the page's order, if one is open that can have it.
fn take_of(lender: &mut PageLender, outcome: Outcome) -> bool
    ensures takes { result ≡ (lender.old.ordered && is_outcome (due lender.old.belief) outcome) }
    ensures done { result ≡ true → IsDone outcome lender.old lender.new }
    ensures same { result ≡ false → lender.new ≡ lender.old }
{
    let order = lender.belief.due();
    if !lender.ordered || !order.has(outcome) {
        return false;
    }
    lender.done(order, outcome);
    true
}

// Hears this of a page, if no order that touches it is open.
pub(crate) fn hear_of(lender: &mut PageLender, notice: Notice) -> bool
    ensures hears { result ≡ not (is_busy lender.old) }
    ensures heard { result ≡ true → IsHeard notice lender.old lender.new }
    ensures same { result ≡ false → lender.new ≡ lender.old }
{
    if lender.is_busy() {
        return false;
    }
    lender.heard(notice);
    true
}

/// Chooses a page to be lent, or its memory to be given back if it is zeros. Returns whether it can be: it is private, and nothing keeps
/// it from being lent.
pub fn choose(
    page: &mut WindowPage,
    part: &mut PartCounts,
    facts: &WindowFacts,
    is_zeros: bool,
) -> bool
    ensures chosen { result ≡ is_free (lender_of facts.now (known_of page.old)) }
    ensures page { Lends (IsChosen (chosen_as is_zeros)) (bars_of facts.now (known_of page.old)) page.old page.new part.old part.new }
{
    let mut lender = page.known().lender(facts);
    let is_chosen = choose_of(&mut lender, is_zeros);
    believe(page, part, &lender);
    is_chosen
}

/// Returns whether a page could be chosen to be lent: it is private, and nothing keeps it from being lent.
pub fn is_free(page: &WindowPage, facts: &WindowFacts) -> bool
    ensures { result ≡ is_free (lender_of facts.now (known_of page.now)) }
{
    page.known().lender(facts).choose()
}

/// Returns the next order of a page.
pub fn next(page: &mut WindowPage, part: &mut PartCounts, facts: &WindowFacts) -> Order
    ensures { Lends (IsOrdered result) (bars_of facts.now (known_of page.old)) page.old page.new part.old part.new }
{
    let mut lender = page.known().lender(facts);
    let order = lender.next();
    believe(page, part, &lender);
    order
}

/// Takes this outcome of a page's order. Returns false, and changes nothing, if no order is open that can have it.
pub fn take(page: &mut WindowPage, part: &mut PartCounts, outcome: Outcome) -> bool
    ensures takes { result ≡ takes outcome (known_of page.old) }
    ensures done { result ≡ true → Lends (IsDone outcome) no_bars page.old page.new part.old part.new }
    ensures page { result ≡ false → page.new ≡ page.old }
    ensures part { result ≡ false → part.new ≡ part.old }
{
    let mut lender = page.known().free_lender();
    let is_taken = take_of(&mut lender, outcome);
    if is_taken {
        believe(page, part, &lender);
    }
    is_taken
}

/// Hears this of a page. Returns false, and hears nothing, while an order is open that touches the page.
pub fn hear(page: &mut WindowPage, part: &mut PartCounts, notice: Notice) -> bool
    ensures hears { result ≡ not (is_busy (lender_with no_bars (known_of page.old))) }
    ensures heard { result ≡ true → Lends (IsHeard notice) no_bars page.old page.new part.old part.new }
    ensures page { result ≡ false → page.new ≡ page.old }
    ensures part { result ≡ false → part.new ≡ part.old }
{
    let mut lender = page.known().free_lender();
    let is_heard = hear_of(&mut lender, notice);
    if is_heard {
        believe(page, part, &lender);
    }
    is_heard
}

/// Returns whether a call of the monitor may go on that these facts are for: no write to the page waits, and a page that must have memory
/// of its own shows no frame.
pub fn may_go_on(page: &WindowPage, facts: &WindowFacts) -> bool
    ensures goes_on { result ≡ may_go_on (lender_of facts.now (known_of page.now)) }
    ensures free { result ≡ true → IsFree (known_of page.now).belief }
    ensures own { result ≡ true → must_own (bars_of facts.now (known_of page.now)) ≡ true → ShowsNone (known_of page.now).belief }
{
    let known = page.known();
    let mut lender = known.free_lender();
    lender.bar(known.bars(facts))
}

/// Returns whether the page's memory may be exchanged for other memory: it isn't held, and nothing keeps it from being lent.
pub fn is_movable(page: &WindowPage, facts: &WindowFacts) -> bool
    ensures movable { result ≡ is_movable (lender_of facts.now (known_of page.now)) }
    ensures free { result ≡ true → IsFree (known_of page.now).belief }
{
    page.known().lender(facts).is_movable()
}
