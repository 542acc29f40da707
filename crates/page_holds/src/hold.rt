//! The calls for a page that is held.
ghost use Rattle.std.specs.Prelude.{◌≡◌, true, false};
ghost use Rattle.page_holds.specs.Steps.{Took, asks_for, is_to_hold, outcome_for, outcome_of, place_after, place_of, said, step_of, still_watched};
ghost use Rattle.page_lender.specs.Decisions.{waiting};
ghost use Rattle.page_lender.specs.Calls.{IsOrdered, order_due};
ghost use Rattle.window_pages.specs.Bytes.{belief_of, known_of};
ghost use Rattle.window_pages.specs.Changed.{Lends};
ghost use Rattle.window_pages.specs.Known.{bars_of, lender_of};

use crate::place::is_to_hold;
use crate::{HeldPlace, HoldStep, Taking};
use page_lender::{Belief, Outcome};
use window_pages::{PartCounts, WindowFacts, WindowPage, next, take};

// Returns the outcome of a page's order that was done, or wasn't.
fn said(is_done: bool) -> Outcome
    ensures { result ≡ said is_done }
{
    if is_done {
        Outcome::Done
    } else {
        Outcome::Refused
    }
}

impl HeldPlace {
    // Returns where the memory is of a page for which threads may wait still. If nothing is at its place, zeros come there.
    fn still_watched(self) -> HeldPlace
        ensures { result ≡ still_watched self }
    {
        match self {
            HeldPlace::Free => HeldPlace::Free,
            HeldPlace::Guarded => HeldPlace::Guarded,
            HeldPlace::Aside => HeldPlace::Replaced,
            HeldPlace::Replaced => HeldPlace::Replaced,
        }
    }
}

impl HoldStep {
    // Returns the outcome of the page's order once the step was done, or wasn't, if it says anything of the order.
    fn outcome(self, belief: Belief, is_done: bool) -> Option<Outcome>
        ensures { result ≡ outcome_for self belief is_done }
    {
        match self {
            HoldStep::Over => None,
            HoldStep::Compare => Some(said(is_done)),
            HoldStep::CompareZeros => Some(said(is_done)),
            HoldStep::Map => Some(said(is_done)),
            HoldStep::GiveBack => (!is_done).then_some(Outcome::Refused),
            HoldStep::PutBack => (!is_done && belief.waits()).then_some(Outcome::Refused),
            HoldStep::EndWatch => belief.waits().then_some(said(is_done)),
        }
    }

    // Returns where the page's memory is once the step was done.
    fn place_once_done(self, place: HeldPlace) -> HeldPlace
        ensures { result ≡ place_after self place true }
    {
        match self {
            HoldStep::Over => place,
            HoldStep::Compare => place,
            HoldStep::CompareZeros => place,
            HoldStep::Map => HeldPlace::Replaced,
            HoldStep::GiveBack => HeldPlace::Replaced,
            HoldStep::PutBack => HeldPlace::Guarded,
            HoldStep::EndWatch => HeldPlace::Free,
        }
    }

    // Returns where the page's memory is once the step wasn't done.
    fn place_once_refused(self, place: HeldPlace) -> HeldPlace
        ensures { result ≡ place_after self place false }
    {
        match self {
            HoldStep::Over => place,
            HoldStep::Compare => place,
            HoldStep::CompareZeros => place,
            HoldStep::Map => place,
            HoldStep::GiveBack => place,
            HoldStep::PutBack => place,
            HoldStep::EndWatch => place.still_watched(),
        }
    }
}

// Takes this outcome of the page's order, if there is one and an order is open that can have it.
fn take_if(page: &mut WindowPage, part: &mut PartCounts, outcome: Option<Outcome>)
    ensures { Took outcome page.old page.new part.old part.new }
{
    match outcome {
        None => {}
        Some(outcome) => {
            take(page, part, outcome);
        }
    }
}

/// Takes what came of the attempt to hold a page whose order that was. Returns where its memory is. Of a page that wasn't to be held, what
/// is believed stays.
pub fn begin(page: &mut WindowPage, part: &mut PartCounts, taking: Taking) -> HeldPlace
    ensures place { result ≡ place_of taking }
    ensures page { Took (asks_for (belief_of page.old) taking) page.old page.new part.old part.new }
{
    let is_asked = is_to_hold(page.known().belief);
    take_if(page, part, is_asked.then_some(taking.outcome()));
    taking.place()
}

/// Returns what is done next with a page whose memory is there. If writes to it may wait, that is its order from then on, and these facts
/// may keep it from being lent.
pub fn step(
    page: &mut WindowPage,
    part: &mut PartCounts,
    facts: &WindowFacts,
    place: HeldPlace,
) -> HoldStep
    ensures step { result ≡ step_of (belief_of page.new) place }
    ensures order { waiting (belief_of page.old) ≡ true → Lends (IsOrdered (order_due (lender_of facts.now (known_of page.old)))) (bars_of facts.now (known_of page.old)) page.old page.new part.old part.new }
    ensures page { waiting (belief_of page.old) ≡ false → page.new ≡ page.old }
    ensures part { waiting (belief_of page.old) ≡ false → part.new ≡ part.old }
{
    if page.known().belief.waits() {
        next(page, part, facts);
    }
    place.step(page.known().belief)
}

/// Takes whether the page's next step was done, where its memory was there. Returns where the memory is then. A call that was refused has
/// changed nothing.
pub fn done(
    page: &mut WindowPage,
    part: &mut PartCounts,
    place: HeldPlace,
    is_done: bool,
) -> HeldPlace
    ensures place { result ≡ place_after (step_of (belief_of page.old) place) place is_done }
    ensures page { Took (outcome_for (step_of (belief_of page.old) place) (belief_of page.old) is_done) page.old page.new part.old part.new }
{
    let belief = page.known().belief;
    let step = place.step(belief);
    take_if(page, part, step.outcome(belief, is_done));
    if is_done {
        step.place_once_done(place)
    } else {
        step.place_once_refused(place)
    }
}
