//! What a guest reads while its pages are lent: laws from the calls for a window's pages, over all that others do.
//!
//! The laws hold for every history. The functions do nothing: the contract is all there is.
#![tactic(auto)]

ghost use Rattle.lending_laws.specs.Ends.{EachEndIsWell, EachEndIsWellInAll};
ghost use Rattle.lending_laws.specs.Lender.{EachCallGoesOn};
ghost use Rattle.lending_laws.specs.Histories.{CarriedOut, Given, IsTold};
ghost use Rattle.lending_laws.specs.Holds.{EachComparisonIsTrue, EachHoldReadsTheSame, EachRowIsHeld, EachStepAgrees, EachTruthIsInBytes, EachZeroIsTrue};
ghost use Rattle.lending_laws.specs.Looks.{EachStepReadsWhatItMay};
ghost use Rattle.lending_laws.specs.ProcessCalls.{EachCallGoesOnInAll};
ghost use Rattle.lending_laws.specs.Notes.{EachIsDetached, EachLookIsCalls, EachNoteIsACall, EachStepTells};
ghost use Rattle.lending_laws.specs.Orders.{EachCopyMay, EachHoldMay, EachListHasRoom, EachLoanMay, EachMapMay, EachQuestionMay, EachReturnMay};
ghost use Rattle.lending_laws.specs.Owned.{EachOwnedCallCounts, EachOwnedCallGoesOn};
ghost use Rattle.lending_laws.specs.OwnedWindows.{EachOfferGoesOn, EachOutIsFree, EachOwnedBegins, EachOwnedEndIsWell, EachTakeOutGoesOn};
ghost use Rattle.lending_laws.specs.Processes.{EachPageOfAllIsRead, EachSlotIsOneWindows, EachWindowIsAlone, NoSlotOfAllIsLost, NoneOfAllIsReleasedShown};
ghost use Rattle.lending_laws.specs.Reading.{EachBeliefIsRight, EachEventKeepsReading, EachFrameIsNoted, EachOrderIsDue, EachOrderIsPossible, EachPageIsRead, StartBegins};
ghost use Rattle.lending_laws.specs.Slots.{EachSlotIsOnes, NoSlotIsLost, NoneIsReleasedShown};
ghost use Rattle.lending_laws.specs.Wrong.{MapsAfterDiscard, given_to_each, one_forgotten, slot_7, two_given};
ghost use Rattle.page_lender.specs.Events.{DoneByEvents, StaysRight};
ghost use Rattle.page_lender.specs.declared.belief.Belief.TheVariants as Belief;
ghost use Rattle.page_lender.specs.declared.belief.Homing.TheVariants.{Off};
ghost use Rattle.page_lender.specs.declared.belief.Stage.TheVariants.{Equal, LettingGo};
ghost use Rattle.page_lender.specs.declared.belief.Target.TheVariants.{Frame, Zeros};
ghost use Rattle.page_lender.specs.declared.order.Order.TheVariants as Order;
ghost use Rattle.page_lender.specs.declared.order.Outcome.TheVariants as Outcome;

use page_holds::rows::laws::row_law;

/// *Each page of a window reads what its guest stored last*, at each moment of every history, also while an order of it is open, or was
/// carried out and nobody is told. What is believed of it is right, each order that is carried out is possible in the protocol, and an
/// outcome is of the order that was given. A page that shows a frame is noted to lie over one. The start of the protocol begins a history,
/// and from any mappings where a page is right each event keeps it so.
pub fn reads_law()
    ensures reads { EachPageIsRead }
    ensures believed { EachBeliefIsRight }
    ensures possible { EachOrderIsPossible }
    ensures named { EachOrderIsDue }
    ensures over { EachFrameIsNoted }
    ensures events { EachEventKeepsReading }
    ensures begins { StartBegins }
{}

/// Calls for many pages, for held pages and for looks are calls of a history. Each page of a range of which something is noted changes by
/// one, or was detached. What a step of a hold takes is the outcome of the page's order, or the page stays. What comes of a step of a look
/// is calls.
pub fn calls_law()
    ensures notes { EachNoteIsACall }
    ensures detached { EachIsDetached }
    ensures steps { EachStepTells }
    ensures looks { EachLookIsCalls }
{}

/// *Each call of C for a window's pages*, in any order, leads from a moment of a history to one: by its contract, where what it says is so
/// ([`Called`] has both). So each page reads what its guest stored last after each call, and all other laws of a history hold: beliefs are right,
/// orders are possible, and an outcome is of the order that was given. What the system and guests do between two calls is in the history, too.
///
/// In a process with many windows nothing but that window changes, and the process is at a moment of its history again. A host gives each slot for one
/// window. A lender's end ([`Ends`]) may be noted of one part of a window after another. Then all that was carried out of its pages' orders is told.
pub fn lender_law()
    ensures calls { EachCallGoesOn }
    ensures windows { EachCallGoesOnInAll }
    ensures ends { EachEndIsWell }
    ensures ends_in_all { EachEndIsWellInAll }
{}

/// *A page of a list or a row is ordered to be asked about, copied, lent, held or mapped over only if it may be lent*: it is in its window and stays
/// there, and no call of the monitor, transfer, device, child of a fork or lock bars it, by the facts of the call that gives the order. What is mapped in
/// a row by an order that was given before is no such order. Pages are asked about and given back only where there is room for their mappings, and
/// copied and held only in parts that are split. Pages of a list that others have take no mapping beyond those that there may be (`room`). Orders to let
/// go, to take home and to release name barred pages, too: nothing is said of these here.
pub fn orders_law()
    ensures asks { EachQuestionMay }
    ensures copies { EachCopyMay }
    ensures loans { EachLoanMay }
    ensures holds { EachHoldMay }
    ensures returns { EachReturnMay }
    ensures maps { EachMapMay }
    ensures room { EachListHasRoom }
{}

/// *Each call of a value that owns all windows of a process* ([`ProcessLender`](process_lender::ProcessLender)) leads from a moment of the process's
/// history to one, where what it says is so. Then each page of each open window reads what its guest stored last, all windows but one are as they were,
/// and counts of parts stay right.
///
/// A new value has no windows (`begins`). A call for a window ([`OwnedCall`]) is calls for its pages, or leaves them as they are (`calls`, `counted`). Of a
/// list's pages each has its turn, and what is said of it is so then. A window that is offered opens, at a place that was free, if its pages are in no
/// open window, read what their guest stored last, and nothing is lent of them (`offers`). One that is taken out closes, if the host has its slots back
/// (`takes_out`). A host that gives only slots that it hasn't given has, if no page of it is believed to show its frame (`out_is_free`). A lender's end
/// may be noted of one part after another, if all that was carried out of its pages' orders is told (`ends`). Calls that only read change nothing.
pub fn owned_law()
    ensures begins { EachOwnedBegins }
    ensures calls { EachOwnedCallGoesOn }
    ensures counted { EachOwnedCallCounts }
    ensures offers { EachOfferGoesOn }
    ensures takes_out { EachTakeOutGoesOn }
    ensures out_is_free { EachOutIsFree }
    ensures ends { EachOwnedEndIsWell }
{}

/// With a host that gives only slots that it hasn't given: *each slot that it gave and hasn't got back is exactly one page's*, at each
/// moment of every history. And when a slot is to be released, no page that has it shows a frame.
pub fn one_slot_law()
    ensures ones { NoSlotIsLost }
    ensures unshown { NoneIsReleasedShown }
{}

/// *All windows of a process*, which open and close while others lend: each is in a history of its own, with what the process has of it. So
/// what the laws above say of a window holds of each, beside all others. Each page of each open window reads what its guest stored last. With
/// a host that gives only slots that it hasn't given for any window, each slot that it gave and hasn't got back is one page's of one
/// window, and none is released while a page of any window shows its frame.
pub fn process_law()
    ensures alone { EachWindowIsAlone }
    ensures reads { EachPageOfAllIsRead }
    ensures ones { NoSlotOfAllIsLost }
    ensures unshown { NoneOfAllIsReleasedShown }
{}

/// A hold of a page, in bytes, and a history of its window say the same: whoever reads the page finds the bytes that the protocol shows.
/// A comparison that says equal in bytes, of a page that is guarded, is true of its order, and the other way round.
pub fn hold_reads_law()
    ensures reads { EachHoldReadsTheSame }
    ensures compared { EachComparisonIsTrue }
    ensures zeros { EachZeroIsTrue }
    ensures in_bytes { EachTruthIsInBytes }
    ensures steps { EachStepAgrees }
{}

/// Each page of a row of held pages is in such a hold, by the law of rows.
pub fn row_reads_law()
    ensures { EachRowIsHeld }
{
    row_law();
}

/// At every step of a look that reads bytes of a page or has found something, the page is its window's and is there, nothing is lent of it,
/// and nothing bars it.
pub fn touched_law()
    ensures { EachStepReadsWhatItMay }
{}

/// What the laws refuse: two pages with one slot, in one window or in two; a slot that no page has; a stuck page, to which writes wait, that
/// is forgotten; a page that is mapped after it was discarded; an outcome that is taken for another order's, or is told before the order was
/// carried out.
pub fn wrong_windows()
    ensures gives_twice { EachSlotIsOnes two_given slot_7 → ⊥ }
    ensures gives_two_windows { EachSlotIsOneWindows given_to_each → ⊥ }
    ensures forgets_a_slot { EachSlotIsOnes one_forgotten slot_7 → ⊥ }
    ensures forgets_a_stuck_page { StaysRight (Belief.Turning LettingGo Zeros) Belief.Private → ⊥ }
    ensures maps_after_discard { MapsAfterDiscard → ⊥ }
    ensures takes_for_another { DoneByEvents (Belief.Turning Equal (Frame 7 0)) (Order.Hold (Frame 7 0)) Outcome.Done (Belief.Shown 7 0 Off) → ⊥ }
    ensures tells_of_another { IsTold Outcome.Done (Order.Map (Frame 7 0)) (CarriedOut (Order.Hold (Frame 7 0))) → ⊥ }
    ensures tells_too_early { IsTold Outcome.Done (Order.Map (Frame 7 0)) (Given (Order.Map (Frame 7 0))) → ⊥ }
{}
