//! What guests and other lenders do between a lender's orders leaves its beliefs right, and the lender's events are possible. The
//! functions' bodies are empty: the contract is all there is.
ghost use Rattle.std.specs.Prelude.{true, false};
ghost use Rattle.page_lender.specs.Events.{KeptBy, is_guests, is_of, DoneByEvents, StaysRight, HeardRightly};
ghost use Rattle.page_lender.specs.Histories.{EveryHistoryIsPossible, BeginsPrivate, NeverSeen};
ghost use Rattle.page_lender.specs.Slots.{KeepsAccount};
ghost use Rattle.page_lender.specs.declared.belief.Belief.TheVariants as Belief;
ghost use Rattle.page_lender.specs.declared.belief.Homing.TheVariants.{Off};
ghost use Rattle.page_lender.specs.declared.belief.Stage.TheVariants.{Ready, Held, Equal};
ghost use Rattle.page_lender.specs.declared.belief.Target.TheVariants.{Frame, Zeros};
ghost use Rattle.page_lender.specs.declared.order.Order.TheVariants as Order;
ghost use Rattle.page_lender.specs.declared.order.Outcome.TheVariants as Outcome;

/// A page's guest may write it or give it up at any time, known to the lender or not, and other pages and the host may change: what is
/// believed of the page stays right.
pub fn others_law()
    ensures guest { KeptBy is_guests true }
    ensures others { KeptBy is_of false }
{}

/// Before the first event nothing is lent. Whatever comes of the orders, is heard or is done by others, and in whatever order:
/// if all of that is true, what is believed is right, and each event of the lender is possible.
pub fn history_law()
    ensures begins { BeginsPrivate }
    ensures possible { EveryHistoryIsPossible }
{}

/// Whatever came before, and whatever comes of an order: what the page shows stays as it is. So no guest sees what its lender does. Of
/// memory that is given back it is taken for granted that the page was rightly believed to be zeros, and that its guard stood since.
pub fn unseen_law()
    ensures { NeverSeen }
{}

/// No slot is lost, and none is released twice: where an order named what is the page's own and its outcome is true, the account stays
/// right of the slot that the host has for the page.
pub fn slots_law()
    ensures { KeepsAccount }
{}

/// Lenders that the clauses on events refuse: one that releases a page that shows its frame; that maps a page it didn't compare; that
/// forgets to let go of a page that differs, or that may be held; that takes a refused release for done; that takes a
/// shown page for written; that takes a page for zeros that it didn't compare; and that forgets the slot of a page that was given up.
pub fn wrong_lenders()
    ensures releases_shown { DoneByEvents (Belief.Shown 7 0 Off) (Order.Release 7) Outcome.Done Belief.Private → ⊥ }
    ensures maps_uncompared { DoneByEvents (Belief.Turning Held (Frame 7 0)) (Order.Map (Frame 7 0)) Outcome.Done (Belief.Shown 7 0 Off) → ⊥ }
    ensures leaves_held { DoneByEvents (Belief.Turning Held (Frame 7 0)) (Order.Compare (Frame 7 0)) Outcome.Refused (Belief.Leaving 7) → ⊥ }
    ensures doubts_no_hold { DoneByEvents (Belief.Turning Ready (Frame 7 0)) (Order.Hold (Frame 7 0)) Outcome.Unknown (Belief.Leaving 7) → ⊥ }
    ensures trusts_release { DoneByEvents (Belief.Leaving 7) (Order.Release 7) Outcome.Refused Belief.Private → ⊥ }
    ensures sees_no_write { StaysRight (Belief.Shown 7 0 Off) (Belief.Leaving 7) → ⊥ }
    ensures takes_for_zeros { DoneByEvents (Belief.Turning Ready Zeros) (Order.Hold Zeros) Outcome.Done (Belief.Turning Equal Zeros) → ⊥ }
    ensures forgets_slot { HeardRightly (Belief.Shown 7 0 Off) Belief.Private → ⊥ }
{}
