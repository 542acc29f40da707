//! A proved domain beside the proved protocol of windows: each call of the one is events that are possible in the other.
//!
//! The laws hold for every numbering of contents, and for every domain and mappings that agree. The functions' bodies are
//! empty: the contract is all there is.
#![tactic(auto)]

ghost use Rattle.window_domains.specs.Calls.{BeginsInAgreement, LendsByEvent, LendsEarly, ComparesByEvent, ReleasesByEvents, LeavesByEvents};
ghost use Rattle.window_domains.specs.Calls.{TrimsByEvent, EntersByNone, KeepsAgreement, ShowsBytes};
ghost use Rattle.window_domains.specs.Agreement.{Agrees};
ghost use Rattle.window_domains.specs.Histories.{EveryHistoryIsRight};
ghost use Rattle.window_domains.specs.Example.{same_bytes, no_loan, one_loan, two_loans, slot_of, loan_of, both_shown};
ghost use Rattle.share_domain.specs.Domains.{LendsIn};
ghost use Rattle.window_events.specs.Windows.{step, shown, view_of};
ghost use Rattle.window_events.specs.declared.event.Event.TheVariants as Event;
ghost use Rattle.window_events.specs.declared.page.View.TheVariants as View;
ghost use Rattle.std.specs.Prelude.{◌≡◌, [], ◌∷◌, Some, None, sum};

/// A domain with no client in and pages of which none was lent agree.
pub fn begin_law()
    ensures { BeginsInAgreement }
{}

/// A page that a domain lends is the event `Lend`. If its lender copied it before it guarded it, the loan is at most a `Trim` of
/// a frame that no page holds. `Lend` comes when the guarded page is compared with the frame.
pub fn lend_law()
    ensures lends { LendsByEvent }
    ensures fills { LendsEarly }
    ensures compares { ComparesByEvent }
{}

/// A slot that is released, and slots that are released as a client leaves, are the event `Release` of each page that had them,
/// if none of these pages shows its frame itself.
pub fn release_law()
    ensures releases { ReleasesByEvents }
    ensures leaves { LeavesByEvents }
{}

/// A frame that the domain calls free may be trimmed.
pub fn trim_law()
    ensures { TrimsByEvent }
{}

/// No client that enters, and no event of a guest or a lender alone, ends the agreement.
pub fn keep_law()
    ensures enters { EntersByNone }
    ensures own { KeepsAgreement }
{}

/// The bytes of a frame that a page shows, in the domain, are what the page's guest wrote last.
pub fn show_law()
    ensures { ShowsBytes }
{}

/// After every history of guests, lenders and a domain, each event was possible, and each page shows what its guest wrote last. If
/// it shows a frame itself, the domain holds these bytes in that frame.
pub fn history_law()
    ensures { EveryHistoryIsRight }
{}

/// Two clients lend equal pages, and both pages show one frame of the domain. While page 0 shows it, its release isn't possible: so
/// the laws of releases need their premise.
pub fn shared_frame()
    ensures first { LendsIn 0 0 same_bytes (loan_of 0) no_loan one_loan }
    ensures second { LendsIn 0 1 same_bytes (loan_of 1) one_loan two_loans }
    ensures agrees { Agrees sum two_loans (Some (slot_of 0) ∷ Some (slot_of 1) ∷ []) both_shown }
    ensures shows_first { view_of both_shown 0 ≡ Some (View.Over 1 None) }
    ensures shows_second { view_of both_shown 1 ≡ Some (View.Over 1 None) }
    ensures shown { shown both_shown 1 ≡ Some (sum same_bytes) }
    ensures needed { step both_shown (Event.Release 0) ≡ None }
{}
