//! Laws of the definitions, for every journal, machine and hash. The functions' bodies are empty: the contract is
//! all there is.
ghost use Rattle.std.specs.Prelude.{◌≡◌, ℕ, [], ◌∷◌};
ghost use Rattle.page_model.specs.declared.limits.TheConstants.{PAGE_BYTES, MAX_ACCESS_BYTES, MAX_GUESTS, MAX_PAGES, MAX_FRAMES};
ghost use Rattle.page_model.specs.declared.limits.TheConstants.{MAX_RING_CAPACITY, MAX_ENTRIES, MAX_WORKERS, MAX_WATCHES, MAX_TEXT_BYTES};
ghost use Rattle.page_model.specs.Stored.{ReadsLastStored};
ghost use Rattle.page_model.specs.Journal.{places, asked};
ghost use Rattle.page_model.specs.Growth.{EntriesNeverFall, OneVerdictEach, VerdictsStay};
ghost use Rattle.page_model.specs.Replay.{verdicts_of};
ghost use Rattle.page_model.specs.Placed.{PlacesHoldRequests, PlacesHoldAnswers, AllArePlaced, PlacesRise};
ghost use Rattle.page_model.specs.Alone.{LoadsAsAlone, PagesAsAlone};
ghost use Rattle.page_model.specs.Reports.{ReportAddsUp, ReportCountsEntries, FramesSuffice};
ghost use Rattle.page_model.specs.Contents.{NeedsAFrameEach, SharingAllIsLeast};
ghost use Rattle.page_model.specs.Proposals.{KeepsBytes, KeepsLoads, OneHintAKey, EqualPagesShare, first_two, three_pages, clashing};
ghost use Rattle.page_model.specs.Events.{Begins, ClosesLast, world_after, GotBeforeSent, out_of_order};

use crate::{Entry, Event, Request, Verdict};

/// After every journal, each page reads as the bytes last stored to it, and as zeros where none were stored.
pub fn last_stored_law(entries: &[Entry])
    ensures { ReadsLastStored entries.now }
{}

/// What a guest reads shows nothing of the other guests or of sharing: if none of its stores was refused
/// a frame, it reads what it would read on a machine of its own.
pub fn alone_law(entries: &[Entry], guest: u8)
    ensures loads { LoadsAsAlone entries.now guest }
    ensures pages { PagesAsAlone entries.now guest }
{}

/// The number of entries never falls as a journal grows.
pub fn entries_law(entries: &[Entry])
    ensures { EntriesNeverFall entries.now }
{}

/// Each entry has one verdict, and later entries don't change it.
pub fn verdicts_law(entries: &[Entry])
    ensures each { OneVerdictEach entries.now }
    ensures stay { VerdictsStay entries.now }
{}

/// A guest's places in a journal are those of all its entries, in rising order; its requests are the ones at those
/// places, and its answers are the verdicts there.
pub fn places_law(entries: &[Entry], guest: u8)
    ensures asked { PlacesHoldRequests entries.now guest }
    ensures answers { PlacesHoldAnswers entries.now guest }
    ensures all { AllArePlaced entries.now guest }
    ensures rise { PlacesRise entries.now guest }
{}

/// After every journal the report counts each entry, and in it `reclaimed` plus `frames` is `mapped`, `shared` is at most
/// `mapped`, and `hints` is at most `frames`.
pub fn report_law(entries: &[Entry])
    ensures sums { ReportAddsUp entries.now }
    ensures entries { ReportCountsEntries entries.now }
{}

/// A machine never uses more frames than it has, however few it has.
pub fn frames_law(entries: &[Entry])
    ensures { FramesSuffice entries.now }
{}

/// In every state the mapped pages have at most as many different contents as frames are in use. They have exactly as many if
/// each mapped page whose content occurs more than once is shared. So no sharing does better, and sharing all equal pages is just
/// as good.
pub fn least_frames_law()
    ensures least { NeedsAFrameEach }
    ensures exact { SharingAllIsLeast }
{}

/// No key ever has two hints.
pub fn hints_law(entries: &[Entry])
    ensures { OneHintAKey entries.now }
{}

/// Whatever its verdict, a proposal changes nothing that any guest reads.
pub fn proposal_law(guest: u8, ppn: u32)
    ensures bytes { KeepsBytes guest ppn }
    ensures loads { KeepsLoads guest ppn }
{}

/// If two pages have equal content, and no other content has its key, both are shared once they were proposed, one
/// right after the other.
pub fn equal_pages_law(entries: &[Entry])
    ensures { EqualPagesShare entries.now }
{}

/// Two equal pages stay unshared if a page with other content is the hint under their key, even though its hash
/// differs.
pub fn key_clash()
    ensures { verdicts_of first_two three_pages clashing
        ≡ Verdict.Mapped ∷ Verdict.Hinted ∷ Verdict.Mapped ∷ Verdict.Mapped ∷ Verdict.Ineligible ∷ Verdict.Ineligible ∷ [] }
{}

/// Guests may send and get, and the merger may take and give, in any order. Each list of a guest's traffic is a beginning of the
/// one before it, and nothing follows a close. If a guest got an entry's verdict before another guest sent a request, the entry
/// comes before that request in the journal.
pub fn schedule_law(events: &[Event])
    ensures taken { (guest : ℕ) → let w = world_after events.now in Begins (w.traffic guest).taken (w.traffic guest).sent }
    ensures journal { (guest : ℕ) → let w = world_after events.now in (w.traffic guest).taken ≡ asked guest w.journal }
    ensures given { (guest : ℕ) → let w = world_after events.now in Begins (w.traffic guest).given (places guest w.journal) }
    ensures got { (guest : ℕ) → let w = world_after events.now in Begins (w.traffic guest).got (w.traffic guest).given }
    ensures closed { (guest : ℕ) → ClosesLast ((world_after events.now).traffic guest).sent }
    ensures order { GotBeforeSent events.now }
{}

/// The world after a get and a take of nothing, a send, a take, a get of nothing, a give and a get.
pub fn events_out_of_order()
    ensures traffic { (world_after out_of_order).traffic 0
        ≡ record { sent = Request.Count ∷ []; taken = Request.Count ∷ []; given = 0 ∷ []; got = 0 ∷ [] } }
    ensures journal { (world_after out_of_order).journal ≡ record { guest = 0; request = Request.Count } ∷ [] }
{}

/// Each limit is this number.
pub fn limits_law()
    ensures page { PAGE_BYTES ≡ 4096 }
    ensures access { MAX_ACCESS_BYTES ≡ 64 }
    ensures guests { MAX_GUESTS ≡ 64 }
    ensures pages { MAX_PAGES ≡ 1048576 }
    ensures frames { MAX_FRAMES ≡ 1048576 }
    ensures ring { MAX_RING_CAPACITY ≡ 65536 }
    ensures entries { MAX_ENTRIES ≡ 16777216 }
    ensures workers { MAX_WORKERS ≡ 64 }
    ensures watches { MAX_WATCHES ≡ 8 }
    ensures text { MAX_TEXT_BYTES ≡ 67108864 }
{}
