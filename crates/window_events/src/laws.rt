//! Laws of the protocol, for every list of events. The functions' bodies are empty: the contract is all there is.
ghost use Rattle.std.specs.Prelude.{◌≡◌, [], ◌∷◌, Some, None};
ghost use Rattle.window_events.specs.Windows.{ShowsLast, HoldsShown, KeepsHeld, KeepsShown, KeepsOthers, ShowsWritten, step, run, view_of};
ghost use Rattle.window_events.specs.Wrong.{two_pages, outcome, writes_guarded, written_late, writes_through, written_shared, copies_unguarded, copied_early, maps_unguarded, unguarded_early};
ghost use Rattle.window_events.specs.Wrong.{maps_by_latest_copy, copied_again, lends_stale, guarded_again, maps_again, mapped_twice, discards_guarded, discarded_late};
ghost use Rattle.window_events.specs.Wrong.{releases_shown, released_early, trims_held, trimmed_early, lends_held, lent_twice};
ghost use Rattle.window_events.specs.Wrong.{lends_holders, lent_anew, shared_then_written};

use crate::{Event, View};

/// Whatever guests, lenders and the host do, and in whatever order, a page shows what its guest wrote last; and
/// a page that shows a frame itself holds that frame.
pub fn window_law(events: &[Event], page: u32)
    ensures shows { ShowsLast events.now page }
    ensures holds { HoldsShown events.now page }
{}

/// After these events, a possible write or discard of a page makes it show that content. No other event changes what it shows,
/// whether of its lender, of the host or of another page.
pub fn write_law(events: &[Event], event: &Event, page: u32)
    ensures others { KeepsOthers events.now event.now page }
    ensures written { ShowsWritten events.now event.now page }
{}

/// No event changes a frame that some page holds, whatever the mappings; so none changes a frame that a page shows after
/// these events.
pub fn frame_law(events: &[Event], event: &Event, page: u32, frame: u32)
    ensures held { KeepsHeld event.now frame }
    ensures shown { KeepsShown events.now event.now page frame }
{}

/// Each condition is needed. By a protocol that lacks one, page 0 shows the first number, and its guest wrote the
/// second one last.
pub fn wrong_protocols()
    ensures writes_guarded { outcome writes_guarded written_late ≡ (Some 1, Some 3) }
    ensures writes_through { outcome writes_through written_shared ≡ (Some 3, Some 1) }
    ensures copies_unguarded { outcome copies_unguarded copied_early ≡ (Some 1, Some 3) }
    ensures maps_unguarded { outcome maps_unguarded unguarded_early ≡ (Some 1, Some 3) }
    ensures maps_by_latest_copy { outcome maps_by_latest_copy copied_again ≡ (Some 1, Some 3) }
    ensures lends_stale { outcome lends_stale guarded_again ≡ (Some 1, Some 3) }
    ensures maps_again { outcome maps_again mapped_twice ≡ (Some 1, Some 3) }
    ensures discards_guarded { outcome discards_guarded discarded_late ≡ (Some 1, Some 0) }
    ensures releases_shown { outcome releases_shown released_early ≡ (Some 3, Some 1) }
    ensures trims_held { outcome trims_held trimmed_early ≡ (Some 3, Some 1) }
    ensures lends_held { outcome lends_held lent_twice ≡ (Some 2, Some 1) }
    ensures lends_holders { outcome lends_holders lent_anew ≡ (Some 3, Some 1) }
{}

/// Two pages of equal content show one frame; then the second one's guest writes, and has a copy.
pub fn shared_frame()
    ensures first { view_of (run step two_pages shared_then_written) 0 ≡ Some (View.Over 1 None) }
    ensures second { view_of (run step two_pages shared_then_written) 1 ≡ Some (View.Over 1 (Some 4)) }
    ensures frames { (run step two_pages shared_then_written).frames ≡ 0 ∷ 1 ∷ [] }
{}
