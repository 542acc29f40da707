//! What a step finds at a guest's end.
ghost use Rattle.std.specs.Prelude.{◌≡◌, false};
ghost use Rattle.share_rings.specs.Closing.{has_close, has_closed};
ghost use Rattle.share_rings.specs.Ends.{end_taken, end_given};
ghost use Rattle.merge_machine.specs.Ahead.{Finds};

use page_model::Request;
use share_rings::MergerEnd;
use std::alloc::Allocator;

/// What a step finds at a guest's end, in the order in which the causes are checked.
pub(crate) enum Ahead {
    /// The guest's `Closed` was given.
    Ended,
    /// The journal has no room.
    Full,
    /// No slot for a verdict is known to be free.
    Blocked,
    /// No request is seen.
    Idle,
    /// This request was taken, and there is a slot for its verdict.
    Next(Request),
}

/// Takes a guest's next request, unless there is a cause not to serve one. All those taken before are answered.
pub(crate) fn look_ahead<A: Allocator>(end: &mut MergerEnd<A>, is_full: bool) -> Ahead
    requires { has_closed (end_given end.old) ≡ false → has_close (end_taken end.old) ≡ false }
    ensures { Finds is_full end.old end.new result }
{
    if end.ended() {
        return Ahead::Ended;
    }
    if is_full {
        return Ahead::Full;
    }
    take_next(end)
}

/// Takes the next request of a guest whose `Closed` was not given, if a slot for its verdict is known to be free.
fn take_next<A: Allocator>(end: &mut MergerEnd<A>) -> Ahead
    requires open { has_closed (end_given end.old) ≡ false }
    requires sends { has_close (end_taken end.old) ≡ false }
    ensures { Finds false end.old end.new result }
{
    if end.free() == 0 {
        return Ahead::Blocked;
    }
    match end.take() {
        Some(request) => Ahead::Next(request),
        None => Ahead::Idle,
    }
}
