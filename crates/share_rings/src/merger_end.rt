//! The merger's side.
ghost use Rattle.std.specs.Prelude.{◌≡◌, ◌+◌, ◌≤◌, false, true, length};
ghost use Rattle.rtrb.specs.Ring.{sent, received, known_free, producer_capacity};
ghost use Rattle.page_model.specs.declared.limits.TheConstants.{MAX_RING_CAPACITY};
ghost use Rattle.share_rings.specs.Closing.{has_close, has_closed, front, matched};

use page_model::{Request, Verdict};
use rtrb::{Consumer, Producer};
use std::alloc::{Allocator, Global};

/// The merger's end of a guest's rings.
pub struct MergerEnd<A: Allocator = Global> {
    pub(crate) requests: Consumer<Request, A>,
    pub(crate) verdicts: Producer<Verdict, A>,
    // Whether `Close` was taken.
    pub(crate) closing: bool,
    // Whether `Closed` was given.
    pub(crate) ended: bool,
    pub ghost closing_is: { closing ≡ has_close (received requests) },
    pub ghost once: { has_close (front (received requests)) ≡ false },
    pub ghost ended_is: { ended ≡ has_closed (sent verdicts) },
    pub ghost answered: { matched (sent verdicts) (received requests) ≡ true },
    pub ghost room: { producer_capacity verdicts ≤ known_free verdicts + length (sent verdicts) },
    pub ghost small: { producer_capacity verdicts ≤ MAX_RING_CAPACITY },
}

impl<A: Allocator> MergerEnd<A> {
    ghost use Rattle.std.specs.Prelude.{◌≡◌, ◌+◌, ◌<◌, ◌≤◌, false, true, [], ◌∷◌, ◌++◌, length, MatchOption, IsNone};
    ghost use mathlib.Core.List.{IsPrefix};
    ghost use Rattle.share_rings.specs.Closing as closing;
    ghost use Rattle.share_rings.specs.Closing.{has_close, has_closed, last_closed};
    ghost use Rattle.share_rings.specs.Ends.{end_taken, end_given, end_name, end_free, end_known, end_capacity, IsUnanswered};

    /// Checks the verdict ring. Returns how many slots are now known to be free.
    pub fn free(&mut self) -> u32
        ensures pair { end_name self.new ≡ end_name self.old }
        ensures capacity { end_capacity self.new ≡ end_capacity self.old }
        ensures lists { (end_taken self.new ≡ end_taken self.old) × (end_given self.new ≡ end_given self.old)
            × (end_known self.new ≡ end_known self.old) }
        ensures value { result ≡ end_free self.new }
        ensures more { end_free self.old ≤ end_free self.new }
        ensures least { end_capacity self.old ≤ result + length (end_given self.old) }
    {
        self.verdicts.slots() as u32
    }

    /// Takes the next request, if one is seen. `None` changes nothing, and is the answer once `Close` was taken. Before
    /// that, `None` says that no request is known.
    pub fn take(&mut self) -> Option<Request>
        ensures pair { end_name self.new ≡ end_name self.old }
        ensures capacity { end_capacity self.new ≡ end_capacity self.old }
        ensures taken { MatchOption result (end_taken self.new ≡ end_taken self.old)
            (λ r. end_taken self.new ≡ end_taken self.old ++ r ∷ []) }
        ensures closed { has_close (end_taken self.old) ≡ true → IsNone result × (self.new ≡ self.old) }
        ensures known { has_close (end_taken self.old) ≡ false
            → MatchOption result ((end_known self.old ≡ []) × (end_known self.new ≡ []))
            (λ r. IsPrefix (end_known self.old) (r ∷ end_known self.new)) }
        ensures given { end_given self.new ≡ end_given self.old }
        ensures free { end_free self.new ≡ end_free self.old }
    {
        if self.closing {
            return None;
        }
        let Ok(request) = self.requests.pop() else {
            return None;
        };
        self.closing = request.is_close();
        Some(request)
    }

    /// Gives the verdict on the first request that has none.
    pub fn give(&mut self, verdict: Verdict)
        requires free { 0 < end_free self.old }
        requires unanswered { IsUnanswered self.old (closing.is_closed verdict) }
        ensures pair { end_name self.new ≡ end_name self.old }
        ensures capacity { end_capacity self.new ≡ end_capacity self.old }
        ensures given { end_given self.new ≡ end_given self.old ++ verdict ∷ [] }
        ensures taken { end_taken self.new ≡ end_taken self.old }
        ensures known { end_known self.new ≡ end_known self.old }
        ensures free { end_free self.old ≡ end_free self.new + 1 }
    {
        self.ended = verdict.is_closed();
        self.verdicts.push_reserved(verdict);
    }

    /// Whether `Closed` was given. It is then the last verdict.
    pub fn ended(&self) -> bool
        ensures given { result ≡ has_closed (end_given self.now) }
        ensures last { result ≡ last_closed (end_given self.now) }
    {
        self.ended
    }
}

impl<A: Allocator> Drop for MergerEnd<A> {
    fn drop(self) {
        let Self {
            requests: _,
            verdicts: _,
            closing: _,
            ended: _,
        } = self;
    }
}
