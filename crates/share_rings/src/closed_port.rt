//! The guest's side, once it has sent its `Close`.
ghost use Rattle.std.specs.Prelude.{◌≡◌, false, true};
ghost use Rattle.rtrb.specs.Ring.{sent, received};
ghost use Rattle.share_rings.specs.Closing.{has_close, last_closed, front};

use page_model::{Request, Verdict};
use rtrb::{Consumer, Producer};
use std::alloc::{Allocator, Global};

/// A guest's end that has sent its `Close` and only takes verdicts.
pub struct ClosedPort<A: Allocator = Global> {
    pub(crate) requests: Producer<Request, A>,
    pub(crate) verdicts: Consumer<Verdict, A>,
    // Whether the last verdict received is `Closed`.
    pub(crate) drained: bool,
    pub ghost shut: { has_close (sent requests) ≡ true },
    pub ghost once: { has_close (front (sent requests)) ≡ false },
    pub ghost last: { drained ≡ last_closed (received verdicts) },
}

impl<A: Allocator> ClosedPort<A> {
    ghost use Rattle.std.specs.Prelude.{◌≡◌, false, true, [], ◌∷◌, ◌++◌, MatchOption, IsNone};
    ghost use mathlib.Core.List.{IsPrefix};
    ghost use Rattle.share_rings.specs.Closing.{last_closed};
    ghost use Rattle.share_rings.specs.Ends.{closed_sent, closed_got, closed_name, closed_known, closed_capacity};

    /// Returns the next verdict, if one is seen. `None` changes nothing, and is the answer once drained.
    pub fn verdict(&mut self) -> Option<Verdict>
        ensures pair { closed_name self.new ≡ closed_name self.old }
        ensures capacity { closed_capacity self.new ≡ closed_capacity self.old }
        ensures got { MatchOption result (closed_got self.new ≡ closed_got self.old)
            (λ v. closed_got self.new ≡ closed_got self.old ++ v ∷ []) }
        ensures drained { last_closed (closed_got self.old) ≡ true → IsNone result × (self.new ≡ self.old) }
        ensures known { last_closed (closed_got self.old) ≡ false
            → MatchOption result (closed_known self.old ≡ []) (λ v. IsPrefix (closed_known self.old) (v ∷ closed_known self.new)) }
        ensures sent { closed_sent self.new ≡ closed_sent self.old }
    {
        if self.drained {
            return None;
        }
        let Ok(verdict) = self.verdicts.pop() else {
            return None;
        };
        self.drained = verdict.is_closed();
        Some(verdict)
    }

    /// Whether the last verdict received is `Closed`.
    pub fn drained(&self) -> bool
        ensures { result ≡ last_closed (closed_got self.now) }
    {
        self.drained
    }
}

impl<A: Allocator> Drop for ClosedPort<A> {
    fn drop(self) {
        let Self {
            requests: _,
            verdicts: _,
            drained: _,
        } = self;
    }
}
