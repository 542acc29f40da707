//! Both ends of a pair in one thread.
ghost use Rattle.std.specs.Prelude.{◌≡◌, ◌≤◌, ◌++◌};
ghost use Rattle.share_rings.specs.Closing.{has_closed, last_closed};
ghost use Rattle.share_rings.specs.Ends.{closed_sent, closed_got, closed_known, closed_view, end_taken};
ghost use Rattle.share_rings.specs.Ends.{end_given, end_known, end_free, end_view, IsOnePair};
ghost use Rattle.share_rings.specs.Meet.{MeetingIs};

use crate::closed_port::ClosedPort;
use crate::merger_end::MergerEnd;
use std::alloc::Allocator;

/// How far a pair has come.
#[derive(Clone, Copy, Debug, PartialEq, Eq)]
pub enum Meeting {
    /// The merger's end has not given `Closed`.
    Running,
    /// The port has not received its `Closed`.
    Undrained,
    /// All requests sent were taken, and all verdicts given were received.
    Met,
}

/// Checks both rings of a pair, and returns how far it has come. All that is left in a ring is then known to the end that
/// takes from it.
pub fn meet<A: Allocator>(port: &mut ClosedPort<A>, end: &mut MergerEnd<A>) -> Meeting
    requires { IsOnePair port.old end.old }
    ensures meeting { MeetingIs result (closed_sent port.old) (end_taken end.old) (end_given end.old) (closed_got port.old) }
    ensures port { closed_view port.new ≡ closed_view port.old }
    ensures end { end_view end.new ≡ end_view end.old }
    ensures known_requests { end_taken end.new ++ end_known end.new ≡ closed_sent port.new }
    ensures known_verdicts { closed_got port.new ++ closed_known port.new ≡ end_given end.new }
    ensures free { end_free end.old ≤ end_free end.new }
    ensures last { has_closed (closed_got port.old) ≡ last_closed (closed_got port.old) }
{
    end.requests.slots_beside(&mut port.requests);
    port.verdicts.slots_beside(&mut end.verdicts);
    if !end.ended {
        return Meeting::Running;
    }
    if !port.drained {
        return Meeting::Undrained;
    }
    Meeting::Met
}
