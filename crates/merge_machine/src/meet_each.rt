//! The two ends of each pair, in one thread again.
ghost use Rattle.std.specs.Prelude.{◌≡◌, length};
ghost use Rattle.merge_machine.specs.Kept.{end_names, closed_names, end_views, closed_views};
ghost use Rattle.merge_machine.specs.Meets.{MeetWhereClosed, AllKnown, NoFewerFree};

use share_rings::{ClosedPort, MergerEnd, meet};
use std::alloc::Allocator;

/// Checks the rings of each pair.
pub(crate) fn meet_each<A: Allocator>(
    ports: &mut Vec<ClosedPort<A>, A>,
    ends: &mut Vec<MergerEnd<A>, A>,
)
    requires { closed_names ports.old.items ≡ end_names ends.old.items }
    ensures ports { closed_views ports.new.items ≡ closed_views ports.old.items }
    ensures ends { end_views ends.new.items ≡ end_views ends.old.items }
    ensures known { AllKnown ports.new.items ends.new.items }
    ensures free { NoFewerFree ends.old.items ends.new.items }
    ensures met { MeetWhereClosed ports.old.items ends.old.items (length ends.old.items) }
{
    for i in 0..ends.len() {
        meet(&mut ports[i], &mut ends[i]);
    }
}
