//! Settling a machine whose reports are published.
ghost use Rattle.std.specs.Prelude.{◌≡◌, None, Some, length, IfOk, IfErr, MatchResult};
ghost use Rattle.merge_machine.specs.Kept.{end_names, closed_names, closed_views};
ghost use Rattle.merge_machine.specs.View.{ends_of, journal_of, core_of, guest_count};
ghost use Rattle.merge_settle.specs.Settling.{Settles, first_fault};
ghost use Rattle.merge_settle.specs.Unsettled.{IsUnsettled};
ghost use Rattle.merge_settle.specs.View.{settled_journal, settled_ports, settled_core};
ghost use Rattle.watched_machine.specs.View.{merger_in, publisher_in, settled_in, settled_publisher};

use crate::merger::Merger;
use crate::settled::Settled;
use crate::unsettled::Unsettled;
use page_digest::PageHash;
use share_rings::ClosedPort;
use std::alloc::Allocator;

/// Settles a machine, as [`merge_settle::settle`] does. The published reports stay as they are, and no watch is waited for.
///
/// The ports are all those of the merger's machine, guest 0's first.
///
/// # Errors
///
/// The merger has not answered some guest's close, or a guest has not received its `Closed`. Everything comes back
/// unchanged, but each end knows all that is left in its ring, and of no fewer free slots than before.
pub fn settle<H: PageHash, A: Allocator>(
    merger: Merger<H, A>,
    ports: Vec<ClosedPort<A>, A>,
) -> Result<Settled<H, A>, Unsettled<H, A>>
    requires pairs { closed_names ports.items ≡ end_names (ends_of (merger_in merger)) }
    ensures settled { IfOk result (λ s. Settles H.hash_of (settled_ports (settled_in s)) (settled_journal (settled_in s)) (settled_core (settled_in s))) }
    ensures ports { IfOk result (λ s. closed_views (settled_ports (settled_in s)) ≡ closed_views ports.items) }
    ensures guests { IfOk result (λ s. length (settled_ports (settled_in s)) ≡ guest_count (merger_in merger)) }
    ensures journal { IfOk result (λ s. settled_journal (settled_in s) ≡ journal_of (merger_in merger)) }
    ensures core { IfOk result (λ s. settled_core (settled_in s) ≡ core_of (merger_in merger)) }
    ensures fault { MatchResult result (λ _. first_fault (ends_of (merger_in merger)) ports.items ≡ None)
        (λ u. first_fault (ends_of (merger_in merger)) ports.items ≡ Some u.fault) }
    ensures unsettled { IfErr result (λ u. IsUnsettled (merger_in merger) ports.items (merger_in u.merger) u.ports.items) }
    ensures reports { MatchResult result (λ s. settled_publisher s ≡ publisher_in merger) (λ u. publisher_in u.merger ≡ publisher_in merger) }
{
    let Merger { merger, publisher } = merger;
    match merge_settle::settle(merger, ports) {
        Ok(settled) => {
            let settled = Settled { settled, publisher };
            Ok(settled)
        }
        Err(unsettled) => {
            let merge_settle::Unsettled {
                merger,
                ports,
                fault,
            } = unsettled;
            let merger = Merger { merger, publisher };
            Err(Unsettled {
                merger,
                ports,
                fault,
            })
        }
    }
}
