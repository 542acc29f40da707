//! Settling a machine.
ghost use Rattle.std.specs.Prelude.{◌≡◌, None, Some, length, IfOk, IfErr, MatchResult};
ghost use Rattle.merge_core.specs.Shown.{state_of};
ghost use Rattle.page_model.specs.Pages.{used};
ghost use Rattle.merge_machine.specs.Kept.{end_names, closed_names, closed_views};
ghost use Rattle.merge_machine.specs.View.{ends_of, journal_of, core_of, guest_count};
ghost use Rattle.merge_settle.specs.Frames.{frames_of, distinct_numbers};
ghost use Rattle.merge_settle.specs.Settling.{Settles, first_fault};
ghost use Rattle.merge_settle.specs.Unsettled.{IsUnsettled};
ghost use Rattle.merge_settle.specs.View.{settled_journal, settled_ports, settled_core};

use crate::causes::find_fault;
use crate::settled::Settled;
use crate::unsettled::Unsettled;
use merge_core::Core;
use merge_machine::Merger;
use page_digest::PageHash;
use share_rings::ClosedPort;
use std::alloc::Allocator;

/// Settles a machine. Each guest has then received exactly one verdict for each request that it sent, in order. These verdicts
/// are those of one thread that replays the journal on plain page contents. Each page reads the bytes last stored to it.
///
/// The ports are all those of the merger's machine, guest 0's first.
///
/// # Errors
///
/// The merger has not answered some guest's close, or a guest has not received its `Closed`. Everything comes back
/// unchanged, but each end knows all that is left in its ring, and of no fewer free slots than before.
pub fn settle<H: PageHash, A: Allocator>(
    merger: Merger<H, A>,
    ports: Vec<ClosedPort<A>, A>,
) -> Result<Settled<H, A>, Unsettled<H, A>>
    requires pairs { closed_names ports.items ≡ end_names (ends_of merger) }
    ensures settled { IfOk result (λ s. Settles H.hash_of (settled_ports s) (settled_journal s) (settled_core s)) }
    ensures ports { IfOk result (λ s. closed_views (settled_ports s) ≡ closed_views ports.items) }
    ensures guests { IfOk result (λ s. length (settled_ports s) ≡ guest_count merger) }
    ensures journal { IfOk result (λ s. settled_journal s ≡ journal_of merger) }
    ensures core { IfOk result (λ s. settled_core s ≡ core_of merger) }
    ensures fault { MatchResult result (λ _. first_fault (ends_of merger) ports.items ≡ None)
        (λ u. first_fault (ends_of merger) ports.items ≡ Some u.fault) }
    ensures unsettled { IfErr result (λ u. IsUnsettled merger ports.items u.merger u.ports.items) }
{
    let mut merger = merger;
    let mut ports = ports;
    merger.meet_all(&mut ports);
    match find_fault(merger.ends(), &ports) {
        Some(fault) => Err(Unsettled {
            merger,
            ports,
            fault,
        }),
        None => {
            count_frames(merger.core());
            Ok(Settled { merger, ports })
        }
    }
}

/// Does nothing: its contract is what a core's frames say about the number of frames in use.
fn count_frames<H: PageHash, A: Allocator>(core: &Core<H, A>)
    ensures { used (state_of core.now).guests ≡ distinct_numbers (frames_of core.now.pmap) }
{
    let _frames = core.frames();
}
