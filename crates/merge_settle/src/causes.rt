//! Why a machine is not settled.
ghost use Rattle.std.specs.Prelude.{◌≡◌, ◌≤◌, length};
ghost use Rattle.std.specs.List.{position};
ghost use Rattle.merge_machine.specs.Meets.{is_unclosed};
ghost use Rattle.merge_settle.specs.Settling.{is_running, running_fault, undrained_fault};
ghost use Rattle.page_model.specs.declared.limits.TheConstants.{MAX_GUESTS};

use crate::unsettled::SettleFault;
use share_rings::{ClosedPort, MergerEnd};
use std::alloc::Allocator;

/// Returns the first cause not to settle the machine of these ends and ports, if there is one.
pub(crate) fn find_fault<A: Allocator>(
    ends: &[MergerEnd<A>],
    ports: &[ClosedPort<A>],
) -> Option<SettleFault>
    requires { (length ends.now ≤ MAX_GUESTS) × (length ports.now ≤ MAX_GUESTS) }
    ensures { result ≡ running_fault (position is_running ends.now) (undrained_fault (position is_unclosed ports.now)) }
{
    if let Some(guest) = first_running(ends) {
        return Some(SettleFault::Running(guest as u8));
    }
    if let Some(guest) = first_undrained(ports) {
        return Some(SettleFault::Undrained(guest as u8));
    }
    None
}

fn first_running<A: Allocator>(ends: &[MergerEnd<A>]) -> Option<usize>
    ensures { result ≡ position is_running ends.now }
{
    ends.iter().position(|end| !end.ended())
}

fn first_undrained<A: Allocator>(ports: &[ClosedPort<A>]) -> Option<usize>
    ensures { result ≡ position is_unclosed ports.now }
{
    ports.iter().position(|port| !port.drained())
}
