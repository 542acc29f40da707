//! Making a pair.
ghost use Rattle.std.specs.Prelude.{◌≡◌, [], IfOk, MatchResult};
ghost use Rattle.share_rings.specs.Ends.{port_sent, port_got, port_known, port_name, port_capacity, end_taken};
ghost use Rattle.share_rings.specs.Ends.{end_given, end_known, end_name, end_free, end_capacity};
ghost use Rattle.share_rings.specs.Faults.{IsCapacity, NoPairFor};

use crate::merger_end::MergerEnd;
use crate::port::Port;
use page_model::MAX_RING_CAPACITY;
use rtrb::RingBuffer;
use std::alloc::{AllocError, Allocator};
use thiserror::Error;

/// Why no pair was made, in the order in which the causes are checked.
#[derive(Clone, Copy, Debug, PartialEq, Eq, Error)]
pub enum RingFault {
    /// A capacity of 0, or above `MAX_RING_CAPACITY`.
    #[error("give a ring room for 1 to 65,536 items")]
    Ring,
    /// The memory for the rings was refused.
    #[error("the rings' memory was refused: free some, or make smaller rings")]
    OutOfMemory,
}

impl From<AllocError> for RingFault {
    ghost use Rattle.share_rings.specs.declared.pair.RingFault.TheVariants.{OutOfMemory};

    ghost from_gives = { λ _ fault. fault ≡ OutOfMemory };

    fn from(_refused: AllocError) -> RingFault {
        RingFault::OutOfMemory
    }
}

/// Makes a guest's two rings, for `capacity` items each: the guest's end and the merger's.
pub fn ring_pair<A: Allocator + Copy>(
    alloc: A,
    capacity: u32,
) -> Result<(Port<A>, MergerEnd<A>), RingFault>
    ensures pair { IfOk result (λ (port, end). port_name port ≡ end_name end) }
    ensures capacity { IfOk result (λ (port, end). (port_capacity port ≡ capacity) × (end_capacity end ≡ capacity)) }
    ensures port { IfOk result (λ (port, end). (port_sent port ≡ []) × (port_got port ≡ []) × (port_known port ≡ [])) }
    ensures end { IfOk result (λ (port, end). (end_taken end ≡ []) × (end_given end ≡ []) × (end_known end ≡ [])
        × (end_free end ≡ capacity)) }
    ensures fault { MatchResult result (λ _. IsCapacity capacity) (λ fault. NoPairFor capacity fault) }
{
    if capacity == 0 || capacity > MAX_RING_CAPACITY {
        return Err(RingFault::Ring);
    }
    Ok(open_pair(alloc, capacity)?)
}

/// Makes them as [`ring_pair`] does, for a capacity that is known to be from 1 to `MAX_RING_CAPACITY`.
pub fn open_pair<A: Allocator + Copy>(
    alloc: A,
    capacity: u32,
) -> Result<(Port<A>, MergerEnd<A>), AllocError>
    requires { IsCapacity capacity }
    ensures pair { IfOk result (λ (port, end). port_name port ≡ end_name end) }
    ensures capacity { IfOk result (λ (port, end). (port_capacity port ≡ capacity) × (end_capacity end ≡ capacity)) }
    ensures port { IfOk result (λ (port, end). (port_sent port ≡ []) × (port_got port ≡ []) × (port_known port ≡ [])) }
    ensures end { IfOk result (λ (port, end). (end_taken end ≡ []) × (end_given end ≡ []) × (end_known end ≡ [])
        × (end_free end ≡ capacity)) }
{
    let (requests, taking) = RingBuffer::new(alloc, capacity as usize)?;
    let (giving, verdicts) = RingBuffer::new(alloc, capacity as usize)?;
    let port = Port {
        requests,
        verdicts,
        drained: false,
    };
    let end = MergerEnd {
        requests: taking,
        verdicts: giving,
        closing: false,
        ended: false,
    };
    Ok((port, end))
}
