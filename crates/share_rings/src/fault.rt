//! Why a request was not sent.
ghost use Rattle.std.specs.Prelude.{◌≡◌};

use page_model::{Request, RequestFault};
use thiserror::Error;

/// The ring has no slot that is known to be free.
#[derive(Clone, Copy, Debug, PartialEq, Eq, Error)]
#[error("the ring of requests is full: take verdicts, let the merger serve, and send again")]
pub struct Busy;

/// Why a request was not sent, in the order in which the causes are checked.
#[derive(Clone, Copy, Debug, PartialEq, Eq, Error)]
pub enum SendFault {
    /// No byte, or more than `MAX_ACCESS_BYTES`.
    #[error("a store or load is of 1 to 64 bytes: split a longer one")]
    Length,
    /// The last byte would be past the page's end.
    #[error("a store or load ends within its page of 4,096 bytes: split it at the page's end")]
    Crosses,
    /// The ring has no slot that is known to be free.
    #[error("the ring of requests is full: take verdicts, let the merger serve, and send again")]
    Busy,
}

impl From<RequestFault> for SendFault {
    ghost use Rattle.share_rings.specs.Faults.{fault_of};

    ghost from_gives = { λ refused fault. fault ≡ fault_of refused };

    fn from(refused: RequestFault) -> SendFault {
        match refused {
            RequestFault::Length => SendFault::Length,
            RequestFault::Crosses => SendFault::Crosses,
        }
    }
}

impl From<(Request, Busy)> for SendFault {
    ghost use Rattle.share_rings.specs.declared.fault.SendFault.TheVariants as fault;

    ghost from_gives = { λ _ given. given ≡ fault.Busy };

    fn from(_unsent: (Request, Busy)) -> SendFault {
        SendFault::Busy
    }
}
