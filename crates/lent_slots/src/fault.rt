//! Why a page wasn't lent.
use thiserror::Error;

/// Why a page wasn't lent.
#[derive(Clone, Copy, Debug, PartialEq, Eq, Error)]
pub enum SlotFault {
    /// No slot is free.
    #[error("no slot is free")]
    NoSlot,
    /// The page joins no other, and all frames but the spare one are in use.
    #[error("no frame is free")]
    NoFrame,
}
