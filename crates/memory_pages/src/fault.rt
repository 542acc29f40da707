//! Why nothing is made of pages.
use std::alloc::AllocError;
use std::fmt::Display;
use thiserror::Error;

/// Why pages can't be read, or nothing can be made of them.
#[derive(Debug, Drop, Error)]
#[error_bound(F: Display)]
pub enum ReadFault<F> {
    /// Memory was refused.
    #[error("out of memory")]
    OutOfMemory,
    /// A page can't be read, for this reason.
    #[error("{0}")]
    Read(F),
}

impl<F> From<AllocError> for ReadFault<F> {
    ghost use Rattle.std.specs.Prelude.{◌≡◌};
    ghost use Rattle.memory_pages.specs.declared.fault.ReadFault.{ReadFault};

    ghost from_gives = { λ _ fault. fault ≡ ReadFault.OutOfMemory };

    fn from(_refused: AllocError) -> ReadFault<F> {
        ReadFault::OutOfMemory
    }
}
