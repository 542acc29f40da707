//! Why there is no census.
use std::alloc::AllocError;
use std::fmt::Display;
use thiserror::Error;

/// Why pages can't be counted.
#[derive(Debug, Drop, Error)]
#[error_bound(F: Display)]
pub enum CensusFault<F> {
    /// Memory was refused.
    #[error("out of memory")]
    OutOfMemory,
    /// There are more than 4,294,967,295 pages.
    #[error("more than 4,294,967,295 pages")]
    TooManyPages,
    /// A page of the guest with this number can't be read, for this reason.
    #[error("guest {0}: {1}")]
    Read(usize, F),
}

impl<F> From<AllocError> for CensusFault<F> {
    ghost use Rattle.std.specs.Prelude.{◌≡◌};
    ghost use Rattle.page_census.specs.declared.fault.CensusFault.{CensusFault};

    ghost from_gives = { λ _ fault. fault ≡ CensusFault.OutOfMemory };

    fn from(_refused: AllocError) -> CensusFault<F> {
        CensusFault::OutOfMemory
    }
}

/// Why pages can't be counted once their number is known.
#[derive(Drop)]
pub(crate) enum LookFault<F> {
    /// Memory was refused.
    OutOfMemory,
    /// A page of the guest with this number can't be read, for this reason.
    Read(usize, F),
}

impl<F> From<AllocError> for LookFault<F> {
    ghost use Rattle.std.specs.Prelude.{◌≡◌};
    ghost use Rattle.page_census.specs.declared.fault.LookFault.{LookFault};

    ghost from_gives = { λ _ fault. fault ≡ LookFault.OutOfMemory };

    fn from(_refused: AllocError) -> LookFault<F> {
        LookFault::OutOfMemory
    }
}

impl<F> From<LookFault<F>> for CensusFault<F> {
    ghost use Rattle.std.specs.Prelude.{◌≡◌};
    ghost use Rattle.page_census.specs.Faults.{census_fault};

    ghost from_gives = { λ inner fault. fault ≡ census_fault inner };

    fn from(inner: LookFault<F>) -> CensusFault<F> {
        match inner {
            LookFault::OutOfMemory => CensusFault::OutOfMemory,
            LookFault::Read(guest, fault) => CensusFault::Read(guest, fault),
        }
    }
}
