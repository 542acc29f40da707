//! Why digests can't be merged.
ghost use Rattle.std.specs.Prelude.{◌≡◌};
ghost use Rattle.fleet_census.specs.Faults.{file_of};

use digest_text::LineFault;
use std::alloc::AllocError;
use std::io;
use thiserror::Error;

/// Why digests can't be merged. Files are named by their number.
#[derive(Clone, Copy, Debug, Error)]
pub enum FleetFault {
    /// Memory was refused.
    #[error("out of memory")]
    OutOfMemory,
    /// There are more files than `MAX_DIGESTS`.
    #[error("more than 65,536 digests")]
    TooManyDigests,
    /// The guests have more than 2^64 - 1 pages, or they are estimated to.
    #[error("more than 18,446,744,073,709,551,615 pages")]
    TooManyPages,
    /// This file has another sample than the first file that has a line.
    #[error("another sample than in the digests before")]
    OtherSample(usize),
    /// A read of this file failed.
    #[error("{1}")]
    Read(usize, io::Error),
    /// A line of this file is at fault.
    #[error("{1}")]
    Line(usize, LineFault),
}

impl FleetFault {
    /// Returns the number of the file at fault, if it is one.
    pub fn file(&self) -> Option<usize>
        ensures { result ≡ file_of self.now }
    {
        match self {
            FleetFault::OutOfMemory => None,
            FleetFault::TooManyDigests => None,
            FleetFault::TooManyPages => None,
            FleetFault::OtherSample(file) => Some(*file),
            FleetFault::Read(file, _) => Some(*file),
            FleetFault::Line(file, _) => Some(*file),
        }
    }
}

impl From<AllocError> for FleetFault {
    ghost use Rattle.fleet_census.specs.declared.fault.FleetFault.{FleetFault};

    ghost from_gives = { λ _ fault. fault ≡ FleetFault.OutOfMemory };

    fn from(_refused: AllocError) -> FleetFault {
        FleetFault::OutOfMemory
    }
}
