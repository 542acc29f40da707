//! Why a digest's text can't be read.
use crate::LineFault;
use std::alloc::AllocError;
use std::io;
use thiserror::Error;

/// Why a digest's text can't be read.
#[derive(Clone, Copy, Debug, Error)]
pub enum ReadFault {
    /// Memory was refused.
    #[error("out of memory")]
    OutOfMemory,
    /// A read failed.
    #[error("{0}")]
    Read(io::Error),
    /// A line is at fault.
    #[error("{0}")]
    Line(LineFault),
}

impl From<AllocError> for ReadFault {
    ghost use Rattle.std.specs.Prelude.{◌≡◌};
    ghost use Rattle.digest_text.specs.declared.read_fault.ReadFault.{ReadFault};

    ghost from_gives = { λ _ fault. fault ≡ ReadFault.OutOfMemory };

    fn from(_refused: AllocError) -> ReadFault {
        ReadFault::OutOfMemory
    }
}

impl From<io::Error> for ReadFault {
    ghost use Rattle.std.specs.Prelude.{◌≡◌};
    ghost use Rattle.digest_text.specs.declared.read_fault.ReadFault.{ReadFault};

    ghost from_gives = { λ error fault. fault ≡ ReadFault.Read error };

    fn from(error: io::Error) -> ReadFault {
        ReadFault::Read(error)
    }
}

impl From<LineFault> for ReadFault {
    ghost use Rattle.std.specs.Prelude.{◌≡◌};
    ghost use Rattle.digest_text.specs.declared.read_fault.ReadFault.{ReadFault};

    ghost from_gives = { λ line fault. fault ≡ ReadFault.Line line };

    fn from(fault: LineFault) -> ReadFault {
        ReadFault::Line(fault)
    }
}
