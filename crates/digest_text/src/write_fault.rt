//! Why a digest's text can't be written.
use std::alloc::AllocError;
use std::io;
use thiserror::Error;

/// Why a digest's text can't be written.
#[derive(Clone, Copy, Debug, Error)]
pub enum WriteFault {
    /// Memory was refused. Nothing was written.
    #[error("out of memory")]
    OutOfMemory,
    /// A write failed.
    #[error("{0}")]
    Write(io::Error),
}

impl From<AllocError> for WriteFault {
    ghost use Rattle.std.specs.Prelude.{◌≡◌};
    ghost use Rattle.digest_text.specs.declared.write_fault.WriteFault.{WriteFault};

    ghost from_gives = { λ _ fault. fault ≡ WriteFault.OutOfMemory };

    fn from(_refused: AllocError) -> WriteFault {
        WriteFault::OutOfMemory
    }
}

impl From<io::Error> for WriteFault {
    ghost use Rattle.std.specs.Prelude.{◌≡◌};
    ghost use Rattle.digest_text.specs.declared.write_fault.WriteFault.{WriteFault};

    ghost from_gives = { λ error fault. fault ≡ WriteFault.Write error };

    fn from(error: io::Error) -> WriteFault {
        WriteFault::Write(error)
    }
}
