//! Why a file is not an image of memory.
use std::alloc::{AllocError, AllocFailed};
use std::fmt::Display;
use thiserror::Error;

/// What is wrong with the form of a file.
#[derive(Clone, Copy, Debug, PartialEq, Eq, Error)]
pub enum FormFault {
    /// The file ends within the ELF header.
    #[error("the ELF header isn't whole within the file")]
    CutHeader,
    /// The class isn't that of 64 bits.
    #[error("the ELF file isn't of 64 bits")]
    Class,
    /// The byte order isn't little-endian.
    #[error("the ELF file isn't little-endian")]
    ByteOrder,
    /// The type isn't `ET_CORE`.
    #[error("the ELF file is no core")]
    FileType,
    /// The entry size of the program headers isn't 56.
    #[error("the ELF file's program headers aren't of 56 bytes")]
    EntrySize,
    /// The number of program headers must be in section header 0, and there is none of 64 bytes within the file.
    #[error("section header 0 isn't whole within the file")]
    CutSection,
    /// The file ends before the last program header does.
    #[error("a program header isn't whole within the file")]
    CutTable,
    /// The file ends before a segment does.
    #[error("a segment isn't whole within the file")]
    CutSegment,
    /// There are more than 4,294,967,295 pages.
    #[error("more than 4,294,967,295 pages")]
    TooManyPages,
}

/// Why a file can't be read as an image.
#[derive(Debug, Drop, Error)]
#[error_bound(F: Display)]
pub enum ImageFault<F> {
    /// Memory was refused.
    #[error("out of memory")]
    OutOfMemory,
    /// The file can't be read, for this reason.
    #[error("{0}")]
    Read(F),
    /// The file doesn't have a form that can be read.
    #[error("{0}")]
    Form(FormFault),
}

impl<F> From<AllocError> for ImageFault<F> {
    ghost use Rattle.std.specs.Prelude.{◌≡◌};
    ghost use Rattle.memory_images.specs.declared.fault.ImageFault.{ImageFault};

    ghost from_gives = { λ _ fault. fault ≡ ImageFault.OutOfMemory };

    fn from(_refused: AllocError) -> ImageFault<F> {
        ImageFault::OutOfMemory
    }
}

impl<F, T: Drop> From<AllocFailed<T>> for ImageFault<F> {
    ghost use Rattle.std.specs.Prelude.{◌≡◌};
    ghost use Rattle.memory_images.specs.declared.fault.ImageFault.{ImageFault};

    ghost from_gives = { λ _ fault. fault ≡ ImageFault.OutOfMemory };

    fn from(_refused: AllocFailed<T>) -> ImageFault<F> {
        ImageFault::OutOfMemory
    }
}
