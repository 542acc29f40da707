//! What is wrong with a text, or with the work on it.
ghost use Rattle.std.specs.Prelude.{◌≡◌};
ghost use Rattle.text_words.specs.declared.fault.TextFault.TheVariants.{OutOfMemory};

use crate::expect::expectation;
use std::alloc::{AllocError, AllocFailed};
use thiserror::Error;

/// What is wrong with a line. Its `Display` text says what to do.
#[derive(Clone, Copy, Debug, PartialEq, Eq, Error)]
pub enum Cause {
    /// The first line is none of those that the call reads.
    #[error("begin with the line \"pageshare journal 1\" or \"pageshare journal 2\"")]
    Header,
    /// The words are not those that the line must have at its place.
    #[error("give the words of this line's form, with one space between them")]
    Form,
    /// 0 frames, or more than `MAX_FRAMES`.
    #[error("give the machine 1 to 1,048,576 frames")]
    Frames,
    /// More guests than `MAX_GUESTS`.
    #[error("give the pages of at most 64 guests")]
    Guests,
    /// A guest with no page, or more than `MAX_PAGES` in total.
    #[error("give each guest a page or more, and all together at most 1,048,576")]
    Pages,
    /// A ring of 0 items, or of more than `MAX_RING_CAPACITY`.
    #[error("give the rings room for 1 to 65,536 requests")]
    Ring,
    /// A journal limit of 0 entries, or of more than `MAX_ENTRIES`.
    #[error("give the journal room for 1 to 16,777,216 requests")]
    Journal,
    /// The machine has no such guest.
    #[error("name a guest of the \"pages\" line, counted from 0")]
    NoGuest,
    /// A store or load of no byte, or of more than `MAX_ACCESS_BYTES`.
    #[error("store or load 1 to 64 bytes")]
    Length,
    /// A store or load past the page's end.
    #[error("stay within the 4,096 bytes of the page")]
    Crosses,
    /// The guest has closed before.
    #[error("ask nothing of a guest after its close")]
    AfterClose,
    /// More requests than the journal limit allows.
    #[error("ask for no more than the \"journal\" line allows")]
    TooMany,
    /// Not one salt for each guest.
    #[error("give one salt for each guest")]
    Salts,
}

/// Why a text, or the work on it, was refused.
///
/// `Line`, `Truncated` and `Count` are faults of the text, and come for the first line at fault. Lines are counted from 1. A
/// fault's `Display` text says what was expected; `fault_line` returns the line for programs.
#[derive(Clone, Copy, Debug, PartialEq, Eq, Error)]
pub enum TextFault {
    /// This line is at fault.
    #[error("line {0}: expected {wanted}", wanted = expectation(self))]
    Line(u32, Cause),
    /// The text ends before this line does.
    #[error("line {0} is cut off: expected {wanted}, and a line feed behind it", wanted = expectation(self))]
    Truncated(u32),
    /// The end line has a wrong number of request lines.
    #[error("the number of request lines is wrong: expected {wanted}", wanted = expectation(self))]
    Count,
    /// A growth of memory was refused.
    #[error("memory ran out: expected {wanted}", wanted = expectation(self))]
    OutOfMemory,
    /// A read failed.
    #[error("a read failed: expected {wanted}", wanted = expectation(self))]
    Read,
    /// A write failed, or wrote none of some bytes.
    #[error("a write failed: expected {wanted}", wanted = expectation(self))]
    Write,
    /// The text has more bytes than `MAX_TEXT_BYTES`.
    #[error("the text is too long: expected {wanted}", wanted = expectation(self))]
    Long,
}

impl From<AllocError> for TextFault {
    ghost from_gives = { λ _ e. e ≡ OutOfMemory };

    fn from(_refused: AllocError) -> TextFault {
        TextFault::OutOfMemory
    }
}

impl<T: Drop> From<AllocFailed<T>> for TextFault {
    ghost from_gives = { λ _ e. e ≡ OutOfMemory };

    fn from(_refused: AllocFailed<T>) -> TextFault {
        TextFault::OutOfMemory
    }
}
