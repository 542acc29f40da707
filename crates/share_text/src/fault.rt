//! Why a text was refused, or the work on it.
ghost use Rattle.std.specs.Prelude.{◌≡◌, string_bytes, IfOk};
ghost use Rattle.share_text.specs.Faults.{plain, expectation, run_expectation, run_word, run_line, fault_line};

use merge_run::RunFault;
use std::alloc::{AllocError, Allocator};
use text_words::Cause;
use thiserror::Error;

/// Why a text, or the work on it, was refused.
///
/// `Line`, `Truncated` and `Count` are faults of the text, and come for the first line at fault. Lines are counted from 1. A
/// fault's `Display` text says what was expected; [`fault_line`] returns the line for programs.
///
/// Of the causes for which a run is refused, only `NoThread` comes as `Run`. A script that was read has a machine within the
/// limits and a journal with room for all requests and closes, and lack of memory is reported as a text's is.
#[derive(Clone, Copy, Debug, PartialEq, Eq, Error)]
pub enum TextFault {
    /// This line is at fault.
    #[error("line {0}: expected {wanted}", wanted = expectation(self))]
    Line(u32, Cause),
    /// The text ends before this line does.
    #[error("line {0} is cut off: expected {wanted}, and a line feed behind it", wanted = expectation(self))]
    Truncated(u32),
    /// The end line has a wrong number of request lines.
    #[error("the number of request lines is wrong: expected {wanted}", wanted = expectation(self))]
    Count,
    /// A growth of memory was refused.
    #[error("memory ran out: expected {wanted}", wanted = expectation(self))]
    OutOfMemory,
    /// A read failed.
    #[error("a read failed: expected {wanted}", wanted = expectation(self))]
    Read,
    /// A write failed, or wrote none of some bytes.
    #[error("a write failed: expected {wanted}", wanted = expectation(self))]
    Write,
    /// The run was refused.
    #[error("the run was refused: expected {wanted}", wanted = expectation(self))]
    Run(RunFault),
    /// The text has more bytes than `MAX_TEXT_BYTES`.
    #[error("the text is too long: expected {wanted}", wanted = expectation(self))]
    Long,
}

impl From<text_words::TextFault> for TextFault {
    ghost use Rattle.std.specs.Prelude.{◌≡◌, Ok};
    ghost use Rattle.share_text.specs.Faults.{plain};

    ghost from_gives = { λ refused fault. plain fault ≡ Ok refused };

    #[tactic(auto, unfolding(crate::specs::Faults::plain))]
    fn from(refused: text_words::TextFault) -> TextFault {
        match refused {
            text_words::TextFault::Line(n, cause) => TextFault::Line(n, cause),
            text_words::TextFault::Truncated(n) => TextFault::Truncated(n),
            text_words::TextFault::Count => TextFault::Count,
            text_words::TextFault::OutOfMemory => TextFault::OutOfMemory,
            text_words::TextFault::Read => TextFault::Read,
            text_words::TextFault::Write => TextFault::Write,
            text_words::TextFault::Long => TextFault::Long,
        }
    }
}

impl TextFault {
    ghost use Rattle.std.specs.Prelude.{◌≡◌};
    ghost use Rattle.share_text.specs.Faults.{plain};

    /// Returns the fault of the text or of the work on it, or in `Err` that of the run.
    #[tactic(auto, unfolding(crate::specs::Faults::plain))]
    pub fn plain(&self) -> Result<text_words::TextFault, RunFault>
        ensures { result ≡ plain self.now }
    {
        match self {
            TextFault::Line(n, cause) => Ok(text_words::TextFault::Line(*n, *cause)),
            TextFault::Truncated(n) => Ok(text_words::TextFault::Truncated(*n)),
            TextFault::Count => Ok(text_words::TextFault::Count),
            TextFault::OutOfMemory => Ok(text_words::TextFault::OutOfMemory),
            TextFault::Read => Ok(text_words::TextFault::Read),
            TextFault::Write => Ok(text_words::TextFault::Write),
            TextFault::Run(fault) => Err(*fault),
            TextFault::Long => Ok(text_words::TextFault::Long),
        }
    }
}

/// Returns what would have been right instead of a refused run.
fn run_expectation(fault: RunFault) -> &'static str
    ensures { result.now ≡ run_expectation fault }
{
    match fault {
        RunFault::Frames => "1 to 1,048,576 frames",
        RunFault::Guests => "1 to 64 guests, with a salt each",
        RunFault::Pages => "a page or more for each guest, and at most 1,048,576 together",
        RunFault::Ring => "a ring of 1 to 65,536 requests",
        RunFault::Journal => "a journal of 1 to 16,777,216 requests",
        RunFault::OutOfMemory => "memory for the run",
        RunFault::Stopped(_) => "no more requests than the journal holds",
        RunFault::NoThread => "a thread for each guest",
    }
}

/// Returns what would have been right instead of a fault, in words for a person.
pub fn expectation(fault: &TextFault) -> &'static str
    ensures { result.now ≡ expectation fault.now }
{
    match fault.plain() {
        Ok(fault) => text_words::expectation(&fault),
        Err(run) => run_expectation(run),
    }
}

/// Returns a refused run's word.
fn run_word(fault: RunFault) -> &'static str
    ensures { result.now ≡ run_word fault }
{
    match fault {
        RunFault::Frames => "frames",
        RunFault::Guests => "guests",
        RunFault::Pages => "pages",
        RunFault::Ring => "ring",
        RunFault::Journal => "journal",
        RunFault::OutOfMemory => "memory",
        RunFault::Stopped(_) => "stopped",
        RunFault::NoThread => "no-thread",
    }
}

/// Returns a refused run's line, without a line feed.
fn run_line<A: Allocator>(alloc: A, fault: RunFault) -> Result<String<A>, AllocError>
    ensures { IfOk result (λ s. string_bytes s ≡ run_line fault) }
{
    let mut line = String::new(alloc);
    line.push_str("fault run: ")?;
    line.push_str(run_word(fault))?;
    Ok(line)
}

/// Returns a fault's line, without a line feed.
pub fn fault_line<A: Allocator>(alloc: A, fault: &TextFault) -> Result<String<A>, AllocError>
    ensures { IfOk result (λ s. string_bytes s ≡ fault_line fault.now) }
{
    match fault.plain() {
        Ok(fault) => text_words::fault_line(alloc, &fault),
        Err(run) => run_line(alloc, run),
    }
}
