//! What would have been right instead of a fault of a text or of the work on it, in words for a person.
ghost use Rattle.std.specs.Prelude.{◌≡◌};
ghost use Rattle.text_words.specs.Expected.{line_form, expected_on, expectation};

use crate::fault::{Cause, TextFault};

/// Returns the form of line `n`.
fn line_form(n: u32) -> &'static str
    ensures { result.now ≡ line_form n }
{
    if n == 1 {
        "\"pageshare journal 1\" or \"pageshare journal 2\""
    } else if n == 2 {
        "\"frames NUMBER\""
    } else if n == 3 {
        "\"pages NUMBER ..\""
    } else if n == 4 {
        "a request line, as \"GUEST propose PPN\", or \"end NUMBER\" with nothing behind that line; in version 2 \"salts NUMBER ..\""
    } else {
        "a request line, as \"GUEST propose PPN\", or \"end NUMBER\" with nothing behind that line"
    }
}

/// Returns what line `n` must be, if it is at fault for this cause.
fn expected_on(n: u32, cause: Cause) -> &'static str
    ensures { result.now ≡ expected_on n cause }
{
    match cause {
        Cause::Header => line_form(n),
        Cause::Form => line_form(n),
        Cause::Frames => "1 to 1,048,576 frames",
        Cause::Guests => "at most 64 guests",
        Cause::Pages => "a page or more for each guest, and at most 1,048,576 together",
        Cause::Ring => "a ring of 1 to 65,536 requests",
        Cause::Journal => "a journal of 1 to 16,777,216 requests",
        Cause::NoGuest => "a guest of the \"pages\" line, counted from 0",
        Cause::Length => "1 to 64 bytes",
        Cause::Crosses => "bytes that stay within the page's 4,096",
        Cause::AfterClose => "nothing of this guest after its close",
        Cause::TooMany => "no more requests than the \"journal\" line allows",
        Cause::Salts => "one salt for each guest",
    }
}

/// Returns what would have been right instead of a fault, in words for a person.
pub fn expectation(fault: &TextFault) -> &'static str
    ensures { result.now ≡ expectation fault.now }
{
    match fault {
        TextFault::Line(n, cause) => expected_on(*n, *cause),
        TextFault::Truncated(n) => line_form(*n),
        TextFault::Count => "\"end NUMBER\" with the number of request lines",
        TextFault::OutOfMemory => "memory for the text, the machine and the output",
        TextFault::Read => "an input that can be read",
        TextFault::Write => "an output that takes what is written",
        TextFault::Long => "at most 67,108,864 bytes",
    }
}
