//! Numbers, and faults as lines.
ghost use Rattle.std.specs.Prelude.{◌≡◌, ◌+◌, ◌<◌, ◌≤◌, ◌++◌, length};
ghost use Rattle.std.specs.Prelude.{decimal, string_bytes, string_len, string_capacity, IfOk, OnOk, OnErr};
ghost use Rattle.text_words.specs.Printed.{cause_word, fault_line};

use crate::fault::{Cause, TextFault};
use itoa::Buffer;
use std::alloc::{AllocError, Allocator};

/// Appends a number: at most 10 bytes.
pub fn push_number<A: Allocator>(out: &mut String<A>, n: u32) -> Result<(), AllocError>
    ensures bytes { OnOk result (string_bytes out.new ≡ string_bytes out.old ++ decimal n) }
    ensures len { OnOk result (string_len out.new ≤ string_len out.old + 10) }
    ensures capacity { string_capacity out.old ≤ string_capacity out.new }
    ensures full { OnErr result (string_capacity out.old < string_len out.old + 10) }
{
    let mut buffer = Buffer::new();
    out.push_str(buffer.format(n))
}

/// Appends words and a number.
pub fn push_counted<A: Allocator>(
    out: &mut String<A>,
    words: &str,
    n: u32,
) -> Result<(), AllocError>
    ensures bytes { OnOk result (string_bytes out.new ≡ string_bytes out.old ++ (words.now ++ decimal n)) }
    ensures len { OnOk result (string_len out.new ≤ string_len out.old + (length words.now + 10)) }
    ensures capacity { string_capacity out.old ≤ string_capacity out.new }
    ensures full { OnErr result (string_capacity out.old < string_len out.old + (length words.now + 10)) }
{
    out.push_str(words)?;
    push_number(out, n)
}

fn cause_word(cause: &Cause) -> &'static str
    ensures { result.now ≡ cause_word cause.now }
{
    match cause {
        Cause::Header => "header",
        Cause::Form => "form",
        Cause::Frames => "frames",
        Cause::Guests => "guests",
        Cause::Pages => "pages",
        Cause::Ring => "ring",
        Cause::Journal => "journal",
        Cause::NoGuest => "no-guest",
        Cause::Length => "length",
        Cause::Crosses => "crosses",
        Cause::AfterClose => "after-close",
        Cause::TooMany => "too-many",
        Cause::Salts => "salts",
    }
}

/// Appends a fault's line, without its line feed.
#[tactic(auto, unfolding(crate::specs::Printed::fault_line))]
fn push_fault<A: Allocator>(out: &mut String<A>, fault: &TextFault) -> Result<(), AllocError>
    ensures { OnOk result (string_bytes out.new ≡ string_bytes out.old ++ fault_line fault.now) }
{
    match fault {
        TextFault::Line(n, cause) => {
            push_counted(out, "fault line ", *n)?;
            out.push_str(": ")?;
            out.push_str(cause_word(cause))
        }
        TextFault::Truncated(n) => push_counted(out, "fault truncated line ", *n),
        TextFault::Count => out.push_str("fault count"),
        TextFault::OutOfMemory => out.push_str("fault memory"),
        TextFault::Read => out.push_str("fault read"),
        TextFault::Write => out.push_str("fault write"),
        TextFault::Long => out.push_str("fault long"),
    }
}

/// Returns a fault's line, without a line feed.
pub fn fault_line<A: Allocator>(alloc: A, fault: &TextFault) -> Result<String<A>, AllocError>
    ensures { IfOk result (λ s. string_bytes s ≡ fault_line fault.now) }
{
    let mut line = String::new(alloc);
    push_fault(&mut line, fault)?;
    Ok(line)
}
