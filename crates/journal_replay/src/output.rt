//! Lines on their way to a writer, through a buffer that takes no memory once it is made.
ghost use Rattle.std.specs.Prelude.{◌≡◌, ◌+◌, ◌≤◌, ◌++◌, [], codes, false, string_bytes, string_len, string_capacity, IfOk, OnOk};
ghost use Rattle.page_model.specs.Parts.{Totals};
ghost use Rattle.journal_replay.specs.Ends.{Buffers};
ghost use Rattle.journal_text.specs.Printed.{verdict_line, report_line};

use crate::ends::{Sink, write_all};
use journal_text::print::{push_totals, push_verdict};
use page_model::{Report, Verdict};
use std::alloc::{AllocError, Allocator};
use text_words::TextFault;

/// How many bytes of output are kept before they are written.
const OUTPUT_BYTES: usize = 65_536;

/// No verdict or report line is longer, including its line feed.
pub const LINE_BYTES: usize = 160;

/// Makes an empty buffer with all its room.
pub fn buffer<A: Allocator>(alloc: A) -> Result<String<A>, AllocError>
    ensures bytes { IfOk result (λ out. string_bytes out ≡ []) }
    ensures room { IfOk result (λ out. LINE_BYTES ≤ string_capacity out) }
{
    String::with_capacity(alloc, OUTPUT_BYTES)
}

/// Writes what the buffer holds, if a longest line may not fit after it.
pub fn make_room<W: Sink, A: Allocator>(
    writer: &mut W,
    out: &mut String<A>,
) -> Result<(), TextFault>
    requires fine { W.has_failed writer.old ≡ false }
    requires room { LINE_BYTES ≤ string_capacity out.old }
    ensures buffers { Buffers (W.contents writer.old) (W.contents writer.new) (W.has_failed writer.new) (string_bytes out.new)
        (string_bytes out.old) (string_bytes out.old) result }
    ensures room { OnOk result (string_len out.new + LINE_BYTES ≤ string_capacity out.new) }
{
    if out.capacity() - out.len() < LINE_BYTES {
        write_all(writer, out.as_bytes())?;
        out.clear();
    }
    Ok(())
}

/// Appends a verdict's line, for which there is room.
pub fn put_verdict<A: Allocator>(out: &mut String<A>, guest: u8, verdict: &Verdict)
    requires { string_len out.old + LINE_BYTES ≤ string_capacity out.old }
    ensures bytes { string_bytes out.new ≡ string_bytes out.old ++ (verdict_line guest verdict.now ++ codes "\n") }
    ensures capacity { string_capacity out.old ≤ string_capacity out.new }
{
    push_verdict(out, guest, verdict).unwrap();
    out.push_str("\n").unwrap();
}

/// Appends a report's line, for which there is room.
pub fn put_report<A: Allocator>(out: &mut String<A>, report: &Report)
    requires { string_len out.old + LINE_BYTES ≤ string_capacity out.old }
    ensures { string_bytes out.new ≡ string_bytes out.old ++ (report_line report.now ++ codes "\n") }
{
    push_totals(out, "report ", report).unwrap();
    out.push_str("\n").unwrap();
}
