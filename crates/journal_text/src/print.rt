//! Verdicts and reports as lines.
//!
//! Each `push_` function appends to a string, and says how many bytes it appends at most. So room that was reserved for a longest
//! line is always enough.
ghost use Rattle.std.specs.Prelude.{◌≡◌, ◌+◌, ◌*◌, ◌<◌, ◌≤◌, ◌++◌, ◌^◌, length};
ghost use Rattle.std.specs.Prelude.{codes, decimal, string_bytes, string_len, string_capacity, IfOk, OnOk, OnErr};
ghost use Rattle.hex.specs.Hex.{encode_lower};
ghost use Rattle.journal_text.specs.Printed.{pages_words, saved_words, frames_words, report_words};
ghost use Rattle.journal_text.specs.Printed.{report_line, verdict_words, verdict_line};
ghost use Rattle.page_model.specs.declared.limits.TheConstants.{MAX_ACCESS_BYTES};

use page_model::{Report, Verdict};
use std::alloc::{AllocError, Allocator};
use text_words::print::{push_counted, push_number};

/// Appends what a report says of pages: at most 54 bytes.
#[tactic(auto, unfolding(crate::specs::Printed::pages_words))]
fn push_pages<A: Allocator>(out: &mut String<A>, report: &Report) -> Result<(), AllocError>
    ensures bytes { OnOk result (string_bytes out.new ≡ string_bytes out.old ++ pages_words report.now) }
    ensures len { OnOk result (string_len out.new ≤ string_len out.old + 54) }
    ensures capacity { string_capacity out.old ≤ string_capacity out.new }
    ensures full { OnErr result (string_capacity out.old < string_len out.old + 54) }
{
    push_counted(out, "entries ", report.entries())?;
    push_counted(out, " mapped ", report.mapped())?;
    push_counted(out, " shared ", report.shared())
}

/// Appends what a report says of reclaimed frames and of hints: at most 38 bytes.
#[tactic(auto, unfolding(crate::specs::Printed::saved_words))]
fn push_saved<A: Allocator>(out: &mut String<A>, report: &Report) -> Result<(), AllocError>
    ensures bytes { OnOk result (string_bytes out.new ≡ string_bytes out.old ++ saved_words report.now) }
    ensures len { OnOk result (string_len out.new ≤ string_len out.old + 38) }
    ensures capacity { string_capacity out.old ≤ string_capacity out.new }
    ensures full { OnErr result (string_capacity out.old < string_len out.old + 38) }
{
    push_counted(out, " reclaimed ", report.reclaimed())?;
    push_counted(out, " hints ", report.hints())
}

/// Appends what a report says of frames and of hints: at most 56 bytes.
#[tactic(auto, unfolding(crate::specs::Printed::frames_words))]
fn push_frames<A: Allocator>(out: &mut String<A>, report: &Report) -> Result<(), AllocError>
    ensures bytes { OnOk result (string_bytes out.new ≡ string_bytes out.old ++ frames_words report.now) }
    ensures len { OnOk result (string_len out.new ≤ string_len out.old + 56) }
    ensures capacity { string_capacity out.old ≤ string_capacity out.new }
    ensures full { OnErr result (string_capacity out.old < string_len out.old + 56) }
{
    push_counted(out, " frames ", report.frames())?;
    push_saved(out, report)
}

/// Appends the words of a report: at most 110 bytes.
fn push_report<A: Allocator>(out: &mut String<A>, report: &Report) -> Result<(), AllocError>
    ensures bytes { OnOk result (string_bytes out.new ≡ string_bytes out.old ++ report_words report.now) }
    ensures len { OnOk result (string_len out.new ≤ string_len out.old + 110) }
    ensures capacity { string_capacity out.old ≤ string_capacity out.new }
    ensures full { OnErr result (string_capacity out.old < string_len out.old + 110) }
{
    push_pages(out, report)?;
    push_frames(out, report)
}

/// Appends the words of a report after a word of 7 bytes, such as `report ` or `totals `: at most 117 bytes.
pub fn push_totals<A: Allocator>(
    out: &mut String<A>,
    word: &str,
    report: &Report,
) -> Result<(), AllocError>
    requires { length word.now ≡ 7 }
    ensures bytes { OnOk result (string_bytes out.new ≡ string_bytes out.old ++ (word.now ++ report_words report.now)) }
    ensures len { OnOk result (string_len out.new ≤ string_len out.old + 117) }
    ensures capacity { string_capacity out.old ≤ string_capacity out.new }
    ensures full { OnErr result (string_capacity out.old < string_len out.old + 117) }
{
    out.push_str(word)?;
    push_report(out, report)
}

/// Writes the digits of bytes, two for each.
fn spell(bytes: &[u8], digits: &mut [u8])
    requires { length digits.old ≡ 2 * length bytes.now }
    ensures { digits.new ≡ encode_lower bytes.now }
{
    let _ = hex::encode_to_slice(bytes, digits);
}

/// Appends the digits of at most 64 bytes: at most 128 bytes.
pub(crate) fn push_digits<A: Allocator>(out: &mut String<A>, bytes: &[u8]) -> Result<(), AllocError>
    requires { length bytes.now ≤ MAX_ACCESS_BYTES }
    ensures bytes { OnOk result (string_bytes out.new ≡ string_bytes out.old ++ encode_lower bytes.now) }
    ensures len { OnOk result (string_len out.new ≤ string_len out.old + 128) }
    ensures capacity { string_capacity out.old ≤ string_capacity out.new }
    ensures full { OnErr result (string_capacity out.old < string_len out.old + 128) }
{
    let mut room = [0; 128];
    let digits = &mut room[..2 * bytes.len()];
    spell(bytes, digits);
    match str::from_utf8(digits) {
        Ok(text) => out.push_str(text),
        Err(_) => unreachable!(),
    }
}

/// Appends the bytes of a load, after a space: at most 135 bytes.
fn push_loaded<A: Allocator>(out: &mut String<A>, bytes: &[u8]) -> Result<(), AllocError>
    requires { length bytes.now ≤ MAX_ACCESS_BYTES }
    ensures bytes { OnOk result (string_bytes out.new ≡ string_bytes out.old ++ (codes " bytes " ++ encode_lower bytes.now)) }
    ensures len { OnOk result (string_len out.new ≤ string_len out.old + 135) }
    ensures capacity { string_capacity out.old ≤ string_capacity out.new }
    ensures full { OnErr result (string_capacity out.old < string_len out.old + 135) }
{
    out.push_str(" bytes ")?;
    push_digits(out, bytes)
}

/// Appends the counts that a guest asked for, after a space: at most 118 bytes.
fn push_counts<A: Allocator>(out: &mut String<A>, report: &Report) -> Result<(), AllocError>
    ensures bytes { OnOk result (string_bytes out.new ≡ string_bytes out.old ++ (codes " totals " ++ report_words report.now)) }
    ensures len { OnOk result (string_len out.new ≤ string_len out.old + 118) }
    ensures capacity { string_capacity out.old ≤ string_capacity out.new }
    ensures full { OnErr result (string_capacity out.old < string_len out.old + 118) }
{
    out.push_str(" totals ")?;
    push_report(out, report)
}

/// Appends a space and the words of a verdict: at most 135 bytes.
#[tactic(auto, unfolding(crate::specs::Printed::verdict_words))]
fn push_words<A: Allocator>(out: &mut String<A>, verdict: &Verdict) -> Result<(), AllocError>
    ensures bytes { OnOk result (string_bytes out.new ≡ string_bytes out.old ++ (codes " " ++ verdict_words verdict.now)) }
    ensures len { OnOk result (string_len out.new ≤ string_len out.old + 135) }
    ensures capacity { string_capacity out.old ≤ string_capacity out.new }
    ensures full { OnErr result (string_capacity out.old < string_len out.old + 135) }
{
    match verdict {
        Verdict::NoPage => out.push_str(" no-page"),
        Verdict::Unmapped => out.push_str(" unmapped"),
        Verdict::Already => out.push_str(" already"),
        Verdict::Joined(n) => push_counted(out, " joined ", *n),
        Verdict::Paired => out.push_str(" paired"),
        Verdict::Hinted => out.push_str(" hinted"),
        Verdict::Kept => out.push_str(" kept"),
        Verdict::Replaced => out.push_str(" replaced"),
        Verdict::Ineligible => out.push_str(" ineligible"),
        Verdict::Mapped => out.push_str(" mapped"),
        Verdict::Stored => out.push_str(" stored"),
        Verdict::Copied => out.push_str(" copied"),
        Verdict::Taken => out.push_str(" taken"),
        Verdict::NoFrame => out.push_str(" no-frame"),
        Verdict::Bytes(bytes) => push_loaded(out, bytes.as_slice()),
        Verdict::Released(true) => out.push_str(" released freed"),
        Verdict::Released(false) => out.push_str(" released held"),
        Verdict::Totals(report) => push_counts(out, report),
        Verdict::Closed => out.push_str(" closed"),
    }
}

/// Appends a verdict's line, without its line feed: at most 145 bytes.
pub fn push_verdict<A: Allocator>(
    out: &mut String<A>,
    guest: u8,
    verdict: &Verdict,
) -> Result<(), AllocError>
    ensures bytes { OnOk result (string_bytes out.new ≡ string_bytes out.old ++ verdict_line guest verdict.now) }
    ensures len { OnOk result (string_len out.new ≤ string_len out.old + 145) }
    ensures capacity { string_capacity out.old ≤ string_capacity out.new }
    ensures full { OnErr result (string_capacity out.old < string_len out.old + 145) }
{
    push_number(out, u32::from(guest))?;
    push_words(out, verdict)
}

/// Returns a verdict's line: the guest's number and the verdict's words, without a line feed.
pub fn verdict_line<A: Allocator>(
    alloc: A,
    guest: u8,
    verdict: &Verdict,
) -> Result<String<A>, AllocError>
    ensures { IfOk result (λ s. string_bytes s ≡ verdict_line guest verdict.now) }
{
    let mut line = String::new(alloc);
    push_verdict(&mut line, guest, verdict)?;
    Ok(line)
}

/// Returns a report's line, without a line feed.
pub fn report_line<A: Allocator>(alloc: A, report: &Report) -> Result<String<A>, AllocError>
    ensures { IfOk result (λ s. string_bytes s ≡ report_line report.now) }
{
    let mut line = String::new(alloc);
    push_totals(&mut line, "report ", report)?;
    Ok(line)
}
