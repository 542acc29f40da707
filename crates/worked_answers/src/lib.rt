//! Verdicts and reports as plain values, which tests compare.
//!
//! A `Verdict` holds bytes, so a list of verdicts has something to drop wherever a test may end, and that makes the test dear
//! to prove. An `Answer` is as good for comparing, and has nothing to drop. No function here has a clause, since tests look at
//! what they return.
#![tactic(auto)]

use page_model::{Report, Verdict};

/// A verdict, but for the bytes of a load of several.
#[derive(Clone, Copy, PartialEq, Eq)]
pub enum Answer {
    NoPage,
    Unmapped,
    Already,
    Joined(u32),
    Paired,
    Hinted,
    Kept,
    Replaced,
    Ineligible,
    Mapped,
    Stored,
    Copied,
    Taken,
    NoFrame,
    /// The byte of a load of one.
    Byte(u8),
    /// The bytes of a longer load.
    Bytes,
    Released(bool),
    /// The numbers of the report.
    Totals([u32; 6]),
    Closed,
}

/// Returns a verdict as an answer.
pub fn answer_of(verdict: &Verdict) -> Answer {
    match verdict {
        Verdict::NoPage => Answer::NoPage,
        Verdict::Unmapped => Answer::Unmapped,
        Verdict::Already => Answer::Already,
        Verdict::Joined(pages) => Answer::Joined(*pages),
        Verdict::Paired => Answer::Paired,
        Verdict::Hinted => Answer::Hinted,
        Verdict::Kept => Answer::Kept,
        Verdict::Replaced => Answer::Replaced,
        Verdict::Ineligible => Answer::Ineligible,
        Verdict::Mapped => Answer::Mapped,
        Verdict::Stored => Answer::Stored,
        Verdict::Copied => Answer::Copied,
        Verdict::Taken => Answer::Taken,
        Verdict::NoFrame => Answer::NoFrame,
        Verdict::Bytes(bytes) => loaded(bytes),
        Verdict::Released(is_free) => Answer::Released(*is_free),
        Verdict::Totals(report) => Answer::Totals(numbers(report)),
        Verdict::Closed => Answer::Closed,
    }
}

fn loaded(bytes: &[u8]) -> Answer {
    match bytes {
        [byte] => Answer::Byte(*byte),
        _ => Answer::Bytes,
    }
}

/// Returns the numbers of a report: entries, mapped, shared, frames, reclaimed, hints.
pub fn numbers(report: &Report) -> [u32; 6] {
    [
        report.entries(),
        report.mapped(),
        report.shared(),
        report.frames(),
        report.reclaimed(),
        report.hints(),
    ]
}
