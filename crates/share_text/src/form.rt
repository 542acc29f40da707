//! What is written of a run.

/// What is written of a run of a script.
#[derive(Clone, Copy, Debug, PartialEq, Eq)]
pub enum Output {
    /// Each guest's verdict lines, in the order in which it got them, guest 0's first, and then the report line.
    Verdicts,
    /// The journal's text, which `replay` reads.
    JournalText,
}
