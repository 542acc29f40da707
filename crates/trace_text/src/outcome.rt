//! How the play of a trace ends.

/// How the play of a trace ends. Steps are counted from 0.
#[derive(Clone, Copy, Debug, PartialEq, Eq)]
pub enum Outcome {
    /// All events were possible, and each page showed what the trace claims. Contains the number of events, then that of the
    /// pages.
    Right(usize, usize),
    /// The event at step `.0` isn't possible.
    NotPossible(usize),
    /// At step `.0` page `.1` shows `.2`, but the trace claims `.3`.
    Differs(usize, u32, u64, u64),
    /// At step `.0` the trace claims what page `.1` shows, but there is no such page.
    NoPage(usize, u32),
}
