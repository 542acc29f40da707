//! What is asked of pages in a row.

use window_pages::WindowFacts;

/// What is asked of pages in a row.
#[derive(Clone, Copy)]
pub enum Question {
    /// May a call of the monitor go on by them, of which this is so from then on? No write to any of them waits, and none that must have memory of
    /// its own shows a frame.
    GoOn(WindowFacts),
    /// May a call of the monitor go on that gives them up? No write to any of them waits.
    GiveUp,
    /// May the memory of each be exchanged for other memory? None is held, and nothing keeps one from being lent.
    Exchange,
    /// May zeros be mapped in their place? The system has mappings for them.
    TakeZeros,
    /// Are zeros to be mapped in their place, which are alike and are given up? Somebody else watches them (`true`), or nobody does.
    WantZeros(bool),
    /// Does a frame lie under the first of them?
    LieOver,
}
