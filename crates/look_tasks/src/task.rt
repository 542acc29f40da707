//! The tasks of a look, and where a look is.

use crate::LookSteps;

/// As many pages are shared, or given back, together: as many as one message to a lender names.
pub const BATCH: u32 = 128;

/// What may not wait for a look's end is attended to again after so many nanoseconds.
pub const ATTEND_NS: u64 = 1_000_000_000;

/// The thread sleeps for so many nanoseconds at most at once.
pub const NAP_NS: u64 = 100_000_000;

/// What the thread does next.
#[derive(Clone, Copy, Debug, PartialEq, Eq)]
pub enum Task {
    /// Nothing: no look stands.
    Over,
    /// It sleeps for so many nanoseconds.
    Sleep(u64),
    /// It finds out whether anything can be looked at.
    Begin,
    /// It attends to what may not wait for the look's end.
    Attend,
    /// It releases slots, as many as one message names.
    Release,
    /// It goes to the first window, or to the next one.
    Window,
    /// It looks at a part for the first time in this look.
    Look(u32),
    /// It looks at a part again, for the pages that may be idle soon.
    Return(u32),
    /// It gives back pages in a row that are zeros.
    GiveBack,
    /// It asks the lender about the idle pages.
    Ask,
    /// It copies those that others have to the lender's buffer.
    Copy,
    /// It asks for loans of these.
    Lend,
    /// It shows frames in place of pages in a row that have a loan.
    Hold,
    /// It does what follows the last window.
    End,
}

/// Where a look is.
#[derive(Clone, Copy, Debug, PartialEq, Eq)]
pub enum Stage {
    /// No look stands.
    Rests,
    /// A look begins.
    Begins,
    /// The next window is to come.
    Windows,
    /// Parts of a window come.
    Parts,
    /// It is time to come back to a part.
    Returns,
    /// The look ends.
    Ends,
}

/// What is done next with the idle pages that were found.
#[derive(Clone, Copy, Debug, PartialEq, Eq)]
pub enum Sharing {
    /// More of them are gathered.
    Gathers,
    /// The lender has answered about them. Those that others have are to be copied.
    Copies,
    /// They were copied. Loans of them are to be asked for.
    Lends,
    /// They have loans, and are to show their frames.
    Holds,
}

/// What came of a task.
#[repr(C)]
#[derive(Clone, Copy, Debug, PartialEq, Eq)]
pub struct TaskOutcome {
    /// Of `Window`: the parts that the window has.
    pub parts: u32,
    /// The pages of zeros that were found, and aren't given back yet.
    pub zeros: u32,
    /// The idle pages that were found, and aren't shared yet.
    pub idle: u32,
    /// Of `Look` and `Return`: the pages of the part that may be idle soon.
    pub young: u32,
    /// Of `Look` and `Return`: the part rests.
    pub rests: bool,
    /// Of `Begin`: something can be looked at. Of `Attend`: the look goes on. Of `Release`: more slots may be to be released. Of `Window`:
    /// there is one. Of `Look` and `Return`: the window hasn't ended. Of `Ask`, `Copy` and `Lend`: pages are left for `Copy`, `Lend` or
    /// `Hold`. Of `Hold`: pages with a loan are left.
    pub goes_on: bool,
}

/// Where a look is, and what it has found. Any numbers are that: of a stage that there isn't no look stands, and of a sharing that there
/// isn't pages are gathered. So zeros stand for no look.
#[repr(C)]
#[derive(Clone, Copy)]
pub struct LookTasks {
    /// Where it is in the window under way.
    pub steps: LookSteps,
    /// When it is time to attend to what may not wait for the look's end.
    pub attend_ns: u64,
    /// The part that it comes back to.
    pub part: u32,
    /// The pages of zeros that aren't given back yet.
    pub zeros: u32,
    /// The idle pages that aren't shared yet.
    pub idle: u32,
    /// The number of its [`Stage`].
    pub stage: u8,
    /// The number of what is done next with the idle pages, a [`Sharing`].
    pub sharing: u8,
    /// Slots may be to be released.
    pub releases: bool,
}
