//! What becomes of pages in a row, as it is noted.

use window_pages::WindowFacts;

/// What has become of pages in a row.
#[derive(Clone, Copy)]
pub enum Notice {
    /// Frames in a row were mapped at their places. The first one has this number.
    Covered(u32),
    /// Memory of their own was mapped at their places.
    Uncovered,
    /// Memory of their own was moved there, all at once.
    MovedThere,
    /// Zeros were mapped there. The system let be said of them what is said of the window, or it refused that.
    ZerosMapped(bool),
    /// They were unmapped, or something else was mapped in their place.
    Unmapped,
    /// Their lender is gone.
    Detached,
    /// Memory with what they contained was moved there, all at once.
    OneMemory,
    /// Their content was given up.
    GivenUp,
    /// They have left their window, with what they contain.
    Left,
    /// Other memory was moved to their places.
    MovedHome,
    /// They got a copy of their own where they are.
    CopiedHome,
    /// They keep what lies at their places: those that were to get memory of their own were refused that.
    RefusedHome,
    /// They must have memory of their own if they show their frames, by what is so of the window, the process and their pins, and by this besides.
    CalledHome(WindowFacts),
}
