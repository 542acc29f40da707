//! What is so of a page, its window and its process.

/// What is so of a page, its window and its process, as far as it keeps the page from being lent.
#[repr(C)]
#[derive(Clone, Copy)]
pub struct WindowFacts {
    /// A call of the monitor changes the page just now.
    pub called: bool,
    /// A device may hold its memory.
    pub pinned: bool,
    /// Devices may hold memory of any page, for all that is known.
    pub may_pin: bool,
    /// A child of a fork would have it.
    pub inherited: bool,
    /// Its memory is locked.
    pub locked: bool,
    /// It is about to leave its window.
    pub leaves: bool,
    /// Lending has ended.
    pub ended: bool,
}
