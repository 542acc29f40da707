//! What keeps a page from being lent.

/// What keeps a page from being lent, each as long as it lasts.
#[derive(Clone, Copy, Debug, PartialEq, Eq)]
pub struct Bars {
    /// A call of the monitor changes it just now, for example gives it up.
    pub called: bool,
    /// A device may hold its memory.
    pub pinned: bool,
    /// A child of a fork would have it.
    pub inherited: bool,
    /// Its memory is locked.
    pub locked: bool,
    /// It has left its window, with or without a copy over a frame. This never ends.
    pub left: bool,
    /// Lending has ended.
    pub ended: bool,
}
