//! A range of pages that was offered.

/// A range of pages that a monitor has offered, or a part of one that is left. A page has the number of its address: the address
/// divided by the size of a page.
#[repr(C)]
#[derive(Clone, Copy, Debug, PartialEq, Eq)]
pub struct OfferedRange {
    /// Its first page.
    pub begin: u64,
    /// The page behind its last one.
    pub end: u64,
    /// The window that it is, or is a part of; 0: it isn't one yet.
    pub window: u64,
    /// The first page of that window.
    pub base: u64,
    /// When something was said of it last, in nanoseconds.
    pub said: u64,
}
