//! What a table knows about its frames.

/// A page for which a key was noted, and the frame that it had then.
#[derive(Clone, Copy, Debug, PartialEq, Eq)]
pub struct HintFrame {
    /// The guest's number.
    pub guest: u8,
    /// The page's number within the guest.
    pub ppn: u32,
    /// The frame's number within the machine.
    pub mpn: u32,
}

// The entry of a shared frame. Its field is the number of its pages, or `EXTENDED`.
#[derive(Clone, Copy)]
pub(crate) struct SharedEntry {
    pub(crate) hash: u64,
    pub(crate) mpn: u32,
    pub(crate) field: u16,
}

// The field of an entry whose count doesn't fit in it, and is in the overflow table.
pub(crate) const EXTENDED: u16 = 0;

// A count above 65,535.
#[derive(Clone, Copy, Default)]
pub(crate) struct WideCount {
    pub(crate) hash: u64,
    pub(crate) count: u32,
}
