//! What is known of a page.

use page_lender::Belief;

/// What is known of a page, in 12 bytes. A struct of zeros is a page of which nothing is lent and nothing is known.
#[repr(C)]
#[derive(Clone, Copy)]
pub struct WindowPage {
    /// The slot of its loan; while it has no slot, the lower half of the fingerprint in its notes.
    pub slot: u32,
    /// The frame of its loan; while it has no slot, the upper half of that fingerprint.
    pub frame: u32,
    /// The clue in its notes, and 32,768 if it was seen elsewhere.
    pub clue: u16,
    /// The number of what is believed of it. And 32 if a frame lies under it, 64 if that is of the past, 128 if the page is out.
    pub belief: u8,
    /// 1 if an order is open, 2 if it is the same, 4 if it was moved, 8 if it begins. And 16 times the looks, and 64 times the questions in its
    /// notes.
    pub looks: u8,
}

/// What is known of a page, apart from what looks have found.
#[derive(Clone, Copy, Debug, PartialEq, Eq)]
pub struct KnownPage {
    /// What its lender believes.
    pub belief: Belief,
    /// Whether an order was given of which nothing is known yet.
    pub ordered: bool,
    /// A frame is mapped at its place. The page is that frame, or a private copy of it.
    pub over: bool,
    /// That frame is of a lender that is gone.
    pub past: bool,
    /// It has left its window.
    pub out: bool,
    /// Nobody has written to it since it was given back as zeros; or, if a frame lies under it, since the frame's lender is gone.
    pub same: bool,
    /// Its memory was moved to its place.
    pub moved: bool,
    /// It is the first page of what was moved.
    pub begins: bool,
}

/// What looks have found of a page.
#[derive(Clone, Copy, Debug, PartialEq, Eq)]
pub struct PageNotes {
    /// Its fingerprint at the last read.
    pub fingerprint: u64,
    /// Some bits of the number of the frame that lies under it, or of the last glance.
    pub clue: u16,
    /// Looks that found it the same.
    pub looks: u8,
    /// Questions about it that were in vain.
    pub asks: u8,
    /// It was seen elsewhere, or is zeros, and counts as one that could be shared.
    pub seen: bool,
}
