//! What looks have found.

/// Findings in a row that make a page idle: a glance and two reads that are alike, or three reads that are.
pub const STILL: u8 = 3;

/// Questions about a page that were in vain are counted up to this number.
pub const ASKS_MOST: u8 = 3;

/// A page that was asked about most often is asked about again at one look in so many, if the config has no number.
pub const TURNS: u64 = 8;

/// In a part that is whole, that is this many times rarer.
pub const WHOLE_TURNS: u64 = 2;

/// This many pages in a row are asked about in the same looks.
pub const TOGETHER: u32 = 64;

/// A part is calm if at most one in so many of its pages has changed.
pub const CALM_PART: u64 = 16;

/// An idle page that was asked about most often is read at one of so many of its turns, if glances find most changes.
pub const READ_EACH: u64 = 16;

/// The same if glances can't find changes, since its memory lies over a frame, and nothing has changed in its part.
pub const READ_EACH_OVER: u64 = 2;

/// A page of a whole part that was asked about before is noted at one of so many of its turns. At the others it is asked about in passing.
pub const PASSING_EACH: u64 = 4;

/// What looks have found of a page that has memory of its own.
#[derive(Clone, Copy, Debug, PartialEq, Eq)]
pub struct PageLooks {
    /// Its fingerprint when it was read last. If it wasn't read yet: any number, which says where glances look.
    pub fingerprint: u64,
    /// What the last glance at it found.
    pub clue: u16,
    /// Findings in a row that were alike, up to `STILL`. 0: the page is new, or its content was forgotten.
    pub looks: u8,
    /// How often it was asked about in vain. If it isn't idle: how often it has changed again. Up to `ASKS_MOST`.
    pub asks: u8,
}

/// How often pages and parts are looked at.
#[derive(Clone, Copy, Debug, PartialEq, Eq)]
pub struct LookConfig {
    /// A page that was asked about most often is asked about again at one look in so many; 0 counts as `TURNS`.
    pub turns: u16,
    /// The most idle pages that a look leaves out for each one that it takes.
    pub rest_most: u8,
}

/// What comes of a look at a page.
#[derive(Clone, Copy, Debug, PartialEq, Eq)]
pub enum Act {
    /// Nothing.
    Pass,
    /// The page is new, or has changed. It isn't read before it stays as it is.
    Meet,
    /// The fingerprint of the last read counts.
    Keep,
    /// The page is read.
    Read,
}

/// What a look does with a page, before any byte of it is read.
#[derive(Clone, Copy, Debug, PartialEq, Eq)]
pub struct Way {
    /// It glances at the page first. If the glance isn't the last one's, the page has changed.
    pub glances: bool,
    /// What comes of the look, if the glance is the last one's, or if there is none.
    pub act: Act,
}
