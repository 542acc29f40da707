//! What a look at a page is, and what is done next.

use crate::idle::LookConfig;
use crate::parts::Part;

/// What memory the system has for a page, for all that a look has seen.
#[derive(Clone, Copy, Debug, PartialEq, Eq)]
pub enum Memory {
    /// The page has none of its own.
    Missing,
    /// It has memory of its own.
    Present,
    /// It has some, and that is swapped out.
    Swapped,
}

/// A look at a page.
#[derive(Clone, Copy, Debug, PartialEq, Eq)]
pub struct Sight {
    /// How often pages are looked at.
    pub config: LookConfig,
    /// What looks have found of the page's part.
    pub part: Part,
    /// The number of the look.
    pub look: u32,
    /// The number of the page in its window.
    pub number: u32,
    /// The fingerprint of a page of zeros.
    pub zeros: u64,
}

/// What is done next with a page at which a look has come.
#[derive(Clone, Copy, Debug, PartialEq, Eq)]
pub enum FindStep {
    /// Nothing. Nothing was found.
    Over,
    /// The system is asked once more whether the page has memory of its own.
    FindCopy,
    /// The look glances at the page, where `PageLooks::glanced_by` says.
    Glance,
    /// The page is read: its fingerprint is taken, and a glance by that.
    Read,
    /// It is zeros in a part that is whole. So it stays, and counts as one that could be shared.
    Count,
    /// Nothing. The page is idle, and its fingerprint is in its notes.
    Idle,
    /// Nothing. The page is idle, and it is zeros.
    Zeros,
}

/// What came of a step.
#[repr(C)]
#[derive(Clone, Copy, Debug, PartialEq, Eq)]
pub struct FindOutcome {
    /// The fingerprint, if the page was read.
    pub fingerprint: u64,
    /// What a glance found. If the page was read, the glance by that fingerprint.
    pub glance: u16,
    /// Whether the page has memory of its own, if the system was asked once more.
    pub is_own: bool,
}
