//! Parts of a window that one huge page could hold.

/// How many pages a part has.
pub const PART_PAGES: u32 = 512;

/// A part of a window: the pages that one huge page could hold, as looks have left it.
#[repr(C)]
#[derive(Clone, Copy, Debug, PartialEq, Eq)]
pub struct Part {
    /// It is left to the system's huge pages: nothing of it is lent. Otherwise it is split.
    pub whole: bool,
    /// Looks at it until it may change again.
    pub pause: u8,
    /// Looks in a row that found next to nothing shared in it.
    pub alone: u8,
    /// Idle pages that a look leaves out for each one that it takes, since next to nothing changes there.
    pub rest: u8,
    /// Looks until they may be more.
    pub left: u8,
    /// Nothing at all had changed there at the last look.
    pub is_still: bool,
    /// It was a huge page at the last look.
    pub is_huge: bool,
    /// Pages that had memory of their own at the last look.
    pub own: u32,
}

/// When parts are split, and when they are made whole.
#[repr(C)]
#[derive(Clone, Copy, Debug, PartialEq, Eq)]
pub struct PartConfig {
    /// Pages that could be shared for which a huge page is split.
    pub huge_from: u32,
    /// Next to nothing is less than a so-many-th of `huge_from`.
    pub alone_part: u32,
    /// Looks in a row that find next to nothing shared in a split part, until it is made whole.
    pub alone: u8,
    /// Looks at a part until it may change again, so that none goes to and fro.
    pub pause: u8,
}

/// What a look found of a part.
#[repr(C)]
#[derive(Clone, Copy, Debug, PartialEq, Eq)]
pub struct PartLook {
    /// Pages with memory of their own.
    pub own: u32,
    /// Of a whole part: pages that are zeros or were seen elsewhere.
    pub shareable: u32,
    /// It is a huge page.
    pub is_huge: bool,
    /// The system may back it by a huge page.
    pub may_be_huge: bool,
    /// Its pages may be lent.
    pub may_lend: bool,
    /// The system has mappings for all of its pages.
    pub has_mappings: bool,
    /// A device may have pinned a page of it, for all that is known.
    pub may_pin: bool,
    /// None of its pages is held.
    pub is_loose: bool,
    /// Besides, nothing keeps one of them from being lent.
    pub is_movable: bool,
}

/// What is to be done with a part.
#[derive(Clone, Copy, Debug, PartialEq, Eq)]
pub enum PartOrder {
    /// Nothing.
    Stay,
    /// Keep huge pages away from it, so that pages of it can be lent.
    Split,
    /// Copy it to a huge page, and put that in its place.
    MakeWhole,
}
