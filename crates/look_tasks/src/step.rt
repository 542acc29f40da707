//! Where a look is.

/// A look comes back to a part that rests if at least so many of its pages may be idle soon.
pub const MANY_YOUNG: u32 = 12;

/// It comes back after so many nanoseconds.
pub const RETURN_NS: u64 = 1_000_000_000;

/// It comes back to so many parts at a time.
pub const RETURNS_MOST: usize = 64;

/// A part that a look comes back to.
#[repr(C)]
#[derive(Clone, Copy, Debug, PartialEq, Eq)]
pub struct PartReturn {
    /// The part's number.
    pub part: u32,
    /// When it is time, by the clock whose readings `next` takes.
    pub due_ns: u64,
}

/// Where a look at a window is.
#[repr(C)]
#[derive(Clone, Copy)]
pub struct LookSteps {
    /// The window has so many parts.
    pub parts: u32,
    /// The part that comes next.
    pub next_part: u32,
    /// How many places of `returns` are used. More than there are count as all.
    pub count: u32,
    /// The parts that it comes back to, the one that was added first at the first place.
    pub returns: [PartReturn; RETURNS_MOST],
}

/// What comes next.
#[derive(Clone, Copy, Debug, PartialEq, Eq)]
pub enum Step {
    /// The look comes to this part.
    Look(u32),
    /// It comes back to this part.
    Return(u32),
    /// It has come to all parts, and it isn't time to come back to one.
    Over,
}
