//! What a lender orders, and what comes of it.

use crate::Target;

/// What is to be done with a page, by those who make system calls and talk to the host.
#[derive(Clone, Copy, Debug, PartialEq, Eq)]
pub enum Order {
    /// Nothing.
    Wait,
    /// Copy it to the buffer, while its guest may write.
    Copy,
    /// Ask the host for a loan of what is in the buffer.
    Lend,
    /// Let writes wait, since it may equal this.
    Hold(Target),
    /// Compare it with this.
    Compare(Target),
    /// Show this in its place, and let writes wait no longer: map the frame, or give its memory back to the system, which leaves zeros.
    Map(Target),
    /// Let writes wait no longer: it keeps its memory.
    LetGo(Target),
    /// Give it a copy of its own of what it shows: where it is, if true, since a device may hold its memory; else it may get other memory.
    TakeHome(bool),
    /// Say to the host that this slot isn't needed.
    Release(u32),
}

/// What came of an order.
#[derive(Clone, Copy, Debug, PartialEq, Eq)]
pub enum Outcome {
    /// It was done. Of a comparison: they are equal.
    Done,
    /// The host gave this slot with this frame.
    Lent(u32, u32),
    /// It wasn't done, and nothing changed. Of a comparison: they differ.
    Refused,
    /// Whether it was done isn't known. Of a loan and of a release it is: without an answer the order stays open.
    Unknown,
}

/// What a lender hears of a page between two orders that touch it.
#[derive(Clone, Copy, Debug, PartialEq, Eq)]
pub enum Notice {
    /// A copy over its frame was found: somebody wrote to it.
    Written,
    /// It was given up: zeros were mapped in its place.
    Discarded,
}
