//! Slots and loans of a domain.

/// A slot: a page of one of a domain's machines, by the machine's number and the page's.
#[derive(Clone, Copy, Debug, PartialEq, Eq)]
pub struct Slot {
    pub machine: u32,
    pub ppn: u32,
}

/// What became of a page that was lent.
#[derive(Clone, Copy, Debug, PartialEq, Eq)]
pub struct Loan {
    /// The page's slot. It is the client's until the client releases it or leaves.
    pub slot: Slot,
    /// The frame that holds the page's bytes, by its number among the frames of all machines.
    pub frame: u32,
    /// How many slots have this frame, with this one.
    pub sharers: u32,
}
