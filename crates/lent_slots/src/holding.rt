//! What slots hold.

/// An occupied slot: its client, and the frame that contains the page's bytes.
#[derive(Clone, Copy, Debug, PartialEq, Eq)]
pub struct Holding {
    /// The client's number.
    pub client: u32,
    /// The frame's number within this machine.
    pub frame: u32,
}

/// A page that was lent.
#[derive(Clone, Copy, Debug, PartialEq, Eq)]
pub struct PageLoan {
    /// Its slot.
    pub ppn: u32,
    /// The frame's number within this machine.
    pub frame: u32,
    /// How many slots have this frame now, this one included.
    pub sharers: u32,
}

/// The slots of a client, in brief.
#[derive(Clone, Copy, Debug, PartialEq, Eq)]
pub struct ClientSlots {
    /// How many slots it has.
    pub count: u32,
    /// A slot below which it has none.
    pub start: u32,
}
