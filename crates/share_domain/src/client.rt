//! Clients.

/// Where a client's number is in its life.
#[derive(Clone, Copy, Debug, PartialEq, Eq)]
pub enum Presence {
    /// No client has the number.
    Out,
    /// The client with the number may lend pages.
    In,
    /// The client with the number has begun to leave, and may still have slots.
    Leaving,
}
