//! Which pages of a process a device may hold: those of transfers that are under way, and those that were pinned.
mod counts;
pub mod laws;
mod transfers;

pub use counts::{PINS_MOST, pin, unpin};
pub use transfers::{Transfer, begin, end};
