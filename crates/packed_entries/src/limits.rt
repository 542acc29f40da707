//! How many entries there are at most.

/// The largest capacity of chains: one entry for each frame of the largest machine.
pub const MAX_ENTRIES: usize = 1_048_576;
