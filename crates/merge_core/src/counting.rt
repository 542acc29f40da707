//! How far a machine counts.

/// How many requests a machine counts, until [`Core::restart_count`](crate::Core::restart_count) restarts its count.
pub const MAX_REQUESTS: u32 = u32::MAX;
