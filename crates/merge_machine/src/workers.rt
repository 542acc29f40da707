//! The workers that compute the hashes of a round.
use std::alloc::Allocator;

/// How many workers compute hashes, the runtime that starts their threads, and the allocator of their lists.
#[derive(Drop)]
pub(crate) struct Workers<'a, R, B: Allocator> {
    pub(crate) rt: &'a R,
    pub(crate) alloc: B,
    pub(crate) count: u32,
}
