//! Where pages lie.
use crate::blocks::Blocks;
use crate::rooms::Rooms;
use std::alloc::Allocator;

/// Pages in blocks that were allocated for them, or in the rooms of a caller's region.
#[derive(Drop)]
pub(crate) enum Storage<A: Allocator> {
    Blocks(Blocks<A>),
    Rooms(Rooms),
}
