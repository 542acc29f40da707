//! A machine that is not settled yet.
use crate::merger::Merger;
use merge_settle::SettleFault;
use page_digest::PageHash;
use share_rings::ClosedPort;
use std::alloc::{Allocator, Global};

/// What could not be settled, unchanged, and why. Its merger can't be dropped, so neither can it.
pub struct Unsettled<H: PageHash, A: Allocator = Global> {
    pub merger: Merger<H, A>,
    pub ports: Vec<ClosedPort<A>, A>,
    pub fault: SettleFault,
}
