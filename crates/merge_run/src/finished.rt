//! What a run returns.
use merge_settle::Settled;
use page_digest::PageHash;
use page_model::Verdict;
use std::alloc::{Allocator, Global};

/// A run whose guests have all ended.
#[derive(Drop)]
pub struct Finished<H: PageHash, A: Allocator = Global> {
    /// The machine, with all its ports.
    pub settled: Settled<H, A>,
    /// Each guest's verdicts in the order in which they came, guest 0's list first.
    pub verdicts: Vec<Vec<Verdict, A>, A>,
}
