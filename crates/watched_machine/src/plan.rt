//! What is run.
use merge_machine::Config;
use page_digest::PageHash;
use page_model::Request;
use std::alloc::Allocator;

/// A machine's numbers and hash, the scripts of its guests, and the gate that their threads call.
#[derive(Drop)]
pub(crate) struct Plan<'p, H: PageHash + Drop, A: Allocator, G> {
    pub(crate) config: &'p Config<A>,
    pub(crate) hash: H,
    pub(crate) scripts: Vec<Vec<Request, A>, A>,
    pub(crate) gate: &'p G,
}
