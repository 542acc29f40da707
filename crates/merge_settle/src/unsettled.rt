//! A machine that is not settled yet.
use merge_machine::Merger;
use page_digest::PageHash;
use share_rings::ClosedPort;
use std::alloc::{Allocator, Global};
use thiserror::Error;

/// Why a machine is not settled, in the order in which the causes are checked.
#[derive(Clone, Copy, Debug, PartialEq, Eq, Error)]
pub enum SettleFault {
    /// The merger has not answered this guest's close, but has answered that of each guest with a lower number.
    #[error("the close of guest {0} is not answered")]
    Running(u8),
    /// This guest has not received its `Closed`, but each guest with a lower number has.
    #[error("guest {0} has not got its last verdict")]
    Undrained(u8),
}

/// What could not be settled, unchanged, and why.
#[derive(Drop)]
pub struct Unsettled<H: PageHash, A: Allocator = Global> {
    pub merger: Merger<H, A>,
    pub ports: Vec<ClosedPort<A>, A>,
    pub fault: SettleFault,
}
