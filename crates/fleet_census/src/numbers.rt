//! What a merge counts.
use crate::{FleetClass, FleetGuest, FleetPair, FleetTotal};
use std::alloc::Allocator;

/// What is counted of the guests whose digests were merged.
#[derive(Drop)]
pub struct FleetNumbers<A: Allocator> {
    /// Of how many contents one is kept, besides that of zeros; 1 if no digest has a line.
    pub sample: u32,
    /// The numbers of each guest.
    pub guests: Vec<FleetGuest, A>,
    /// The numbers in total.
    pub total: FleetTotal,
    /// How many contents have 1 copy, 2, 3 to 4, 5 to 8, and so on in powers of two: only the classes that have contents,
    /// rising.
    pub copies: Vec<FleetClass, A>,
    /// For each guest what it has in common with each guest before it, in their order; no rows if pairs weren't counted.
    pub pairs: Vec<Vec<FleetPair, A>, A>,
}
