//! What the table and the object show.
use crate::hosts::HostRows;
use crate::rows::{ClassRow, GuestRow, TotalRow};
use std::alloc::{Allocator, Global};

/// Of what the pages were counted.
#[derive(Clone, Copy)]
pub(crate) enum Source {
    /// Images of memory, by an estimate.
    Images,
    /// Digests, which a fleet merges.
    Digests,
}

/// A sample of the contents, of which not all were kept.
#[derive(Clone, Copy)]
pub(crate) struct Sampling {
    /// Of how many contents one was kept, besides that of zeros.
    pub(crate) sample: u32,
    /// How many contents were kept.
    pub(crate) kept: u64,
}

/// The numbers of guests, of hosts, of all guests in total, and of contents by their copies. All are known, or most are estimates with
/// standard errors.
#[derive(Drop)]
pub struct Report<'a, A: Allocator = Global> {
    pub(crate) source: Source,
    /// None if all contents were kept.
    pub(crate) sampling: Option<Sampling>,
    pub(crate) guests: Vec<GuestRow<'a>, A>,
    /// None if the numbers aren't shown by host.
    pub(crate) hosts: Option<HostRows<'a, A>>,
    pub(crate) total: TotalRow,
    pub(crate) copies: Vec<ClassRow, A>,
}
