//! What a domain's handle holds.

use crate::begun::Begun;
use crate::hashed_domain::HashedDomain;
use recent_fingerprints::RecentFingerprints;

/// A domain, and the questions that it remembers.
#[derive(Drop)]
pub struct MadeDomain {
    pub domain: HashedDomain,
    pub recent: RecentFingerprints,
}

/// A domain, or one that was begun.
#[derive(Drop)]
pub enum Hosted {
    Begun(Begun),
    Made(MadeDomain),
}
