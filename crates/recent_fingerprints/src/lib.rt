//! Which fingerprints were asked about lately.
//!
//! A host that shares memory between virtual machines asks first and lends later. A page is lent only if another page with its
//! fingerprint was asked about lately, or a frame in use has this fingerprint. `RecentFingerprints` contains the last notes, as
//! many as it has places. [`ask`](RecentFingerprints::ask) makes one, and no other call does.
#![tactic(auto)]

mod buckets;
mod chain;
mod halves;
mod laws;
mod limits;
mod note;
mod recent;

pub use buckets::{Buckets, bucket_count};
pub use laws::limits_law;
pub use limits::MAX_PLACES;
pub use note::{Note, PageName};
pub use recent::RecentFingerprints;
