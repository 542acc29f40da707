//! A domain that knows the fingerprints of its frames in use.
//!
//! `FingerprintDomain` is a domain beside the fingerprint of each frame that has a page. It lends, releases and leaves as the domain
//! does. Of a fingerprint it says whether a frame in use has it, however long ago the page was lent.
#![tactic(auto)]

mod beside;
mod domain;
mod frames;
pub mod laws;

pub use domain::FingerprintDomain;
