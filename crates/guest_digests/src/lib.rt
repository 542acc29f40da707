//! The digests of a guest's pages, as a counted list.
//!
//! A digest takes the place of a page's content where memory is compared across hosts. Pages are read once and not kept.
#![tactic(auto)]

mod count;
mod digests;
mod hashed;
mod laws;
mod line;
mod sample;
mod sampling;

pub use digests::{GuestDigests, digest_pages};
pub use laws::limits_law;
pub use line::DigestLine;
pub use sample::Sample;
pub use sampling::Sampling;
