//! The hash of a page: a number of 64 bits, by which equal pages are found.
//!
//! Nothing is assumed about collisions: pages are compared in full before they share a frame.
#![tactic(auto)]

mod content;
mod fold_hash;
mod many;
mod message;
mod page_hash;
mod part;
mod sha256;
mod short;
mod wide_sha256;
mod workers;

pub use content::{digest_content, digest_four_contents};
pub use fold_hash::FoldHash;
pub use many::{HashFault, hash_many};
pub use page_hash::PageHash;
pub use sha256::Sha256Hash;
pub use short::{FirstByteHash, TwoByteHash};
pub use wide_sha256::WideSha256Hash;
