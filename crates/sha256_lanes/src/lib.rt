//! SHA-256 of four or eight messages at once.
//!
//! Each 32-bit word of FIPS 180-4's computation becomes a vector with a lane for each message, so one instruction does the
//! work of four or eight. Eight pay where the processor's vectors have eight words (x86-64-v3). The caller pads the
//! messages ([`Padded`]) to the same number of blocks, and all but their first and last blocks are read in place.
#![tactic(auto)]

mod blocks;
mod functions;
mod hashing;
mod padded;
mod rounds;
mod schedule;
mod vectors;

pub use hashing::{digest_four, hash_eight, hash_four};
pub use padded::{BLOCK_BYTES, Padded};
