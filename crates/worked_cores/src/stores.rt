//! Hashes of pages.
mod hashes;
