//! The counted digests of pages.
mod known;
