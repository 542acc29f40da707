//! Hashes of pages: values from outside, and many by several workers.
mod apart;
mod eights;
mod folded;
mod known;
mod makes;
mod many;
