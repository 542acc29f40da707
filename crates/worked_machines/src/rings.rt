//! Pairs of rings with memory refused, and scans, by the public calls of `share_rings`.
mod refused;
mod scans;
