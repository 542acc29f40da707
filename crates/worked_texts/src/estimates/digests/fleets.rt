//! Digests that are merged.
mod merged;
mod refused;
