//! Worked estimates and digests: how often pages are read, reads that fail, workers that read together, refused memory.
mod censuses;
mod digests;
mod images;
