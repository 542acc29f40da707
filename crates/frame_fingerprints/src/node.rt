//! What is kept of a frame.

// Where nothing leads to: a frame without a fingerprint is behind it, and a chain ends with it.
pub(crate) const NOWHERE: u32 = 0xFFFF_FFFF;

// A frame's fingerprint, and its place in the chain of its bucket: the frame that comes next, and the one before it. Before the
// first one is the bucket, by its number above the frames.
#[derive(Clone, Copy)]
pub(crate) struct Node {
    pub(crate) fingerprint: u64,
    pub(crate) next: u32,
    pub(crate) before: u32,
}
