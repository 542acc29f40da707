//! The fingerprints of the frames in use.
//!
//! A host that shares memory between virtual machines keeps the fingerprint of each frame that has a page. So it can say of a
//! fingerprint whether such a frame has it, however long ago the page was lent. `FrameFingerprints` keeps them by the frames'
//! numbers, and finds them.
#![tactic(auto)]

mod chains;
mod limits;
mod node;
mod store;

pub use limits::MAX_FRAMES;
pub use store::FrameFingerprints;
