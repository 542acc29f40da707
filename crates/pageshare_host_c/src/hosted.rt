//! What a host's handle holds.

use crate::waiting::Waiting;
use host_sessions::Host;
use page_digest::FoldHash;

/// A host, or one that waits for the frames of its machines.
#[derive(Drop)]
pub enum Hosted {
    Waiting(Waiting),
    Made(Host<FoldHash>),
}
