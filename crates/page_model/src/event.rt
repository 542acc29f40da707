//! What passes between a guest and the merger.
use crate::Request;

/// One step of a guest, or of the merger for a guest, with the guest's number.
///
/// An event with nothing to move changes nothing: a take before a send, a give before a take, a get
/// before a give, a send after a close.
#[derive(Clone, Debug, PartialEq, Eq, Drop)]
pub enum Event {
    /// The guest sends a request.
    Send(u8, Request),
    /// The merger takes the guest's next request, and appends it to the journal.
    Take(u8),
    /// The merger gives the guest the verdict of its next request in the journal.
    Give(u8),
    /// The guest gets the next of the verdicts that were given.
    Get(u8),
}
