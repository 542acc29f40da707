//! The two ends of a guest's rings, and the order in which pages are scanned.
//!
//! A guest has two rings, one for its requests and one for its verdicts. The guest keeps the [`Port`], which moves to the
//! guest's thread, and the merger keeps the [`MergerEnd`]. No call waits for the other end. Each end knows what passed
//! through it; it takes [`meet`], with both ends, to know that the two lists of a ring agree.
#![tactic(auto, unfolding(crate::specs::Ends::producer_name, crate::specs::Ends::consumer_name))]

mod closed_port;
mod fault;
mod gather;
mod merger_end;
mod pair;
mod port;
mod scan;

pub use closed_port::ClosedPort;
pub use fault::{Busy, SendFault};
pub use gather::{Meeting, meet};
pub use merger_end::MergerEnd;
pub use pair::{RingFault, open_pair, ring_pair};
pub use port::Port;
pub use scan::Scan;
