//! The client's half of a session with a host: what to say next, and what a reply or its loss means.
//!
//! A session outlives its connections. Any call may come at any time, and none fails: where it isn't the time for it, nothing changes.
#![tactic(auto)]

mod keep;
mod kept;
mod link;
mod lost;
mod reply;
mod session;

pub use kept::KeptSession;
pub use link::{Link, Welcomed};
pub use reply::{MAX_SLOT_MACHINES, MAX_SLOT_PAGES};
pub use session::{ClientSession, MAX_UNHEARD};
