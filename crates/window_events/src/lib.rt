//! How guests' pages may be lent to a host in another process, and shown from its frames: the protocol as events, its
//! laws, and the same as a program.
#![tactic(auto)]

mod changes;
mod event;
pub mod laws;
mod mappings;
mod page;
mod parts;

pub use event::Event;
pub use mappings::Mappings;
pub use page::{Page, View};
