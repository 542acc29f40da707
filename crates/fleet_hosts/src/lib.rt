//! Which guests of a fleet are on which host, and a law of what sharing reclaims on each.
#![tactic(auto)]

mod hosts;
pub mod laws;
mod list;
mod name;

pub use hosts::{guests_on, hosts_of};
pub use list::{HostList, ListCause, ListFault};
pub use name::host_of;
