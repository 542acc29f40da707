//! The sessions of a host's clients: bytes of one client in, and what is to be done and replied.
//!
//! A session belongs to a VMM process. Its packets change its own slots in the domain and no others, whatever their bytes are. A
//! session whose connection has ended keeps its slots until its process has ended, or another connection takes it up by its name.
#![tactic(auto)]

mod allowance;
mod answer;
mod ask;
mod back;
mod config;
mod find;
mod host;
mod laws;
mod lend;
mod release;
mod session;

pub use allowance::{Allowance, Process};
pub use answer::Received;
pub use config::HostConfig;
pub use host::Host;
pub use laws::clients_law;
pub use session::{Begun, Link, Session, SessionFault};
