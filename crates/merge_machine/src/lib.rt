//! A machine over its guests' rings, while it runs: its merger takes the guests' requests into one journal, applies them
//! to the core and answers each.
//!
//! [`open_machine`] makes a [`Merger`] and one port for each guest. Each [`Merger::step`] serves one request of one guest.
//! `merge_settle` says what is known once all guests have ended, and `merge_run` runs a thread for each guest.
#![tactic(auto)]

mod ahead;
mod config;
mod limits;
mod machine;
mod meet_each;
mod merger;
mod note_next;
mod round;
mod serve;
mod serve_taken;
mod take_requests;
mod workers;

pub use config::{CheckedConfig, Config, Fault};
pub use limits::{MAX_ROUND, max_round_law};
pub use machine::{open_checked_machine, open_machine};
pub use merger::{JournalFull, Merger, Step};
