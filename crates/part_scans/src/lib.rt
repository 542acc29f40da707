//! A scan of a part: which of its pages it takes, and what is done next with each, one step of all of them after another.
#![tactic(auto)]

mod beside;
mod glances;
mod outcomes;
mod scan;
mod seen;
mod taking;

pub use beside::follow;
pub use glances::find_numbers;
pub use outcomes::done;
pub use scan::Scan;
pub use taking::begin;
