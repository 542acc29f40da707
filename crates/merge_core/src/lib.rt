//! The core of a page sharing machine: which frame each page has, and what each request does to it.
//!
//! A core keeps its guests' pages in frames, and shared frames and hints in a table. It answers as the model does, which
//! knows only page contents.
#![tactic(auto)]

mod ahead;
mod by_workers;
mod counting;
mod entries;
mod fault;
mod forecast;
mod hashing;
mod held;
pub mod laws;
mod lending;
mod lent;
mod look;
mod machine;
mod make;
mod moves;
mod notes;
mod offer;
mod serve;
mod tally;

pub use counting::MAX_REQUESTS;
pub use fault::CoreFault;
pub use lent::{Lent, Returned, SaltedHash};
pub use machine::{Core, PAGES_A_WORKER};
