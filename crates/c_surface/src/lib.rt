//! What the libraries for C have in common: statuses, what a handle's calls return, and which domains there are.
#![tactic(auto)]

mod faults;
mod handle;
mod laws;
mod limits;
pub mod status;
mod totals;

pub use c_handles::{Handle, Parcel};
pub use faults::{domain_status, lend_status};
pub use handle::{free, put_back};
pub use laws::numbers_law;
pub use limits::shape_status;
pub use totals::{DomainTotals, totals_of};
