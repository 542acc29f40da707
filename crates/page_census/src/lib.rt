//! Counts the contents of pages, and so what sharing equal pages would reclaim.
//!
//! A content is a salt and the bytes of a page. Nothing is assumed of the hash: pages that may be equal are compared
//! byte by byte, so a weak hash affects the time, but no number.
#![tactic(auto)]

mod classes;
mod compare;
mod confirm;
mod count;
mod fault;
mod guest;
mod mark;
mod marks;
mod numbers;
mod place;
mod subject;
mod table;
mod tally;

pub use count::{CensusNumbers, census};
pub use fault::CensusFault;
pub use guest::Guest;
pub use numbers::{GuestNumbers, TotalNumbers};
pub use table::CopiesClass;
