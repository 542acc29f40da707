//! Lists whose memory isn't touched before it is used.
#![tactic(auto)]

mod list;

pub use list::LazyList;
