//! What is asked, copied, lent, held and released, up to 128 pages at once: each page of a list gets its order, or what came of it is taken.
#![tactic(auto)]

mod asks;
mod copies;
mod holds;
mod loans;
mod releases;
mod tell;

pub use asks::{answered, to_ask};
pub use copies::{Check, CopyOutcome, copied, to_copy};
pub use holds::{to_give_back, to_hold};
pub use loans::{LoanReply, loaned};
pub use releases::{released, to_release};
