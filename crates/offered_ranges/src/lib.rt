//! The ranges of pages that a monitor has offered, which pages of them are which window's, and which numbers a new window's pages get.
#![tactic(auto)]

mod bound;
pub mod laws;
pub mod number_laws;
mod numbers;
mod piece;
mod range;
mod table;

pub use bound::{OfferedBounds, bounds};
pub use numbers::{Taken, first_free};
pub use piece::{Piece, next};
pub use range::OfferedRange;
pub use table::{add, is_all_left, is_part_left, take_out};
