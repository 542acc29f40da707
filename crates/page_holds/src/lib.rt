//! What is done next with a page that is held, or with pages in a row: they are compared, mapped, put back and let go. And where the memory of
//! each is meanwhile.
#![tactic(auto)]

mod hold;
pub mod laws;
mod place;
pub mod rows;

pub use hold::{begin, done, step};
pub use place::{HeldPlace, HoldStep, Taking};
