//! Words, lines and faults of texts.
//!
//! `docs/FORMATS.md` describes the texts; `specs/` defines their words and lines independently of the code.
#![tactic(auto)]

mod expect;
mod fault;
pub mod line;
pub mod print;
pub mod word;

pub use expect::expectation;
pub use fault::{Cause, TextFault};
pub use print::fault_line;
