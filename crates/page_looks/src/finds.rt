//! What a look does with a page, step by step: whether it touches the page at all, glances at it, reads it, and what it finds.
mod find;
pub mod laws;
mod notes;
mod step;

pub use find::{begin, done};
pub use notes::{looks_of, write_looks};
pub use step::{FindOutcome, FindStep, Memory, Sight};
