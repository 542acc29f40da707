//! Parts of a window, as looks leave them: when one is split, and when it is made whole.
pub mod laws;
mod part;
mod settle;

pub use part::{PART_PAGES, Part, PartConfig, PartLook, PartOrder};
