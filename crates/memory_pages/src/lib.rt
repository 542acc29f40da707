//! Pages of memory as they are read: where they come from, and how several workers read them in parts.
//!
//! What is made of the pages is up to the caller, who gives a `PageWork`.
#![tactic(auto)]

mod buffer;
mod fault;
mod part;
mod parts;
mod source;
mod split;
mod work;
mod workers;

pub use buffer::new_pages;
pub use fault::ReadFault;
pub use parts::push_all;
pub use source::{PageSource, Progress};
pub use split::{RUN, Split, split_among};
pub use work::PageWork;
pub use workers::Workers;
