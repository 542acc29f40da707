//! What is known of each page of a window, in 12 bytes: what its lender believes, what lies at its place, and what looks have found.
//! And counts of the pages of each part.
#![tactic(auto)]

mod bytes;
mod change;
mod counts;
mod facts;
pub mod laws;
mod lend;
mod page;
mod place;
mod runs;

pub use counts::PartCounts;
pub use facts::WindowFacts;
pub use lend::{choose, hear, is_free, is_movable, may_go_on, next, take};
pub use page::{KnownPage, PageNotes, WindowPage};
pub use place::{
    begin, cover, detach, forget, give_back, give_up, leave, see, stays, stop_past, uncover, unmap,
    write_notes,
};
