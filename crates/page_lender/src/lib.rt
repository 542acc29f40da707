//! What a lender believes of a page and what it orders next: each of its decisions is events that the protocol of windows allows.
#![tactic(auto)]

mod allowed;
mod bars;
mod belief;
mod decide;
pub mod laws;
mod lend;
mod notices;
mod order;
mod packed;
mod page;
mod results;

pub use bars::Bars;
pub use belief::{Belief, Homing, Stage, Target};
pub use order::{Notice, Order, Outcome};
pub use packed::{belief_of, frame_of, number_of, slot_of};
pub use page::PageLender;
