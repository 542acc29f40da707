//! What it means to store a whole page, to lend it and to take it back, in the requests of the model.
//!
//! A monitor moves whole pages, while a request of the model stores or loads at most `MAX_ACCESS_BYTES`. So the calls for whole
//! pages are stated as the requests that they stand for, and the laws here say what these come to.
#![tactic(auto)]

mod laws;
mod pieces;

pub use laws::{lent_is_taken_back_law, limits_law, stored_at_once_law, verdicts_follow_law};
pub use pieces::STORES_A_PAGE;
