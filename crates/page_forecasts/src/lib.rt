//! What pages will hold when they are proposed, as far as the next requests show, and the hashes of that, computed ahead
//! of time.
//!
//! A forecast is a guess about bytes, and its hash is the hash of the guessed bytes. It's used for a page only if the page then
//! holds exactly those bytes, which is checked. So a wrong prediction costs time, and affects nothing else.
#![tactic(auto)]

mod forecast;
mod forecasts;
pub mod laws;
mod proposal;
mod requests;

pub use forecasts::{FORECASTS, Forecasts, REACH};
pub use proposal::Upcoming;
pub use requests::{is_proposed, upcoming};
