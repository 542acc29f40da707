//! Which pages are idle, and which looks read them: by fingerprints, glances, turns and rests, over no memory of a guest.
pub mod laws;
mod look;
mod page;
mod part;
mod sample;
mod turn;
mod way;

pub use look::{
    ASKS_MOST, Act, CALM_PART, LookConfig, PASSING_EACH, PageLooks, READ_EACH, READ_EACH_OVER,
    STILL, TOGETHER, TURNS, WHOLE_TURNS, Way,
};
