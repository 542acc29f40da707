//! Draws the numbers of an estimate as SVG: a bar for each guest, how many copies contents have, and a legend.
#![tactic(auto)]

mod bar;
mod guest_bars;
mod histogram;
mod legend;
mod picture;
mod scale;
mod with_unit;

pub use bar::{Parts, parts_of};
pub use picture::picture_text;
