//! Traces of windows as texts: they are read, and played by the protocol of windows.
//!
//! A trace says what guests, lenders and a host did, and what was seen in pages. `docs/FORMATS.md` describes its lines, and
//! `specs/` defines them independently of the code. `window_events` defines what is possible and what it does.
#![tactic(auto)]

pub mod laws;
mod line;
mod outcome;
mod playing;
mod print;
mod reader;
mod step;
mod trace;

pub use outcome::Outcome;
pub use playing::play;
pub use print::outcome_line;
pub use reader::read_trace;
pub use step::Step;
pub use trace::{MAX_TRACE_FRAMES, Trace};
