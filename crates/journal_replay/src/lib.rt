//! The engine that replays a journal, from a reader to a writer.
//!
//! What it writes, and what it returns at a fault, is in `docs/FORMATS.md`; `specs/` defines it independently of the code. The
//! engines of scripts use the readers, the writers and the buffer too.
#![tactic(auto)]

pub mod ends;
pub mod engine;
pub mod output;

pub use ends::{Noted, Sink, Source};
pub use engine::replay;
