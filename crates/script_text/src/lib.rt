//! Scripts as texts, and the engine that serves one on one thread.
//!
//! A script has a machine with the sizes of its rings and its journal, and what each guest asks for, which may be scans of its
//! pages. The lines and the order of faults are in `docs/FORMATS.md`; `specs/` defines them independently of the code.
#![tactic(auto)]

mod engine;
mod fill;
mod line;
mod order;
mod reader;
mod room;
mod rooms;
mod script;
mod work;

pub use engine::serial;
pub use reader::read_script;
pub use script::Script;
