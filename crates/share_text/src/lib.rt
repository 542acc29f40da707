//! Texts of page requests, and the engines that serve them.
//!
//! This crate has the whole surface of journals (`journal_text`, `journal_replay`), of scripts (`script_text`) and of their
//! faults (`text_words`). So users need no other crate. It also has the engine that runs a script with a thread for each guest.
//! The texts, the output and the order of faults are in `docs/FORMATS.md`.
#![tactic(auto)]

mod engine;
mod fault;
mod form;
mod printing;
mod texts;
mod threaded_fault;

pub use engine::{threaded, threaded_viewed};
pub use fault::{TextFault, expectation, fault_line};
pub use form::Output;
pub use journal_replay::{Noted, Sink, Source};
pub use journal_text::{Journal, laws, report_line, verdict_line, write_journal};
pub use merge_run::{Gate, OpenGate, RunFault};
pub use script_text::Script;
pub use text_words::Cause;
pub use texts::{read_journal, read_script, replay, serial};
pub use watched_machine::Viewer;
