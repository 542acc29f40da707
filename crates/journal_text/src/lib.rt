//! Journals as texts, read and written, and the lines of verdicts and reports.
//!
//! The texts, the lines and the order of faults are in `docs/FORMATS.md`; `specs/` defines them independently of the code. The
//! words, lines and faults of every text are in `text_words`.
#![tactic(auto)]

pub mod head;
pub mod head_reader;
pub mod header;
mod journal;
pub mod laws;
pub mod print;
mod reader;
pub mod request;
pub mod room;
mod said;
pub mod version;
pub mod writer;

pub use journal::Journal;
pub use print::{report_line, verdict_line};
pub use reader::read_journal;
pub use version::Version;
pub use writer::write_journal;
