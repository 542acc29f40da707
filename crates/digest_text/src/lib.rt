//! The text of a guest's digests: CSV, read a line at a time and written.
//!
//! `docs/FORMATS.md` has the lines and the order of faults; `specs/` defines them independently of the code.
#![tactic(auto)]

mod buffered;
mod digest_reader;
mod fault;
mod fields;
mod head;
pub mod laws;
mod lines;
mod name;
mod print;
mod read_fault;
mod reader;
mod row;
mod so_far;
mod taken;
mod write_fault;
mod writer;

pub use digest_reader::DigestReader;
pub use fault::{Cause, LineFault};
pub use head::DigestHead;
pub use name::GuestName;
pub use read_fault::ReadFault;
pub use write_fault::WriteFault;
pub use writer::write_digests;
