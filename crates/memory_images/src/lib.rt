//! Images of memory as sources of pages: raw files, and ELF cores of 64 bits.
//!
//! An image is a list of segments of a file, whose bytes are cut into pages. Definitions over a file's bytes, in
//! `specs/`, say what its segments are.
#![tactic(auto)]

mod elf;
mod fault;
mod file;
mod header;
mod image;
mod open;
mod pages;
mod parts;
mod read_at;
mod segment;
mod source;
mod word;

pub use fault::{FormFault, ImageFault};
pub use file::FileBytes;
pub use image::Image;
pub use read_at::ReadAt;
pub use segment::Segment;
