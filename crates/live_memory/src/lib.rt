//! The memory of a process of this machine, as a source of pages.
//!
//! The process's own list of its mappings, `/proc/PID/smaps`, says which of its memory is no file's, can be written and is
//! offered for sharing. `/proc/PID/pagemap` says which of its pages are in memory. `specs/` defines how both are read. The pages
//! are those of an [`Image`](memory_images::Image) of `/proc/PID/mem`.
#![tactic(auto)]

mod choice;
mod details;
mod fault;
mod fields;
mod mapping;
mod maps;
mod memory;
mod pagemap;
mod process;

pub use choice::MemoryChoice;
pub use fault::LiveFault;
pub use mapping::WritableMapping;
pub use maps::writable_mappings;
pub use memory::LiveMemory;
pub use pagemap::PageMap;
pub use process::{LiveImage, LiveProcess, image_of_maps, open_process, shared_of_maps};
