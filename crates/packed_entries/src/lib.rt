//! Entries packed into 16 bytes, and chains of them.
//!
//! As in VMware ESX Server (C. Waldspurger, "Memory Resource Management in VMware ESX Server", OSDI
//! 2002, section 4), the table of a page sharing machine keeps 16 bytes for each frame, a packed entry: what
//! is known about a shared frame or a hint frame, and a link to the next entry of its chain.
#![tactic(auto)]

mod chains;
mod entry;
mod key;
mod limits;
mod numbers;
mod packed;
mod packed_entry;
mod places;

pub use chains::Chains;
pub use entry::Entry;
pub use key::Key;
pub use limits::MAX_ENTRIES;
pub use numbers::{Below, U23, U24};
pub use packed::Packed;
