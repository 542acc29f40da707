//! What a page sharing machine is: its requests, verdicts and reports, its limits, and, in `specs/`,
//! the definitions that every contract of the project is stated in.
//!
//! The rules are those of content-based page sharing in VMware ESX Server (C. Waldspurger, "Memory
//! Resource Management in VMware ESX Server", OSDI 2002, section 4). `docs/MODEL.md` puts them into words.
#![tactic(auto)]

mod event;
mod hashing;
pub mod laws;
mod limits;
mod load;
mod machine_shape;
mod report;
mod request;
mod store;
mod verdict;

pub use event::Event;
pub use hashing::HashFunction;
pub use limits::{
    MAX_ACCESS_BYTES, MAX_ENTRIES, MAX_FRAMES, MAX_GUESTS, MAX_PAGES, MAX_RING_CAPACITY,
    MAX_TEXT_BYTES, MAX_WATCHES, MAX_WORKERS, PAGE_BYTES, Page,
};
pub use load::LoadReq;
pub use machine_shape::{MachineShape, ShapeFault};
pub use report::Report;
pub use request::{Entry, Request, RequestFault};
pub use store::StoreReq;
pub use verdict::Verdict;
