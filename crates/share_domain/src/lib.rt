//! A domain: what a host needs so that the VMM processes of one machine share memory.
//!
//! A domain has one to `MAX_MACHINES` machines, each a core with one guest, and clients, which come and go. A client lends pages.
//! Each page that it lent has a slot, which is a page of one of the machines and belongs to the client until the client releases
//! it or leaves. A page goes to the machine that its hash names, or to the machine of a frame with its bytes, so equal pages meet,
//! and share a frame there.
#![tactic(auto)]

mod client;
mod clients;
mod config;
mod domain;
mod fault;
mod given;
mod holding;
mod laws;
mod leave;
mod lend;
mod make;
mod number;
mod report;

pub use client::Presence;
pub use config::{DomainConfig, MAX_CLIENTS, MAX_MACHINES, limit_fault};
pub use domain::Domain;
pub use fault::{DomainFault, LendFault, NoSuchSlot};
pub use given::GivenFrames;
pub use holding::{Loan, Slot};
pub use laws::{bytes_law, limits_law, open_law, open_refuses_nothing_law};
pub use lent_slots::Holding;
pub use make::new_frames;
pub use number::{NO_FRAME, SLOTS_APART, frame_number, slot_by, slot_number, slots_law};
pub use report::DomainReport;
