//! Slots over one core: pages that clients lent, each with a frame that holds its bytes.
//!
//! A slot is a page of a core with one guest. It is free, or a client's that lent a page; then its frame holds the page's bytes
//! until the slot is released. Pages that are equal share a frame, as the core finds them. One frame is always left free between
//! calls, so that a page can join others where no frame is free for it alone.
#![tactic(auto)]

mod clients;
mod core_slots;
mod count;
mod fault;
mod holding;
mod links;
mod machine;
mod make;

pub use clients::is_of;
pub use fault::SlotFault;
pub use holding::{Holding, PageLoan};
pub use machine::LentSlots;
