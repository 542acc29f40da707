//! What is done next with pages that are held in a row: which step, and with which of them at once.
mod bytes;
mod changes;
pub mod laws;
mod order;
mod run;

pub use bytes::again;
pub use changes::{begin, done};
pub use order::{RowOrder, next};
