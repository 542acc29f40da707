//! What is noted of a part of a window.

use page_looks::idle::LookConfig;
use page_looks::parts::{PartConfig, PartLook};

/// What is noted of a part of a window.
#[derive(Clone, Copy)]
pub enum PartNotice {
    /// A look found this of it, by which it is decided what is to be done with it.
    Settled(PartConfig, PartLook),
    /// A look found so many idle pages that have changed, and so many pages with memory of their own.
    Rests(LookConfig, u32, u32),
    /// Its rest ends.
    Woken,
    /// The system backs it by a huge page, or it doesn't.
    Huge(bool),
    /// What looks have found of it counts no more.
    Forgotten,
}
