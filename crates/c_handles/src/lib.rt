//! What C keeps of a value of the heap: a handle, which owns what a box owned.
//!
//! A handle for C can't contain a box. It contains an address that says nothing of its type, and owns what a [`Parcel`] owned.
#![tactic(auto)]

mod handle;
mod parcel;

pub use handle::Handle;
pub use parcel::Parcel;
