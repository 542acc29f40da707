//! What a look does with each page that it comes to, which pages are idle, and when a part of a window is split or made whole.
#![tactic(auto)]

pub mod finds;
pub mod idle;
pub mod parts;
