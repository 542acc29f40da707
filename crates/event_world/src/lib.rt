//! What passes between the guests and the merger, kept on one thread in plain lists: the world of events that the
//! law of schedules is about, as a program.
//!
//! The machine itself has rings instead of these lists. Here each event is one call, so an order of events can be
//! played through and inspected.
#![tactic(auto)]

mod looks;
mod traffic;
mod world;

pub use traffic::Traffic;
pub use world::World;
