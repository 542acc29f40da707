//! Merges the digests of many guests' memory, and counts what sharing would reclaim in all of them.
#![tactic(auto)]

mod all;
mod amount;
mod class;
mod content;
mod entry;
mod fault;
mod files;
mod first;
mod gather;
mod guest;
pub mod laws;
mod merging;
mod numbers;
mod open;
mod pair;
mod take;
mod tally;
mod total;
mod tournament;

pub use amount::Amount;
pub use class::FleetClass;
pub use fault::FleetFault;
pub use guest::FleetGuest;
pub use merging::{MAX_DIGESTS, merge};
pub use numbers::FleetNumbers;
pub use pair::{FleetPair, Pairs};
pub use total::FleetTotal;
