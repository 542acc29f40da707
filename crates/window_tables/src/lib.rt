//! What is so of a window's pages, which of them a device may hold, and what becomes of many at once: decided over the tables that the caller
//! keeps.
#![tactic(auto)]

mod ask;
mod changes;
mod facts;
pub mod homes;
mod kept;
mod laws;
mod mappings;
mod parts;
pub mod pins;
pub mod rooms;
pub mod runs;

pub use ask::{are_movable, may_give_up, may_go_on};
pub use changes::{Change, can_note, note};
pub use facts::{TableFacts, facts_of};
pub use kept::{note_kept, put_zeros, set_whole};
pub use laws::{mappings_law, runs_law, table_law};
pub use mappings::{mappings_at, mappings_more, mappings_new};
pub use parts::PART;
