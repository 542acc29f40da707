//! Shows the numbers of an estimate and of a fleet: a table for people, JSON for programs, and CSV for pairs of guests.
//!
//! Each is a text that is complete before any of it is written anywhere, but for the CSV. That may be long, and is written one guest
//! after the other.
#![tactic(auto)]

mod amounts;
mod cells;
mod census_rows;
mod estimate;
mod estimated_sum;
mod fleet;
mod fleet_parts;
mod fleet_rows;
mod hosts;
mod hosts_table;
mod json;
mod names;
mod pairs;
mod reclaimed;
mod report;
mod rows;
mod sentence;
mod shares;
mod table;

pub use amounts::{Tenths, Unit, in_units, per_mille, scale_for};
pub use estimate::{Estimate, GuestLine, guest_lines};
pub use fleet::{Fleet, FleetLine, fleet_lines};
pub use hosts::FleetHost;
pub use json::json_text;
pub use names::{PlainName, ShortName, XmlName};
pub use pairs::write_pairs;
pub use reclaimed::Reclaimed;
pub use report::Report;
pub use shares::{Shares, shares_in, shares_of};
pub use table::table_text;
