//! Settling a machine: what is known of each guest's requests and verdicts once the merger and all ports are in one
//! thread again.
#![tactic(auto)]

mod causes;
mod settle_machine;
mod settled;
mod unsettled;

pub use settle_machine::settle;
pub use settled::Settled;
pub use unsettled::{SettleFault, Unsettled};
