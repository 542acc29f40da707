//! Whole runs: a thread for each guest sends a script of requests and takes its verdicts, and the merger serves them on
//! the calling thread.
//!
//! This crate has the whole interface of machines with threads, so that users need only this one. [`Machine::new`] makes a
//! [`Merger`] and one port for each guest (`merge_machine`). Each [`Merger::step`] serves one request of one guest, and each
//! [`Merger::round`] serves the waiting requests of all guests, up to its limit. Once every guest has closed its port and
//! received its `Closed`, [`settle`] takes the merger and all ports together (`merge_settle`). Each guest has then received one
//! verdict for each request that it sent. These verdicts are those of one thread that replays the journal. [`run`] does all of
//! this, and serves by rounds.
#![tactic(auto)]

mod crew;
mod finished;
mod gate;
mod guest_thread;
mod inbox;
mod machine;
mod observer;
mod patience;
mod rounds;
mod run_fault;
mod task;
mod task_list;
mod threads;
mod whole_run;

pub use finished::Finished;
pub use gate::{Gate, OpenGate};
pub use machine::Machine;
pub use merge_core::Core;
pub use merge_machine::{Config, Fault, JournalFull, MAX_ROUND, Merger, Step};
pub use merge_settle::{SettleFault, Settled, Unsettled, settle};
pub use observer::Observer;
pub use page_digest::{PageHash, Sha256Hash};
pub use page_model::laws::schedule_law;
pub use page_model::{Entry, Report, Request, RequestFault, Verdict};
pub use run_fault::RunFault;
pub use share_rings::{Busy, ClosedPort, Port, Scan, SendFault};
pub use task_list::has_room;
pub use whole_run::{run, run_observed};
