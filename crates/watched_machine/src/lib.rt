//! Reports that others read while a machine's merger works.
//!
//! This crate has the whole interface of machines with threads whose reports are published, so that users need only this one.
//! [`Machine::new`] makes a [`Merger`] and one port for each guest. [`Merger::publish`] publishes the report of the whole
//! journal, and a [`Watch`] in another thread reads the report that was published last, without asking the merger. [`settle`]
//! takes the merger and all ports together once every guest has ended. [`run`] runs a whole machine of `merge_run` so, and shows
//! its reports to a [`Viewer`] as it goes on.
//!
//! A watch never sees a report older than one that it has seen or learned of, and none that isn't in its publisher's log. A
//! [`Told`] says what was published: it has no report in it, may be sent to any thread, and any watch of the same publisher can
//! learn it. What a watch tells of what it saw, its publisher confirms.
//!
//! A publisher can't be dropped, so nothing that has one can be: it must be used up, in the end by [`Merger::end`],
//! [`Settled::end`] or [`Finished::unwatched`]. The machines of `merge_run` have no publisher, and can be dropped.
#![tactic(auto)]

mod causes;
mod finished;
mod history;
mod laws;
mod lent_publisher;
mod machine;
mod merger;
mod plan;
mod proof_list;
mod publisher;
mod seat;
mod settle_machine;
mod settled;
mod shown;
mod told;
mod unsettled;
mod view;
mod viewer;
mod watch;
mod whole_run;

pub use finished::Finished;
pub use laws::reports_stay_law;
pub use machine::Machine;
pub use merge_run::{
    Busy, ClosedPort, Config, Core, Entry, Fault, Gate, JournalFull, MAX_ROUND, OpenGate, PageHash,
    Port, Report, Request, RequestFault, RunFault, Scan, SendFault, SettleFault, Sha256Hash, Step,
    Verdict,
};
pub use merger::Merger;
pub use publisher::{OutOfMemory, PublishFault, Publisher};
pub use settle_machine::settle;
pub use settled::Settled;
pub use told::Told;
pub use unsettled::Unsettled;
pub use viewer::Viewer;
pub use watch::{NoWatch, Watch};
pub use whole_run::run;
