//! One owned value for all windows of a process: their tables, how many mappings they take, and each call for their pages.
//!
//! A window is named by its place in the list of windows. A place whose window was taken out is free, and may be used again.
#![tactic(auto)]

mod asked;
mod calls;
mod choice;
mod facts;
mod lender;
mod lists;
mod look;
mod looks;
mod noted;
mod notice;
mod offer;
mod page_notice;
mod pages;
mod part_notice;
mod parts;
mod question;
mod rows;
mod scans;
mod tables;

pub use choice::Choice;
pub use facts::{ProcessFacts, WindowState};
pub use lender::ProcessLender;
pub use look::WindowScan;
pub use notice::Notice;
pub use page_notice::PageNotice;
pub use part_notice::PartNotice;
pub use question::Question;
