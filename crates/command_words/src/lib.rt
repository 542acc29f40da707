//! The command line of the program `pageshare`: what its words ask for, with help and the faults of words by the crate `clap`.
//!
//! `clap`'s builder carries all that is known of an argument from call to call. So a function here makes few of its calls, and has
//! no clause about the argument or the command that it returns.
#![tactic(auto)]

mod digest_words;
mod estimate_words;
mod fleet_words;
mod help;
mod parts;
mod progress_words;
mod words;
mod worker_words;

pub use words::asked_of;
