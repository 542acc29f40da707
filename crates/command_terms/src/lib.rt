//! What a command of the program is asked for, how it ends, the words of its faults, and the line that shows how far it is.
//!
//! All but that line is plain values: no word is read here, and nothing else is printed.
#![tactic(auto)]

mod asked;
mod digests;
mod ends;
mod estimates;
mod failures;
mod fleets;
mod image_causes;
pub mod laws;
mod progress;
mod script_faults;

pub use asked::{Asked, Task, Work};
pub use digests::{DigestSource, DigestWords, file_name};
pub use ends::CommandEnd;
pub use estimates::{EstimateWords, MOST_WORKERS, worker_count};
pub use failures::{error_line, first_failure};
pub use fleets::FleetWords;
pub use image_causes::ImageCause;
pub use progress::{Drawn, DrawnLine, LineContent, ReadSoFar, RunSoFar, line_where};
pub use script_faults::{ScriptFault, script_fault};
