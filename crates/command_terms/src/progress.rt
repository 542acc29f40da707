//! A line on standard error that shows how far the work is.
mod amounts;
mod drawing;
mod drawn;
mod line_content;
mod read_so_far;
mod run_so_far;
mod when;

pub use drawn::{DrawnLine, line_where};
pub use line_content::LineContent;
pub use read_so_far::ReadSoFar;
pub use run_so_far::RunSoFar;
pub use when::Drawn;
