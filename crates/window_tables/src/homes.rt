//! Pages in a row that get memory of their own in place of frames: at their places, or elsewhere, from where it is moved there.
mod answers;
mod home;
mod steps;

pub use answers::find_staying;
pub use home::{copied, moved, one_memory, order, refused};
pub(crate) use steps::is_homing;
