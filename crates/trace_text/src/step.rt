//! The steps of a trace.
use window_events::Event;

/// What a line of a trace says.
#[derive(Clone, Copy, Debug, PartialEq, Eq)]
pub enum Step {
    /// This happened.
    Happens(Event),
    /// This content was seen in this page.
    Shows(u32, u64),
}
