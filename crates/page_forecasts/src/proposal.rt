//! A proposal that is to come.

/// A page that a request proposes after others, by its number.
#[derive(Clone, Copy, Debug, PartialEq, Eq)]
pub enum Upcoming {
    /// The others leave it as it is.
    AtRest(u32),
    /// The others store to it or release it.
    Changing(u32),
}
