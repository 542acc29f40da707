//! What a line shows.
use std::fmt::Display;

/// What a line shows.
pub trait LineContent {
    ghost use Rattle.std.specs.Prelude.{ℕ};

    type Shown: Display + Drop;

    /// What it may show after this many milliseconds.
    ghost shows: { Self → ℕ → Self.Shown → Type 0 };

    /// Returns what it shows after this many milliseconds.
    fn shown_after(&self, elapsed: u64) -> Self::Shown
        ensures { shows self.now elapsed result };
}
