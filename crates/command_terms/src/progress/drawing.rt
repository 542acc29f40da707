//! What is drawn, and when.
ghost use Rattle.std.specs.Prelude.{◌≡◌, ◌+◌, ◌≤◌, ◌↔◌, IsSome, IfSome, IsTrue};
ghost use Rattle.command_terms.specs.When.{last_after};

use crate::progress::line_content::LineContent;
use std::fmt::{self, Display, Formatter};

/// The least number of milliseconds between two drawings.
pub(crate) const PAUSE: u64 = 100;

/// What a line shows, as it is drawn over what was there.
#[derive(Drop)]
pub(crate) struct Drawing<D> {
    pub(crate) shown: D,
}

impl<D: Display> Display for Drawing<D> {
    ghost use Rattle.std.specs.Option.{option_map};
    ghost use Rattle.command_terms.specs.Shown.{drawing_text};

    ghost output = { λ drawing. option_map drawing_text (D.output drawing.shown) };

    fn fmt<W: fmt::Write>(&self, f: &mut Formatter<W>) -> fmt::Result {
        let shown = &self.shown;
        write!(f, "\r{shown}\x1b[K")
    }
}

/// When a line was drawn last, in milliseconds since its start.
#[derive(Clone, Copy)]
pub(crate) struct Pace {
    pub(crate) last: u64,
}

impl Pace {
    /// Returns what is drawn now, if the line is due: what `text` shows after this many milliseconds.
    pub(crate) fn draw_if_due<T: LineContent>(
        &mut self,
        text: &T,
        now: u64,
    ) -> Option<Drawing<T::Shown>>
        ensures due { IsSome result ↔ (self.old.last + PAUSE ≤ now) }
        ensures shown { IfSome result (λ drawing. T.shows text.now now drawing.shown) }
        ensures last { self.new.last ≡ last_after self.old.last now }
    {
        if !is_due(self.last, now) {
            return None;
        }
        self.last = now;
        Some(draw(text, now))
    }
}

/// Returns what is drawn after this many milliseconds.
pub(crate) fn draw<T: LineContent>(text: &T, elapsed: u64) -> Drawing<T::Shown>
    ensures { T.shows text.now elapsed result.shown }
{
    let shown = text.shown_after(elapsed);
    Drawing { shown }
}

/// Returns whether a line may be drawn again, by the milliseconds at which it was drawn last and those of now.
fn is_due(last: u64, now: u64) -> bool
    ensures { IsTrue result ↔ (last + PAUSE ≤ now) }
{
    now.saturating_sub(last) >= PAUSE
}
