//! A line on standard error that is redrawn.
ghost use Rattle.std.specs.Prelude.{◌≡◌, false, IsNone};
ghost use Rattle.command_terms.specs.When.{is_on};

use crate::progress::drawing::{Pace, draw};
use crate::progress::line_content::LineContent;
use crate::progress::when::Drawn;
use std::io;
use std::sync::atomic::{AtomicBool, AtomicU64, Ordering};
use std::time::{Clock, Instant};

/// A line on standard error that several threads may redraw, each over what was there. It is drawn at most ten times a
/// second, by whichever thread comes first.
#[derive(Drop)]
pub struct DrawnLine<'a, R> {
    rt: &'a R,
    start: Instant,
    /// The milliseconds from the start to the last drawing.
    last: AtomicU64,
    /// Whether a thread is drawing.
    is_taken: AtomicBool,
}

impl<'a, R: Eprint + Clock> DrawnLine<'a, R> {
    /// Makes a line that isn't drawn yet. An error is that of the clock.
    pub fn new(rt: &'a R) -> io::Result<DrawnLine<'a, R>> {
        Ok(DrawnLine {
            rt,
            start: Instant::now(rt)?,
            last: AtomicU64::new(0),
            is_taken: AtomicBool::new(false),
        })
    }

    /// Returns the milliseconds since the start.
    pub fn elapsed(&self) -> u64 {
        match self.start.elapsed(self.rt) {
            Ok(since) => u64::try_from(since.as_millis()).unwrap_or(u64::MAX),
            Err(_) => 0,
        }
    }

    /// Draws the line if it is due and no other thread is drawing it: what `text` shows for the milliseconds since the
    /// start. A failed write is ignored: the work goes on without it.
    pub fn draw_if_due<T: LineContent>(&self, text: &T) {
        if self.is_taken.swap(true, Ordering::SeqCst) {
            return;
        }
        let mut pace = Pace {
            last: self.last.load(Ordering::SeqCst),
        };
        if let Some(drawing) = pace.draw_if_due(text, self.elapsed()) {
            let _ = self.rt.eprint(drawing);
        }
        self.last.store(pace.last, Ordering::SeqCst);
        self.is_taken.store(false, Ordering::SeqCst);
    }

    /// Draws the line for the last time, and ends it.
    pub fn end<T: LineContent>(&self, text: &T) {
        let _ = self.rt.eprintln(draw(text, self.elapsed()));
    }
}

/// Makes a line if one is to be drawn. `is_terminal` says whether standard error is a terminal. Without a clock there is no line.
pub fn line_where<R: Eprint + Clock>(
    rt: &R,
    drawn: Drawn,
    is_terminal: bool,
) -> Option<DrawnLine<'_, R>>
    ensures { is_on drawn is_terminal ≡ false → IsNone result }
{
    if drawn.is_on(is_terminal) {
        DrawnLine::new(rt).ok()
    } else {
        None
    }
}
