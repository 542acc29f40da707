//! How much of a command's input was read.
use command_terms::{DrawnLine, LineContent, ReadSoFar};
use memory_pages::Progress;
use page_model::PAGE_BYTES;
use std::sync::atomic::{AtomicU64, Ordering};
use std::time::Clock;

/// In what the input is counted.
#[derive(Clone, Copy, Debug)]
enum Measure {
    Pages,
    Bytes,
}

/// How much of the input was read, and the line that shows it, if one is drawn.
#[derive(Drop)]
pub struct Reading<'a, R> {
    line: Option<DrawnLine<'a, R>>,
    measure: Measure,
    done: AtomicU64,
    /// How much there was when the input was opened. A pipe has no bytes then.
    total: u64,
}

impl<'a, R: Eprint + Clock> Reading<'a, R> {
    /// Starts with nothing read of `total` pages.
    pub fn of_pages(line: Option<DrawnLine<'a, R>>, total: u64) -> Reading<'a, R> {
        Reading {
            line,
            measure: Measure::Pages,
            done: AtomicU64::new(0),
            total,
        }
    }

    /// Starts with nothing read of `total` bytes.
    pub fn of_bytes(line: Option<DrawnLine<'a, R>>, total: u64) -> Reading<'a, R> {
        Reading {
            line,
            measure: Measure::Bytes,
            done: AtomicU64::new(0),
            total,
        }
    }

    /// Counts pages or bytes that were read, and draws the line if it is due.
    pub fn add(&self, count: usize) {
        if let Some(line) = &self.line {
            self.done.fetch_add(count as u64, Ordering::SeqCst);
            line.draw_if_due(self);
        }
    }

    /// Draws the line for the last time, and ends it.
    pub fn end(&self) {
        if let Some(line) = &self.line {
            line.end(self);
        }
    }
}

impl<R> LineContent for Reading<'_, R> {
    ghost use Rattle.std.specs.Prelude.{◌≡◌};
    ghost use Rattle.pageshare_commands.specs.declared.reading.Measure.TheVariants.{Pages};

    type Shown = ReadSoFar;

    ghost shows = { λ reading elapsed shown. (reading.measure ≡ Pages → shown.total ≡ reading.total) × (shown.elapsed ≡ elapsed) };

    /// Shows bytes in pages of 4,096, rounded up.
    fn shown_after(&self, elapsed: u64) -> ReadSoFar {
        let done = self.done.load(Ordering::SeqCst);
        match self.measure {
            Measure::Pages => ReadSoFar {
                done,
                total: self.total,
                elapsed,
            },
            Measure::Bytes => ReadSoFar {
                done: done.div_ceil(PAGE_BYTES as u64),
                total: self.total.max(done).div_ceil(PAGE_BYTES as u64),
                elapsed,
            },
        }
    }
}

impl<R: Eprint + Clock + Sync> Progress for Reading<'_, R> {
    fn advance(&self, pages: usize) {
        self.add(pages);
    }
}
