//! How far a run is.
use command_terms::{DrawnLine, LineContent, RunSoFar};
use merge_run::Gate;
use page_model::Report;
use share_text::Viewer;
use std::sync::atomic::{AtomicBool, AtomicU32, AtomicU64, Ordering};
use std::time::Clock;

/// How far a run is, and the line that shows it.
///
/// As a gate it delays nobody: it only hears how much is to come. As a viewer it draws the line, in its own thread.
#[derive(Drop)]
pub struct Running<'a, R> {
    line: DrawnLine<'a, R>,
    /// How many requests the scripts have, closes included; 0 before the run.
    requests: AtomicU64,
    /// The milliseconds from when the line was made to the run.
    start: AtomicU64,
    entries: AtomicU32,
    mapped: AtomicU32,
    shared: AtomicU32,
    reclaimed: AtomicU32,
    has_ended: AtomicBool,
}

impl<'a, R: Eprint + Clock> Running<'a, R> {
    /// Starts with nothing running.
    pub fn new(line: DrawnLine<'a, R>) -> Running<'a, R> {
        Running {
            line,
            requests: AtomicU64::new(0),
            start: AtomicU64::new(0),
            entries: AtomicU32::new(0),
            mapped: AtomicU32::new(0),
            shared: AtomicU32::new(0),
            reclaimed: AtomicU32::new(0),
            has_ended: AtomicBool::new(false),
        }
    }

    /// Draws the line for the last time and ends it, unless it has ended or nothing was run.
    pub fn end(&self) {
        let has_run = self.requests.load(Ordering::SeqCst) > 0;
        if has_run && !self.has_ended.swap(true, Ordering::SeqCst) {
            self.line.end(self);
        }
    }

    fn note(&self, report: &Report) {
        self.entries.store(report.entries(), Ordering::SeqCst);
        self.mapped.store(report.mapped(), Ordering::SeqCst);
        self.shared.store(report.shared(), Ordering::SeqCst);
        self.reclaimed.store(report.reclaimed(), Ordering::SeqCst);
    }
}

impl<R> LineContent for Running<'_, R> {
    ghost use Rattle.std.specs.Prelude.{◌≤◌};

    type Shown = RunSoFar;

    ghost shows = { λ _ elapsed shown. shown.elapsed ≤ elapsed };

    fn shown_after(&self, elapsed: u64) -> RunSoFar {
        RunSoFar {
            requests: self.requests.load(Ordering::SeqCst),
            entries: self.entries.load(Ordering::SeqCst),
            mapped: self.mapped.load(Ordering::SeqCst),
            shared: self.shared.load(Ordering::SeqCst),
            reclaimed: self.reclaimed.load(Ordering::SeqCst),
            elapsed: elapsed.saturating_sub(self.start.load(Ordering::SeqCst)),
        }
    }
}

impl<R: Eprint + Clock + Sync> Gate for Running<'_, R> {
    fn starting(&self, requests: u64) {
        self.requests.store(requests, Ordering::SeqCst);
        self.start.store(self.line.elapsed(), Ordering::SeqCst);
    }

    fn before(&self, _guest: u8, _nth: u32) {}

    fn after(&self, _guest: u8, _nth: u32) {}
}

impl<R: Eprint + Clock + Sync> Viewer for Running<'_, R> {
    // The line ends with the last request, before the run's output is written.
    fn show(&self, report: &Report) {
        self.note(report);
        if u64::from(report.entries()) == self.requests.load(Ordering::SeqCst) {
            self.end();
        } else {
            self.line.draw_if_due(self);
        }
    }
}
