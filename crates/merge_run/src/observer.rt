//! Observing a run between its rounds.
ghost use Rattle.std.specs.Prelude.{◌≡◌, ◌≤◌, ◌⊎◌, ◌∷◌, ◌++◌, [], ℕ, List, All};
ghost use Rattle.page_model.specs.Parts.{Totals};

use page_model::Report;
use std::sync::Wait;

/// Receives the report of a run's machine after each round of its merger, on the calling thread.
///
/// It is passed from call to call by value, so that it may hold what a run can't own, such as a `&mut` to something that
/// can't be dropped.
pub trait Observer: Drop {
    // which one it is, such as by the name of what it borrows
    ghost name: { Self → ℕ };

    // the reports that it kept, in order
    ghost kept: { Self → List Totals };

    // how it changes when it receives a report, after a round that served this many requests
    ghost becomes: { Self → Totals → ℕ → Self → Type 0 };

    /// Receives the machine's report after a round, and how many requests the round served, perhaps none. It may keep the report.
    fn observe<R: Wait>(self, rt: &R, report: Report, served: u32) -> Self
        requires { All (λ before. before.entries ≤ report.entries) (kept self) }
        ensures name { name result ≡ name self }
        ensures kept { (kept result ≡ kept self) ⊎ (kept result ≡ kept self ++ report ∷ []) }
        ensures becomes { becomes self report served result };
}

/// An observer that does nothing.
#[derive(Clone, Copy, Debug, PartialEq, Eq)]
pub(crate) struct NoObserver;

impl Observer for NoObserver {
    ghost use Rattle.std.specs.Prelude.{◌≡◌, []};

    ghost name = { λ observer. 0 };

    ghost kept = { λ observer. [] };

    ghost becomes = { λ before report served after. after ≡ before };

    fn observe<R: Wait>(self, _rt: &R, _report: Report, _served: u32) -> NoObserver {
        self
    }
}
