//! Published reports, as a value that can be passed on.
ghost use Rattle.std.specs.Prelude.{◌≡◌, length};
ghost use Rattle.watched_machine.specs.Reports.{NeverFalls, NeverFalls-prop, last_of};

use crate::history::History;
use page_model::Report;

/// A list of published reports: all of them when the publisher told it, or those that a watch has seen. It may be sent to any
/// thread.
#[derive(Drop)]
pub struct Told {
    // The number of reports.
    pub(crate) count: u64,
    // The last report, or all zeros.
    pub(crate) report: Report,
    pub(crate) history: History,
    pub ghost counted: { length history.log ≡ count },
    pub ghost last: { last_of history.log ≡ report },
    pub ghost rising: { NeverFalls history.log } by { NeverFalls-prop history.log },
}

impl Told {
    /// Makes a copy, for another watch. Takes no memory.
    pub fn again(&self) -> Told
        ensures { result ≡ self.now }
    {
        Told {
            count: self.count,
            report: self.report,
            history: self.history.again(),
        }
    }
}
