//! What a run returns.
ghost use Rattle.std.specs.Prelude.{◌≡◌};
ghost use Rattle.watched_machine.specs.View.{settled_in};

use crate::settled::Settled;
use page_digest::PageHash;
use page_model::Verdict;
use std::alloc::{Allocator, Global};
use std::sync::Wait;

/// A run whose guests have all ended. Its settled machine can't be dropped, so neither can it.
pub struct Finished<H: PageHash, A: Allocator = Global> {
    /// The machine, with all its ports and the publisher of its reports.
    pub settled: Settled<H, A>,
    /// Each guest's verdicts in the order in which they came, guest 0's list first.
    pub verdicts: Vec<Vec<Verdict, A>, A>,
}

impl<H: PageHash, A: Allocator> Finished<H, A> {
    /// Returns the run without its reports. Waits for the watches that are reading right now; after that, no watch reads
    /// anything.
    pub fn unwatched<R: Wait>(self, rt: &R) -> merge_run::Finished<H, A>
        ensures settled { result.settled ≡ settled_in self.settled }
        ensures verdicts { result.verdicts ≡ self.verdicts }
    {
        let Finished { settled, verdicts } = self;
        let settled = settled.unwatched(rt);
        merge_run::Finished { settled, verdicts }
    }
}
