//! Why a run returns nothing when memory was refused.
ghost use Rattle.merge_run.specs.Runs.{NotRunFor};

use merge_machine::{Config, JournalFull};
use merge_run::{RunFault, has_room};
use page_model::Request;
use std::alloc::Allocator;

/// Returns the first cause against a run to which memory was refused: lack of memory is reported only if nothing else is wrong.
pub(crate) fn find_cause<A: Allocator>(config: &Config<A>, scripts: &[Vec<Request, A>]) -> RunFault
    ensures { NotRunFor config.now scripts.now result }
{
    match config.check() {
        Err(fault) => RunFault::from(fault),
        Ok(_) => {
            if has_room(config.journal, scripts) {
                RunFault::OutOfMemory
            } else {
                RunFault::Stopped(JournalFull)
            }
        }
    }
}
