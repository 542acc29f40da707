//! Hashing the pages that a round's requests propose, with several workers.
ghost use Rattle.std.specs.Prelude.{◌≡◌, ◌<◌, ◌≤◌, length};
ghost use Rattle.merge_core.specs.Hashing.{AreWorkers};
ghost use Rattle.page_forecasts.specs.declared.forecasts.TheConstants.{REACH};

use crate::workers::Workers;
use arrayvec::ArrayVec;
use merge_core::{Core, PAGES_A_WORKER};
use page_digest::PageHash;
use page_forecasts::{REACH, Upcoming, upcoming};
use page_model::Entry;
use std::alloc::Allocator;
use std::sync::Wait;
use std::thread::Threads;

/// At each [`REACH`]th of these requests, the first included, notes the hashes of the pages that it and those after it up to
/// the next such propose, if they are enough for two workers: fewer are hashed as they are proposed. It changes nothing that
/// the core shows.
pub(crate) fn note_ahead<
    R: Threads + Wait + Sync,
    H: PageHash,
    A: Allocator + Sync,
    B: Allocator + Clone + Send,
>(workers: &Workers<'_, R, B>, core: &mut Core<H, A>, entries: &[Entry], at: usize)
    requires workers { AreWorkers workers.now.count }
    requires at { at < length entries.now }
    ensures { core.new ≡ core.old }
{
    if at % REACH != 0 {
        return;
    }
    let count = (entries.len() - at).min(REACH);
    let pages = proposed(&entries[at..at + count]);
    if pages.len() < 2 * PAGES_A_WORKER {
        return;
    }
    let Ok(alloc) = workers.alloc.clone() else {
        return;
    };
    core.note_hashes_by(workers.rt, alloc, workers.count, pages.as_slice());
}

/// Returns the pages that these requests propose, except those that they store to or release before: their bytes may be
/// different by then.
fn proposed(window: &[Entry]) -> ArrayVec<(u8, u32), REACH>
    requires { length window.now ≤ REACH }
{
    let mut pages = ArrayVec::new();
    for i in 0..window.len() {
        if let Some(Upcoming::AtRest(ppn)) = upcoming(&window[..i], &window[i]) {
            pages.push((window[i].guest, ppn));
        }
    }
    pages
}
