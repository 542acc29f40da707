//! Serving a round's requests once they are taken.
ghost use Rattle.std.specs.Prelude.{◌≡◌, ◌+◌, ◌<◌, ◌≤◌, All, length};
ghost use Rattle.page_model.specs.Replay.{state_after};
ghost use Rattle.merge_core.specs.Shown.{state_of};
ghost use Rattle.merge_machine.specs.Taking.{EachOwes, ServedSo};
ghost use Rattle.merge_core.specs.Hashing.{AreWorkers};
ghost use Rattle.page_model.specs.declared.limits.TheConstants.{MAX_ENTRIES};

use crate::note_next::note_ahead;
use crate::serve::answer_one;
use crate::workers::Workers;
use merge_core::Core;
use page_digest::PageHash;
use page_model::Entry;
use share_rings::MergerEnd;
use std::alloc::Allocator;
use std::sync::Wait;
use std::thread::Threads;

/// Serves the taken requests in the order in which they were taken. Pages are hashed ahead of their proposals.
pub(crate) fn serve_taken<
    R: Threads + Wait + Sync,
    H: PageHash,
    A: Allocator + Sync,
    B: Allocator + Clone + Send,
>(
    workers: &Workers<'_, R, B>,
    ends: &mut Vec<MergerEnd<A>, A>,
    core: &mut Core<H, A>,
    entries: &[Entry],
)
    requires workers { AreWorkers workers.now.count }
    requires members { All (λ e. e.guest < length ends.old.items) entries.now }
    requires guests { length (state_of core.old).guests ≡ length ends.old.items }
    requires room { core.old.entries + length entries.now ≤ MAX_ENTRIES }
    requires owes { EachOwes entries.now ends.old.items }
    ensures served { ServedSo H.hash_of (state_of core.old) entries.now (length entries.now) ends.old.items ends.new.items }
    ensures memory { state_of core.new ≡ state_after H.hash_of (state_of core.old) entries.now }
    ensures counted { core.new.entries ≡ core.old.entries + length entries.now }
    ensures guests { length (state_of core.new).guests ≡ length (state_of core.old).guests }
{
    for n in 0..entries.len() {
        note_ahead(workers, core, entries, n);
        let Entry { guest, request } = &entries[n];
        answer_one(
            &mut ends[*guest as usize],
            core,
            *guest,
            request,
            &entries[n + 1..],
        );
    }
}
