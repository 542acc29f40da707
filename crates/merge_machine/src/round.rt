//! A round of the merger.
ghost use Rattle.std.specs.Prelude.{◌≡◌, ◌+◌, ◌≤◌, length, vec_capacity};
ghost use Rattle.merge_core.specs.Shown.{state_of};
ghost use Rattle.merge_machine.specs.Rounds.{has_open};
ghost use Rattle.merge_machine.specs.Taking.{AllAnswered, Done};
ghost use Rattle.merge_core.specs.Hashing.{AreWorkers};
ghost use Rattle.merge_machine.specs.declared.limits.TheConstants.{MAX_ROUND};
ghost use Rattle.page_model.specs.declared.limits.TheConstants.{MAX_ENTRIES, MAX_GUESTS};

use crate::merger::{JournalFull, Merger};
use crate::serve_taken::serve_taken;
use crate::take_requests::take_requests;
use crate::workers::Workers;
use merge_core::Core;
use page_digest::PageHash;
use page_model::Entry;
use share_rings::MergerEnd;
use std::alloc::Allocator;
use std::sync::Wait;
use std::thread::Threads;

impl<H: PageHash, A: Allocator + Sync> Merger<H, A> {
    ghost use Rattle.std.specs.Prelude.{◌≡◌, ◌+◌, ◌≤◌, MatchResult, length};
    ghost use Rattle.merge_machine.specs.Same.{SameMachine};
    ghost use Rattle.merge_machine.specs.Rounds.{Rounds, IsFullForAll};
    ghost use Rattle.merge_machine.specs.View.{journal_of, limit_of};
    ghost use Rattle.merge_core.specs.Hashing.{AreWorkers};
    ghost use Rattle.merge_machine.specs.declared.limits.TheConstants.{MAX_ROUND};

    /// Serves several requests. Visits guests 0, 1, .. in turn, skipping those that have ended, and takes one request at each
    /// visit, as [`step`](Merger::step) does. Stops once `limit` requests are taken, a whole turn finds none, or the journal is
    /// full. Then applies and answers the requests in that order. Returns how many there were. So a guest that doesn't take its
    /// verdicts keeps no other guest from being served.
    ///
    /// A request is taken only if a slot for its verdict is free beyond those for the verdicts that its guest is owed. The hashes
    /// of proposed pages are computed ahead, eight or four at a time. If there are enough of them, several workers compute them:
    /// at most `workers`, 1 to `MAX_WORKERS`, one of which is the calling thread. If memory or a thread is refused, the calling
    /// thread computes them alone. `limit` is 1 to [`MAX_ROUND`](crate::MAX_ROUND).
    ///
    /// # Errors
    ///
    /// The journal was full at the call, and some guest hasn't ended.
    pub fn round<R: Threads + Wait + Sync, B: Allocator + Clone + Send>(
        &mut self,
        rt: &R,
        alloc: B,
        workers: u32,
        limit: u32,
    ) -> Result<u32, JournalFull>
        requires workers { AreWorkers workers }
        requires limit { (1 ≤ limit) × (limit ≤ MAX_ROUND) }
        ensures round { MatchResult result (λ done. Rounds H.hash_of limit done self.old self.new) (λ _. IsFullForAll self.old self.new) }
        ensures same { SameMachine self.old self.new }
    {
        let room = self.room();
        let Merger {
            ends,
            journal,
            core,
            ..
        } = self;
        if room == 0 && is_any_open(ends) {
            return Err(JournalFull);
        }
        let workers = Workers {
            rt,
            alloc,
            count: workers,
        };
        Ok(take_and_serve(&workers, ends, journal, core, limit.min(room)))
    }

    /// Returns how many more entries the journal has room for.
    fn room(&self) -> u32
        ensures { result + length (journal_of self.now) ≡ limit_of self.now }
    {
        self.limit - self.journal.len() as u32
    }
}

/// Takes at most `most` requests, and serves them in the order in which they were taken. Returns how many.
pub(crate) fn take_and_serve<
    R: Threads + Wait + Sync,
    H: PageHash,
    A: Allocator + Sync,
    B: Allocator + Clone + Send,
>(
    workers: &Workers<'_, R, B>,
    ends: &mut Vec<MergerEnd<A>, A>,
    journal: &mut Vec<Entry, A>,
    core: &mut Core<H, A>,
    most: u32,
) -> u32
    requires workers { AreWorkers workers.now.count }
    requires few { length ends.old.items ≤ MAX_GUESTS }
    requires room { length journal.old.items + most ≤ vec_capacity journal.old }
    requires most { most ≤ MAX_ROUND }
    requires guests { length (state_of core.old).guests ≡ length ends.old.items }
    requires entries { core.old.entries + most ≤ MAX_ENTRIES }
    requires answered { AllAnswered ends.old.items }
    ensures done { Done H.hash_of most result ends.old.items ends.new.items journal.old.items journal.new.items core.old core.new }
    ensures capacity { vec_capacity journal.new ≡ vec_capacity journal.old }
{
    let before = journal.len();
    take_requests(ends, journal, most as usize);
    let taken = &journal[before..];
    serve_taken(workers, ends, core, taken);
    taken.len() as u32
}

/// Whether some guest hasn't ended.
pub(crate) fn is_any_open<A: Allocator>(ends: &[MergerEnd<A>]) -> bool
    ensures { result ≡ has_open ends.now }
{
    ends.iter().any(|end| !end.ended())
}
