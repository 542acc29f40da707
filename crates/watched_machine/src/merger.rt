//! A machine's merger, which publishes its reports.
ghost use Rattle.merge_machine.specs.View.{journal_of, machine_of};
ghost use Rattle.watched_machine.specs.Lists.{published};
ghost use Rattle.merge_run.specs.Fronts.{AreOfFronts};

use crate::{NoWatch, PublishFault, Publisher, Told, Watch};
use merge_machine::{JournalFull, Step};
use page_digest::PageHash;
use page_model::{Entry, Report};
use std::alloc::{Allocator, Global};
use std::sync::Wait;
use std::thread::Threads;

/// A machine's merger, and the publisher of its reports. Use it up by [`Merger::end`] or [`settle`](crate::settle), since it
/// can't be dropped.
///
/// It serves as [`merge_machine::Merger`] does. Each report that it published is the report of the replay of a front of its
/// journal.
pub struct Merger<H: PageHash, A: Allocator = Global> {
    pub(crate) merger: merge_machine::Merger<H, A>,
    pub(crate) publisher: Publisher<A>,
    pub ghost reports: { AreOfFronts H.hash_of (machine_of merger) (journal_of merger) (published publisher) },
}

impl<H: PageHash, A: Allocator> Merger<H, A> {
    ghost use Rattle.std.specs.Prelude.{◌≡◌, ◌<◌, IfOk, IsSome, MatchResult};
    ghost use Rattle.page_model.specs.Pages.{page_at, totals};
    ghost use Rattle.page_model.specs.Replay.{verdicts_of};
    ghost use Rattle.page_model.specs.Stored.{byte_at, last_stored};
    ghost use Rattle.page_model.specs.declared.limits.TheConstants.{PAGE_BYTES};
    ghost use Rattle.merge_machine.specs.Same.{SameMachine};
    ghost use Rattle.merge_machine.specs.Steps.{Steps, IsFull};
    ghost use Rattle.merge_machine.specs.View.{guest_count, journal_of, machine_of, memory_of};
    ghost use Rattle.watched_machine.specs.Lists.{publisher_id, told_id};
    ghost use Rattle.watched_machine.specs.Published.{Confirms, HasRoom, IsNewWatch, RefusedFor, TellsAll, Unchanged};
    ghost use Rattle.watched_machine.specs.Publishing.{PublishesJournal};
    ghost use Rattle.watched_machine.specs.View.{merger_in, publisher_in};

    /// Serves one request of a guest: takes it, puts it in the journal, applies it and answers it. It allocates no memory.
    pub fn step(&mut self, guest: u8) -> Result<Step, JournalFull>
        requires { guest < guest_count (merger_in self.old) }
        ensures step { MatchResult result (λ answer. Steps H.hash_of guest (merger_in self.old) (merger_in self.new) answer)
            (λ _. IsFull guest (merger_in self.old) (merger_in self.new)) }
        ensures same { SameMachine (merger_in self.old) (merger_in self.new) }
        ensures reports { Unchanged (publisher_in self.old) (publisher_in self.new) }
    {
        self.merger.step(guest)
    }

    /// Returns what the machine counts.
    pub fn report(&self) -> Report
        ensures { result ≡ totals (memory_of (merger_in self.now)).entries (memory_of (merger_in self.now)).guests }
    {
        self.merger.report()
    }

    /// Returns the byte of a page at a place, 0 if the page is unmapped: the byte last stored there.
    pub fn read(&self, guest: u8, ppn: u32, at: u32) -> u8
        requires page { IsSome (page_at (memory_of (merger_in self.now)).guests guest ppn) }
        requires at { at < PAGE_BYTES }
        ensures byte { result ≡ byte_at (memory_of (merger_in self.now)) guest ppn at }
        ensures stored { result ≡ last_stored (journal_of (merger_in self.now))
            (verdicts_of H.hash_of (machine_of (merger_in self.now)) (journal_of (merger_in self.now))) guest ppn at }
    {
        self.merger.read(guest, ppn, at)
    }

    /// Returns the entries so far, oldest first.
    pub fn journal(&self) -> &[Entry]
        ensures { result.now ≡ journal_of (merger_in self.now) }
    {
        self.merger.journal()
    }

    /// Makes a watch that has seen nothing yet and has learned all that was published so far.
    ///
    /// An `Err` comes if there are eight watches already; `left_right` may also refuse one for its own reasons.
    pub fn watch(&mut self) -> Result<Watch<A>, NoWatch>
        ensures watch { IfOk result (IsNewWatch (publisher_in self.old)) }
        ensures merger { merger_in self.new ≡ merger_in self.old }
        ensures reports { Unchanged (publisher_in self.old) (publisher_in self.new) }
    {
        self.publisher.watch()
    }

    /// Publishes the report of the whole journal, and returns a [`Told`] of all published reports. May wait for a watch that is
    /// reading.
    ///
    /// # Errors
    ///
    /// `Full` exactly after 2^62 reports, and otherwise `OutOfMemory` when memory is refused. Nothing has changed then.
    pub fn publish<R: Wait>(&mut self, rt: &R) -> Result<Told, PublishFault>
        ensures published { MatchResult result (PublishesJournal H.hash_of self.old self.new)
            (λ _. Unchanged (publisher_in self.old) (publisher_in self.new)) }
        ensures fault { MatchResult result (λ _. HasRoom (publisher_in self.old)) (RefusedFor (publisher_in self.old)) }
        ensures merger { merger_in self.new ≡ merger_in self.old }
        ensures same { publisher_id (publisher_in self.new) ≡ publisher_id (publisher_in self.old) }
    {
        let report = self.merger.report();
        self.publisher.publish(rt, report)
    }

    /// Returns a [`Told`] of all reports that were published so far. Takes no memory.
    pub fn tell(&self) -> Told
        ensures { TellsAll (publisher_in self.now) result }
    {
        self.publisher.tell()
    }

    /// Returns whether a watch, or an earlier `Told`, has only what was published, as
    /// [`Publisher::has_published`](crate::Publisher::has_published) does.
    pub fn has_published(&self, told: &Told) -> bool
        requires same_publisher { told_id told.now ≡ publisher_id (publisher_in self.now) }
        ensures { Confirms (publisher_in self.now) told.now result }
    {
        self.publisher.has_published(told)
    }

    /// Ends the machine, and waits for the watches that are reading right now. After that, no watch reads anything.
    pub fn end<R: Wait>(self, rt: &R)
    where
        H: Drop,
    {
        let Merger {
            merger: _,
            publisher,
        } = self;
        publisher.end(rt);
    }
}

impl<H: PageHash, A: Allocator + Sync> Merger<H, A> {
    ghost use Rattle.std.specs.Prelude.{◌≤◌, MatchResult};
    ghost use Rattle.merge_core.specs.Hashing.{AreWorkers};
    ghost use Rattle.merge_machine.specs.Rounds.{Rounds, IsFullForAll};
    ghost use Rattle.merge_machine.specs.Same.{SameMachine};
    ghost use Rattle.merge_machine.specs.declared.limits.TheConstants.{MAX_ROUND};
    ghost use Rattle.watched_machine.specs.Published.{Unchanged};
    ghost use Rattle.watched_machine.specs.View.{merger_in, publisher_in};

    /// Serves several requests, at most `limit`, as [`merge_machine::Merger::round`] does, and returns how many there were.
    ///
    /// # Errors
    ///
    /// The journal was full at the call, and some guest hasn't ended.
    pub fn round<R: Threads + Wait + Sync, B: Allocator + Clone + Send>(
        &mut self,
        rt: &R,
        alloc: B,
        workers: u32,
        limit: u32,
    ) -> Result<u32, JournalFull>
        requires workers { AreWorkers workers }
        requires limit { (1 ≤ limit) × (limit ≤ MAX_ROUND) }
        ensures round { MatchResult result (λ done. Rounds H.hash_of limit done (merger_in self.old) (merger_in self.new))
            (λ _. IsFullForAll (merger_in self.old) (merger_in self.new)) }
        ensures same { SameMachine (merger_in self.old) (merger_in self.new) }
        ensures reports { Unchanged (publisher_in self.old) (publisher_in self.new) }
    {
        self.merger.round(rt, alloc, workers, limit)
    }
}
