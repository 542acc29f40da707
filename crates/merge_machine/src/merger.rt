//! The merger.
ghost use Rattle.std.specs.Prelude.{◌≡◌, ◌≤◌, ◌<◌, All, length, vec_capacity};
ghost use Rattle.merge_core.specs.Shown.{state_of};
ghost use Rattle.merge_machine.specs.Kept.{Keeps};
ghost use Rattle.merge_machine.specs.Machines.{opening, IsReplayOf};
ghost use Rattle.page_model.specs.declared.limits.TheConstants.{MAX_ENTRIES, MAX_GUESTS};

use crate::ahead::{Ahead, look_ahead};
use crate::meet_each::meet_each;
use crate::serve::serve_one;
use merge_core::Core;
use page_digest::PageHash;
use page_model::{Entry, Report};
use share_rings::{ClosedPort, MergerEnd};
use std::alloc::{Allocator, Global};
use thiserror::Error;

/// What a step did.
#[derive(Clone, Copy, Debug, PartialEq, Eq)]
pub enum Step {
    /// Nothing: the guest's `Closed` was given.
    Ended,
    /// Nothing: no slot for the verdict is known to be free.
    Blocked,
    /// Nothing: a slot is free, and no request is seen.
    Idle,
    /// It took one request, put it in the journal, applied it and answered it.
    Done,
}

/// The journal is full: it has all the entries that it may have.
#[derive(Clone, Copy, Debug, PartialEq, Eq, Error)]
#[error("the journal is full")]
pub struct JournalFull;

/// A machine's merger: its end of each guest's rings, the journal and the core.
///
/// Between calls, each guest's taken requests are its entries in the journal, and the verdicts given to it are those of the
/// journal's replay. The core shows the state of that replay.
#[derive(Drop)]
pub struct Merger<H: PageHash, A: Allocator = Global> {
    pub(crate) ends: Vec<MergerEnd<A>, A>,
    pub(crate) journal: Vec<Entry, A>,
    pub(crate) core: Core<H, A>,
    // How many entries the journal may have.
    pub(crate) limit: u32,
    pub ghost kept: { Keeps H.hash_of (opening (state_of core)) ends.items journal.items },
    pub ghost replayed: { IsReplayOf H.hash_of (state_of core) journal.items },
    pub ghost members: { All (λ e. e.guest < length ends.items) journal.items },
    pub ghost guests: { length (state_of core).guests ≡ length ends.items },
    pub ghost few: { length ends.items ≤ MAX_GUESTS },
    pub ghost counted: { core.entries ≡ length journal.items },
    pub ghost within: { length journal.items ≤ limit },
    ghost room: { (limit ≤ vec_capacity journal) × (limit ≤ MAX_ENTRIES) },
}

impl<H: PageHash, A: Allocator> Merger<H, A> {
    ghost use Rattle.std.specs.Prelude.{◌≡◌, ◌<◌, true, false, MatchResult, IsSome, length};
    ghost use Rattle.page_model.specs.declared.limits.TheConstants.{PAGE_BYTES};
    ghost use Rattle.page_model.specs.Pages.{page_at, totals};
    ghost use Rattle.page_model.specs.Replay.{verdicts_of};
    ghost use Rattle.page_model.specs.Stored.{byte_at, last_stored};
    ghost use Rattle.merge_machine.specs.Kept.{end_names, closed_names, end_views, closed_views};
    ghost use Rattle.merge_machine.specs.Meets.{MeetWhereClosed, AllKnown, NoFewerFree};
    ghost use Rattle.merge_machine.specs.Same.{SameMachine};
    ghost use Rattle.merge_machine.specs.Steps.{Steps, IsFull};
    ghost use Rattle.merge_machine.specs.View.{ends_of, journal_of, limit_of, core_of, memory_of, machine_of};

    /// Serves one request of a guest: takes it, puts it in the journal, applies it and answers it. It allocates no memory.
    pub fn step(&mut self, guest: u8) -> Result<Step, JournalFull>
        requires { guest < length (ends_of self.old) }
        ensures step { MatchResult result (λ answer. Steps H.hash_of guest self.old self.new answer) (λ _. IsFull guest self.old self.new) }
        ensures same { SameMachine self.old self.new }
    {
        let is_full = self.is_full();
        let Merger {
            ends,
            journal,
            core,
            ..
        } = self;
        let end = &mut ends[guest as usize];
        match look_ahead(end, is_full) {
            Ahead::Ended => Ok(Step::Ended),
            Ahead::Full => Err(JournalFull),
            Ahead::Blocked => Ok(Step::Blocked),
            Ahead::Idle => Ok(Step::Idle),
            Ahead::Next(request) => {
                serve_one(end, journal, core, guest, request);
                Ok(Step::Done)
            }
        }
    }

    /// Whether the journal has all the entries that it may have.
    fn is_full(&self) -> bool
        ensures full { result ≡ true → length (journal_of self.now) ≡ limit_of self.now }
        ensures room { result ≡ false → length (journal_of self.now) < limit_of self.now }
    {
        self.journal.len() >= self.limit as usize
    }

    /// Brings each closed port together with its end, so that both know all that is left in their rings.
    ///
    /// The ports are all those of this machine, guest 0's first.
    pub fn meet_all(&mut self, ports: &mut Vec<ClosedPort<A>, A>)
        requires { closed_names ports.old.items ≡ end_names (ends_of self.old) }
        ensures ports { closed_views ports.new.items ≡ closed_views ports.old.items }
        ensures ends { end_views (ends_of self.new) ≡ end_views (ends_of self.old) }
        ensures journal { journal_of self.new ≡ journal_of self.old }
        ensures limit { limit_of self.new ≡ limit_of self.old }
        ensures core { core_of self.new ≡ core_of self.old }
        ensures known { AllKnown ports.new.items (ends_of self.new) }
        ensures free { NoFewerFree (ends_of self.old) (ends_of self.new) }
        ensures met { MeetWhereClosed ports.old.items (ends_of self.old) (length (ends_of self.old)) }
    {
        meet_each(ports, &mut self.ends);
    }

    /// Returns what the machine counts.
    pub fn report(&self) -> Report
        ensures { result ≡ totals (memory_of self.now).entries (memory_of self.now).guests }
    {
        self.core.report()
    }

    /// Returns the byte of a page at a place, 0 if the page is unmapped: the byte last stored there.
    pub fn read(&self, guest: u8, ppn: u32, at: u32) -> u8
        requires page { IsSome (page_at (memory_of self.now).guests guest ppn) }
        requires at { at < PAGE_BYTES }
        ensures byte { result ≡ byte_at (memory_of self.now) guest ppn at }
        ensures stored { result ≡ last_stored (journal_of self.now)
            (verdicts_of H.hash_of (machine_of self.now) (journal_of self.now)) guest ppn at }
    {
        self.core.read(guest, ppn, at)
    }

    /// Returns the entries so far, oldest first.
    pub fn journal(&self) -> &[Entry]
        ensures { result.now ≡ journal_of self.now }
    {
        &self.journal
    }

    /// Returns the merger's end of each guest's rings, guest 0's first.
    pub fn ends(&self) -> &[MergerEnd<A>]
        ensures { result.now ≡ ends_of self.now }
    {
        &self.ends
    }

    /// Returns the core.
    pub fn core(&self) -> &Core<H, A>
        ensures { result.now ≡ core_of self.now }
    {
        &self.core
    }
}
