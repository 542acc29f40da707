//! A machine whose guests have all received their `Closed`, and whose reports are published.
ghost use Rattle.merge_core.specs.Shown.{state_of};
ghost use Rattle.merge_machine.specs.Machines.{opening};
ghost use Rattle.merge_settle.specs.View.{settled_core, settled_journal};
ghost use Rattle.watched_machine.specs.Lists.{published};
ghost use Rattle.merge_run.specs.Fronts.{AreOfFronts};

use crate::{NoWatch, Publisher, Told, Watch};
use merge_core::Core;
use page_digest::PageHash;
use page_model::{Entry, Report};
use share_rings::ClosedPort;
use std::alloc::{Allocator, Global};
use std::sync::Wait;

/// A settled machine with all its closed ports, and the publisher of its reports. Use it up by [`Settled::end`], since it can't
/// be dropped.
///
/// Each report that was published is the report of the replay of a front of its journal.
pub struct Settled<H: PageHash, A: Allocator = Global> {
    pub(crate) settled: merge_settle::Settled<H, A>,
    pub(crate) publisher: Publisher<A>,
    pub ghost reports: { AreOfFronts H.hash_of (opening (state_of (settled_core settled))) (settled_journal settled) (published publisher) },
}

impl<H: PageHash, A: Allocator> Settled<H, A> {
    ghost use Rattle.std.specs.Prelude.{◌≡◌, ◌<◌, IfOk, IsSome, Some, length, slice_get};
    ghost use Rattle.page_model.specs.Pages.{page_at, totals};
    ghost use Rattle.page_model.specs.Replay.{verdicts_of};
    ghost use Rattle.page_model.specs.Stored.{byte_at, last_stored};
    ghost use Rattle.page_model.specs.declared.limits.TheConstants.{PAGE_BYTES};
    ghost use Rattle.merge_core.specs.Shown.{state_of};
    ghost use Rattle.merge_machine.specs.Machines.{opening};
    ghost use Rattle.merge_settle.specs.View.{settled_core, settled_journal, settled_ports};
    ghost use Rattle.watched_machine.specs.Published.{IsNewWatch, TellsAll, Unchanged};
    ghost use Rattle.watched_machine.specs.View.{settled_in, settled_publisher};

    /// Returns the whole journal, oldest entry first.
    pub fn journal(&self) -> &[Entry]
        ensures { result.now ≡ settled_journal (settled_in self.now) }
    {
        self.settled.journal()
    }

    /// Returns what the machine counts.
    pub fn report(&self) -> Report
        ensures { result ≡ totals (state_of (settled_core (settled_in self.now))).entries (state_of (settled_core (settled_in self.now))).guests }
    {
        self.settled.report()
    }

    /// Returns the byte of a page at a place, 0 if the page is unmapped: the byte last stored there.
    pub fn read(&self, guest: u8, ppn: u32, at: u32) -> u8
        requires page { IsSome (page_at (state_of (settled_core (settled_in self.now))).guests guest ppn) }
        requires at { at < PAGE_BYTES }
        ensures byte { result ≡ byte_at (state_of (settled_core (settled_in self.now))) guest ppn at }
        ensures stored { result ≡ last_stored (settled_journal (settled_in self.now))
            (verdicts_of H.hash_of (opening (state_of (settled_core (settled_in self.now)))) (settled_journal (settled_in self.now))) guest ppn at }
    {
        self.settled.read(guest, ppn, at)
    }

    /// Returns the core.
    pub fn core(&self) -> &Core<H, A>
        ensures { result.now ≡ settled_core (settled_in self.now) }
    {
        self.settled.core()
    }

    /// Returns a guest's port.
    pub fn port(&self, guest: u8) -> &ClosedPort<A>
        requires { guest < length (settled_ports (settled_in self.now)) }
        ensures { slice_get (settled_ports (settled_in self.now)) guest ≡ Some result.now }
    {
        self.settled.port(guest)
    }

    /// Makes a watch that has seen nothing yet and has learned all that was published, as
    /// [`Merger::watch`](crate::Merger::watch) does.
    pub fn watch(&mut self) -> Result<Watch<A>, NoWatch>
        ensures watch { IfOk result (IsNewWatch (settled_publisher self.old)) }
        ensures settled { settled_in self.new ≡ settled_in self.old }
        ensures reports { Unchanged (settled_publisher self.old) (settled_publisher self.new) }
    {
        self.publisher.watch()
    }

    /// Returns a [`Told`] of all reports that were published. Takes no memory.
    pub fn tell(&self) -> Told
        ensures { TellsAll (settled_publisher self.now) result }
    {
        self.publisher.tell()
    }

    /// Ends the machine, and waits for the watches that are reading right now. After that, no watch reads anything.
    pub fn end<R: Wait>(self, rt: &R)
    where
        H: Drop,
    {
        drop(self.unwatched(rt));
    }

    /// Ends the publisher as [`end`](Settled::end) does, and returns the settled machine without it.
    pub fn unwatched<R: Wait>(self, rt: &R) -> merge_settle::Settled<H, A>
        ensures { result ≡ settled_in self }
    {
        let Settled { settled, publisher } = self;
        publisher.end(rt);
        settled
    }
}
