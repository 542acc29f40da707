//! A machine whose guests have all received their `Closed`.
ghost use Rattle.std.specs.Prelude.{◌≡◌, length};
ghost use Rattle.merge_machine.specs.View.{guest_count};

use merge_core::Core;
use merge_machine::Merger;
use page_digest::PageHash;
use page_model::{Entry, Report};
use share_rings::ClosedPort;
use std::alloc::{Allocator, Global};

/// A settled machine: its merger and all its closed ports, in one thread again.
#[derive(Drop)]
pub struct Settled<H: PageHash, A: Allocator = Global> {
    pub(crate) merger: Merger<H, A>,
    pub(crate) ports: Vec<ClosedPort<A>, A>,
    pub ghost whole: { length ports.items ≡ guest_count merger },
}

impl<H: PageHash, A: Allocator> Settled<H, A> {
    ghost use Rattle.std.specs.Prelude.{◌≡◌, ◌<◌, Some, length, slice_get, IsSome};
    ghost use Rattle.page_model.specs.declared.limits.TheConstants.{PAGE_BYTES};
    ghost use Rattle.page_model.specs.Pages.{page_at, totals};
    ghost use Rattle.page_model.specs.Replay.{verdicts_of};
    ghost use Rattle.page_model.specs.Stored.{byte_at, last_stored};
    ghost use Rattle.merge_core.specs.Shown.{state_of};
    ghost use Rattle.merge_machine.specs.Machines.{opening};
    ghost use Rattle.merge_settle.specs.View.{settled_journal, settled_ports, settled_core};

    /// Returns the whole journal, oldest entry first.
    pub fn journal(&self) -> &[Entry]
        ensures { result.now ≡ settled_journal self.now }
    {
        self.merger.journal()
    }

    /// Returns what the machine counts.
    pub fn report(&self) -> Report
        ensures { result ≡ totals (state_of (settled_core self.now)).entries (state_of (settled_core self.now)).guests }
    {
        self.merger.report()
    }

    /// Returns the byte of a page at a place, 0 if the page is unmapped: the byte last stored there.
    pub fn read(&self, guest: u8, ppn: u32, at: u32) -> u8
        requires page { IsSome (page_at (state_of (settled_core self.now)).guests guest ppn) }
        requires at { at < PAGE_BYTES }
        ensures byte { result ≡ byte_at (state_of (settled_core self.now)) guest ppn at }
        ensures stored { result ≡ last_stored (settled_journal self.now)
            (verdicts_of H.hash_of (opening (state_of (settled_core self.now))) (settled_journal self.now)) guest ppn at }
    {
        self.merger.read(guest, ppn, at)
    }

    /// Returns the core.
    pub fn core(&self) -> &Core<H, A>
        ensures { result.now ≡ settled_core self.now }
    {
        self.merger.core()
    }

    /// Returns a guest's port.
    pub fn port(&self, guest: u8) -> &ClosedPort<A>
        requires { guest < length (settled_ports self.now) }
        ensures { slice_get (settled_ports self.now) guest ≡ Some result.now }
    {
        &self.ports[guest as usize]
    }
}
