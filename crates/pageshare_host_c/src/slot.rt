//! A host behind an address that says nothing about its type.
ghost use Rattle.std.specs.Prelude.{◌≡◌, Option, Some, None, IsSome};
ghost use Rattle.std.specs.Coded.{coded_option};
ghost use Rattle.pageshare_host_c.specs.Held.{hosted_row};
ghost use Rattle.pageshare_host_c.specs.declared.hosted.Hosted.{Hosted};

use crate::hosted::Hosted;
use c_surface::Parcel;
use std::alloc::Global;
use std::marker::Model;

/// Room for the address of a host in a block of the heap, which the slot owns if it holds one.
///
/// C sees a pointer, and never follows it.
#[repr(C)]
pub struct HostSlot {
    at: *mut u8,
    pub ghost host: { Option Hosted } by { coded_option hosted_row.coded },
}

impl Model for HostSlot {
    ghost use Rattle.c_handles.specs.Held.{held_owns};
    ghost use Rattle.pageshare_host_c.specs.Held.{hosted_row};

    ghost also_owns = { λ s. held_owns hosted_row s.at s.host };
}

// SAFETY: a host and the heap may go to another thread, and so may the address of a block that nobody else has.
unsafe impl Send for HostSlot {}

impl HostSlot {
    /// Puts a host into an empty slot.
    pub(crate) fn fill(&mut self, host: Parcel<Hosted, Global>)
        requires { self.old.host ≡ None }
        ensures { self.new.host ≡ Some host.value }
    {
        let Parcel { at, heap: _ } = host;
        self.at = at as *mut u8;
    }

    /// Takes the host out of the slot.
    pub(crate) fn empty(&mut self, heap: Global) -> Parcel<Hosted, Global>
        requires { IsSome self.old.host }
        ensures { (self.old.host ≡ Some result.value) × (self.new.host ≡ None) }
    {
        Parcel {
            at: self.at as *mut Hosted,
            heap,
        }
    }
}
