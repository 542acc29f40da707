//! A domain behind an address that says nothing about its type.
ghost use Rattle.std.specs.Prelude.{◌≡◌, Option, Some, None, IsSome};
ghost use Rattle.std.specs.Coded.{coded_option};
ghost use Rattle.pageshare_c.specs.Held.{hosted_row};
ghost use Rattle.pageshare_c.specs.declared.hosted.Hosted.{Hosted};

use crate::hosted::Hosted;
use c_surface::Parcel;
use std::alloc::Global;
use std::marker::Model;

/// Room for the address of a domain in a block of the heap, which the slot owns if it holds one.
///
/// C sees a pointer, and never follows it.
#[repr(C)]
pub struct DomainSlot {
    at: *mut u8,
    pub ghost domain: { Option Hosted } by { coded_option hosted_row.coded },
}

impl Model for DomainSlot {
    ghost use Rattle.c_handles.specs.Held.{held_owns};
    ghost use Rattle.pageshare_c.specs.Held.{hosted_row};

    ghost also_owns = { λ s. held_owns hosted_row s.at s.domain };
}

// SAFETY: a domain and the heap may go to another thread, and so may the address of a block that nobody else has.
unsafe impl Send for DomainSlot {}

impl DomainSlot {
    /// Puts a domain into an empty slot.
    pub(crate) fn fill(&mut self, domain: Parcel<Hosted, Global>)
        requires { self.old.domain ≡ None }
        ensures { self.new.domain ≡ Some domain.value }
    {
        let Parcel { at, heap: _ } = domain;
        self.at = at as *mut u8;
    }

    /// Takes the domain out of the slot.
    pub(crate) fn empty(&mut self, heap: Global) -> Parcel<Hosted, Global>
        requires { IsSome self.old.domain }
        ensures { (self.old.domain ≡ Some result.value) × (self.new.domain ≡ None) }
    {
        Parcel {
            at: self.at as *mut Hosted,
            heap,
        }
    }
}
