//! A core behind an address that says nothing about its type.
ghost use Rattle.std.specs.Prelude.{◌≡◌, Option, Some, None, IsSome};
ghost use Rattle.std.specs.Coded.{coded_option};
ghost use Rattle.pageshare_c.specs.Held.{core_row};
ghost use Rattle.pageshare_c.specs.declared.hashed_core.HashedCore.{HashedCore};

use crate::hashed_core::HashedCore;
use c_surface::Parcel;
use std::alloc::Global;
use std::marker::Model;

/// Room for the address of a core in a block of the heap, which the slot owns if it holds one.
///
/// C sees a pointer, and never follows it.
#[repr(C)]
pub struct Slot {
    at: *mut u8,
    pub ghost core: { Option HashedCore } by { coded_option core_row.coded },
}

impl Model for Slot {
    ghost use Rattle.c_handles.specs.Held.{held_owns};
    ghost use Rattle.pageshare_c.specs.Held.{core_row};

    ghost also_owns = { λ s. held_owns core_row s.at s.core };
}

// SAFETY: a core and the heap may go to another thread, and so may the address of a block that nobody else has.
unsafe impl Send for Slot {}

impl Slot {
    /// Puts a core into an empty slot.
    pub(crate) fn fill(&mut self, core: Parcel<HashedCore, Global>)
        requires { self.old.core ≡ None }
        ensures { self.new.core ≡ Some core.value }
    {
        let Parcel { at, heap: _ } = core;
        self.at = at as *mut u8;
    }

    /// Takes the core out of the slot.
    pub(crate) fn empty(&mut self, heap: Global) -> Parcel<HashedCore, Global>
        requires { IsSome self.old.core }
        ensures { (self.old.core ≡ Some result.value) × (self.new.core ≡ None) }
    {
        Parcel {
            at: self.at as *mut HashedCore,
            heap,
        }
    }
}
