//! A process's windows behind an address that says nothing about its type.
ghost use Rattle.std.specs.Prelude.{◌≡◌, Option, Some, None, IsSome};
ghost use Rattle.std.specs.Coded.{coded_option};
ghost use Rattle.pageshare_window_c.specs.ProcessHeld.{lender_row};
ghost use Rattle.process_lender.specs.Windows.{Lender};

use crate::process::held::HeldProcess;
use c_handles::Parcel;
use std::alloc::Global;
use std::marker::Model;

/// Room for the address of all windows of a process in a block of the heap, which the slot owns if it holds one.
///
/// C sees a pointer, and never follows it.
#[repr(C)]
pub struct ProcessSlot {
    at: *mut u8,
    pub ghost lender: { Option Lender } by { coded_option lender_row.coded },
}

impl Model for ProcessSlot {
    ghost use Rattle.c_handles.specs.Held.{held_owns};
    ghost use Rattle.pageshare_window_c.specs.ProcessHeld.{lender_row};

    ghost also_owns = { λ s. held_owns lender_row s.at s.lender };
}

// SAFETY: windows and the heap may go to another thread, and so may the address of a block that nobody else has.
unsafe impl Send for ProcessSlot {}

impl ProcessSlot {
    /// Puts a process's windows into an empty slot.
    pub(crate) fn fill(&mut self, lender: Parcel<HeldProcess, Global>)
        requires { self.old.lender ≡ None }
        ensures { self.new.lender ≡ Some lender.value }
    {
        let Parcel { at, heap: _ } = lender;
        self.at = at as *mut u8;
    }

    /// Takes a process's windows out of the slot.
    pub(crate) fn empty(&mut self, heap: Global) -> Parcel<HeldProcess, Global>
        requires { IsSome self.old.lender }
        ensures { (self.old.lender ≡ Some result.value) × (self.new.lender ≡ None) }
    {
        Parcel {
            at: self.at as *mut HeldProcess,
            heap,
        }
    }
}
