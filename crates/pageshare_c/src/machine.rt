//! What C keeps of a machine.
ghost use Rattle.std.specs.Prelude.{◌≡◌, Some, None, is_some};

use crate::hashed_core::HashedCore;
use crate::slot::Slot;
use c_surface::{Handle, Parcel};
use std::alloc::Global;

/// A handle: it can contain one machine, and contains none while all its bytes are 0.
#[repr(C)]
pub struct Machine {
    pub slot: Slot,
    live: bool,
    ghost agree: { is_some slot.core ≡ live },
}

impl Handle for Machine {
    type Held = HashedCore;

    ghost held = { λ h. h.slot.core };

    fn is_live(&self) -> bool {
        self.live
    }

    fn take(&mut self, alloc: Global) -> Option<Box<HashedCore>> {
        if self.live {
            self.live = false;
            Some(self.slot.empty(alloc).unwrap())
        } else {
            None
        }
    }

    fn put(&mut self, value: Box<HashedCore>)
        requires { self.old.slot.core ≡ None }
        ensures { self.new.slot.core ≡ Some value.value }
    {
        self.live = true;
        self.slot.fill(Parcel::wrap(value));
    }
}

/// Rejects a type that may not go to another thread.
#[allow(dead_code)]
fn goes_to_threads<T: Send>() {}

/// Checks that a handle may.
#[allow(dead_code)]
fn handle_goes_to_threads() {
    goes_to_threads::<Machine>();
}
